//! The rules on the pointers and the accessed bytes of a goal, over the nodes of a table.

ghost use Rattle.std.specs.Prelude.{◌≡◌, ◌+◌, ◌<◌, ◌≤◌, ◌++◌, ℕ, All, OnOk, IfOk, IfSome, not};
ghost use Rattle.std.specs.Prelude.{length, map, drop, option_map};
ghost use Rattle.std.specs.List.{flat_map, list_all, list_any, sum_by};
ghost use Rattle.bv_terms.specs.declared.op.Op.TheVariants as op;
ghost use Rattle.bv_terms.specs.Subterm.{AreSubterms};
ghost use Rattle.bv_terms.specs.Table.{Table, operands, terms_of, term_at};
ghost use Rattle.bv_terms.specs.Term.{Term, Apply};
ghost use Rattle.isel_spec.specs.Memory.{each_once, same_access, access_in, some_of, is_load, subterms};
ghost use Rattle.term_text.specs.Build.{AreNodes, terms_at};
ghost use Rattle.spec_reader.specs.Accesses.{access_by, accesses_by};

use crate::shape::{is_same, node};
use bv_terms::{Op, TermId, Terms};
use std::alloc::{AllocError, Global};

/// An access: how many bytes, and at which pointer.
#[derive(Clone, Copy)]
pub(crate) struct Access {
    pub(crate) bytes: u8,
    pub(crate) pointer: TermId,
}

/// The access of a load or a mark over these arguments.
fn read_access(bytes: u8, args: &[TermId]) -> Option<Access>
    ensures load { (table : Table) → option_map (access_by table) result
        ≡ access_in (Apply (op.MLoad bytes) (operands (terms_of table) args.now)) }
    ensures mark { (table : Table) → option_map (access_by table) result
        ≡ access_in (Apply (op.MMark bytes) (operands (terms_of table) args.now)) }
    ensures within { (size : ℕ) → All (λ a. a.0 < size) args.now → IfSome result (λ a. a.pointer.0 < size) }
{
    match *args {
        [_, pointer] => Some(Access { bytes, pointer }),
        _ => None,
    }
}

/// The access of a store over these arguments.
fn write_access(bytes: u8, args: &[TermId]) -> Option<Access>
    ensures store { (table : Table) → option_map (access_by table) result
        ≡ access_in (Apply (op.MStore bytes) (operands (terms_of table) args.now)) }
    ensures within { (size : ℕ) → All (λ a. a.0 < size) args.now → IfSome result (λ a. a.pointer.0 < size) }
{
    match *args {
        [_, pointer, _] => Some(Access { bytes, pointer }),
        _ => None,
    }
}

/// The access that a node is.
fn access_of(terms: &Terms, at: TermId) -> Option<Access>
    requires { at.0 < length terms.now.nodes }
    ensures value { option_map (access_by terms.now) result ≡ access_in (term_at terms.now at) }
    ensures within { IfSome result (λ a. a.pointer.0 < length terms.now.nodes) }
{
    let (op, args) = node(terms, at);
    match *op {
        Op::MLoad { bytes } => read_access(bytes, args),
        Op::MMark { bytes } => read_access(bytes, args),
        Op::MStore { bytes } => write_access(bytes, args),
        _ => None,
    }
}

/// Adds an access, where there is one.
fn add_access(found: &mut Vec<Access>, access: Option<Access>) -> Result<(), AllocError>
    ensures { OnOk result (found.new.items ≡ found.old.items ++ some_of access) }
{
    if let Some(access) = access {
        found.push(access)?;
    }
    Ok(())
}

/// The accesses among nodes, in order.
pub(crate) fn accesses(
    alloc: Global,
    terms: &Terms,
    nodes: &[TermId],
) -> Result<Vec<Access>, AllocError>
    requires { AreNodes terms.now nodes.now }
    ensures value { IfOk result (λ found. accesses_by terms.now found.items
        ≡ flat_map (λ t. some_of (access_in t)) (terms_at terms.now nodes.now)) }
    ensures within { IfOk result (λ found. All (λ a. a.pointer.0 < length terms.now.nodes) found.items) }
    ensures few { IfOk result (λ found. length found.items ≤ length nodes.now) }
{
    let mut found = Vec::new(alloc);
    for at in nodes {
        add_access(&mut found, access_of(terms, *at))?;
    }
    Ok(found)
}

/// The pointers of accesses, in order.
fn pointers(alloc: Global, accesses: &[Access]) -> Result<Vec<TermId>, AllocError>
    ensures { IfOk result (λ nodes. nodes.items ≡ map (λ a. a.pointer) accesses.now) }
{
    let mut nodes = Vec::new(alloc);
    for access in accesses {
        nodes.push(access.pointer)?;
    }
    Ok(nodes)
}

/// Whether a node is a load.
fn is_load(terms: &Terms, at: TermId) -> bool
    requires { at.0 < length terms.now.nodes }
    ensures { result ≡ is_load (term_at terms.now at) }
{
    let (op, _) = node(terms, at);
    matches!(*op, Op::MLoad { .. })
}

/// Whether a load is among nodes.
fn has_load(terms: &Terms, nodes: &[TermId]) -> bool
    requires { AreNodes terms.now nodes.now }
    ensures { result ≡ list_any is_load (terms_at terms.now nodes.now) }
{
    for at in nodes {
        if is_load(terms, *at) {
            return true;
        }
    }
    false
}

/// Whether no pointer depends on what is loaded.
pub(crate) fn are_plain(
    alloc: Global,
    terms: &Terms,
    accesses: &[Access],
) -> Result<bool, AllocError>
    requires { All (λ a. a.pointer.0 < length terms.now.nodes) accesses.now }
    ensures { IfOk result (λ plain. plain ≡ list_all (λ (a : ℕ × Term). not (list_any is_load (subterms a.1)))
        (accesses_by terms.now accesses.now)) }
{
    let _size = terms.len();
    let pointers = pointers(alloc, accesses)?;
    let nodes = terms.subterms(alloc, pointers.as_slice())?;
    Ok(!has_load(terms, nodes.as_slice()))
}

/// Whether two accesses are of as many bytes at the same pointer.
fn is_same_access(terms: &Terms, first: Access, second: Access) -> bool
    requires first_in { first.pointer.0 < length terms.now.nodes }
    requires second_in { second.pointer.0 < length terms.now.nodes }
    ensures { result ≡ same_access (access_by terms.now first) (access_by terms.now second) }
{
    first.bytes == second.bytes && is_same(terms, first.pointer, second.pointer)
}

/// Whether an access is among others.
fn is_repeated(terms: &Terms, access: Access, others: &[Access]) -> bool
    requires access_in { access.pointer.0 < length terms.now.nodes }
    requires others_in { All (λ a. a.pointer.0 < length terms.now.nodes) others.now }
    ensures { result ≡ list_any (same_access (access_by terms.now access)) (accesses_by terms.now others.now) }
{
    for other in others {
        if is_same_access(terms, access, *other) {
            return true;
        }
    }
    false
}

/// The bytes of the first access, where it does not come again.
fn first_bytes(terms: &Terms, accesses: &[Access]) -> u8
    requires there { 0 < length accesses.now }
    requires within { All (λ a. a.pointer.0 < length terms.now.nodes) accesses.now }
    ensures { sum_by (λ (a : ℕ × Term). a.0) (each_once same_access (accesses_by terms.now accesses.now))
        ≡ result
        + sum_by (λ (a : ℕ × Term). a.0) (each_once same_access (accesses_by terms.now (drop 1 accesses.now))) }
{
    if is_repeated(terms, accesses[0], &accesses[1..]) {
        return 0;
    }
    accesses[0].bytes
}

/// The bytes of the different accesses, together.
pub(crate) fn accessed_bytes(terms: &Terms, accesses: &[Access]) -> u64
    requires within { All (λ a. a.pointer.0 < length terms.now.nodes) accesses.now }
    requires few { length accesses.now ≤ 256 }
    ensures { result ≡ sum_by (λ (a : ℕ × Term). a.0) (each_once same_access (accesses_by terms.now accesses.now)) }
{
    let mut total: u64 = 0;
    for place in 0..accesses.len() {
        total += u64::from(first_bytes(terms, &accesses[place..]));
    }
    total
}
