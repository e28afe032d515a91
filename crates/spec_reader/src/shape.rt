//! The rule that the memory of a definition is one chain on which each load is marked, over the nodes of a table.

ghost use Rattle.std.specs.Prelude.{◌≡◌, ◌<◌, ◌++◌, [], ◌∷◌, All, OnOk, IfOk, IfSome, MatchOption};
ghost use Rattle.std.specs.Prelude.{length, map, filter};
ghost use Rattle.std.specs.List.{list_all, list_any};
ghost use Rattle.bv_terms.specs.declared.op.Op.TheVariants as op;
ghost use Rattle.bv_terms.specs.declared.value.Sort.TheVariants as sort;
ghost use Rattle.bv_terms.specs.Sorts.{same_sort};
ghost use Rattle.bv_terms.specs.Subterm.{AreSubterms};
ghost use Rattle.bv_terms.specs.Table.{operands, terms_of, term_at};
ghost use Rattle.bv_terms.specs.Term.{Apply};
ghost use Rattle.isel_spec.specs.Memory.{same_term, gives_memory, is_memory, chain, chains, has_one_memory, is_on};
ghost use Rattle.isel_spec.specs.Memory.{marks, is_marked, has_memory_shape};
ghost use Rattle.term_text.specs.Build.{AreNodes, terms_at};

use crate::form::Param;
use bv_terms::{Op, Sort, TermId, Terms};
use std::alloc::{AllocError, Global};

/// The operation of a node and its arguments.
pub(crate) fn node<'a>(terms: &'a Terms, at: TermId) -> (&'a Op, &'a [TermId])
    requires { at.0 < length terms.now.nodes }
    ensures term { term_at terms.now at ≡ Apply result.0.now (operands (terms_of terms.now) result.1.now) }
    ensures earlier { All (λ a. a.0 < at.0) result.1.now }
    ensures within { AreNodes terms.now result.1.now }
{
    let _size = terms.len();
    terms.node(at)
}

/// Whether two nodes have the same term.
pub(crate) fn is_same(terms: &Terms, first: TermId, second: TermId) -> bool
    requires first_in { first.0 < length terms.now.nodes }
    requires second_in { second.0 < length terms.now.nodes }
    ensures { result ≡ same_term (term_at terms.now first) (term_at terms.now second) }
{
    let _size = terms.len();
    first.0 == second.0
}

fn gives_memory(op: Op) -> bool
    ensures { result ≡ gives_memory op }
{
    match op {
        Op::Input { sort, .. } => sort == Sort::Mem,
        Op::MMark { .. } | Op::MStore { .. } => true,
        _ => false,
    }
}

/// Whether the term of a node is a memory.
fn is_memory(terms: &Terms, at: TermId) -> bool
    requires { at.0 < length terms.now.nodes }
    ensures { result ≡ is_memory (term_at terms.now at) }
{
    let (op, _) = node(terms, at);
    gives_memory(*op)
}

/// How many arguments are memories.
fn memories_taken(args: &[Param]) -> usize
    ensures { result ≡ length (filter (same_sort sort.Mem) (map (λ p. p.sort) args.now)) }
{
    let mut taken = 0;
    for param in args {
        taken += usize::from(param.sort == Sort::Mem);
    }
    taken
}

/// How many results are memories.
fn memories_given(terms: &Terms, results: &[TermId]) -> usize
    requires { AreNodes terms.now results.now }
    ensures { result ≡ length (filter is_memory (terms_at terms.now results.now)) }
{
    let mut given = 0;
    for at in results {
        given += usize::from(is_memory(terms, *at));
    }
    given
}

fn has_one_memory(terms: &Terms, args: &[Param], results: &[TermId]) -> bool
    requires { AreNodes terms.now results.now }
    ensures { result ≡ has_one_memory (map (λ p. p.sort) args.now) (terms_at terms.now results.now) }
{
    let taken = memories_taken(args);
    taken == memories_given(terms, results) && taken <= 1
}

/// The memory that a node's is made from.
fn made_from(terms: &Terms, at: TermId) -> Option<TermId>
    requires { at.0 < length terms.now.nodes }
    ensures chain { MatchOption result (chain (term_at terms.now at) ≡ term_at terms.now at ∷ [])
        (λ m. chain (term_at terms.now at) ≡ term_at terms.now at ∷ chain (term_at terms.now m)) }
    ensures earlier { IfSome result (λ m. m.0 < at.0) }
{
    let (_, args) = node(terms, at);
    match *args {
        [] => None,
        [first, ..] => Some(first),
    }
}

/// Adds the nodes of a memory's chain.
fn add_chain(terms: &Terms, from: TermId, nodes: &mut Vec<TermId>) -> Result<(), AllocError>
    requires from_in { from.0 < length terms.now.nodes }
    requires nodes_in { AreNodes terms.now nodes.old.items }
    ensures chain { OnOk result (terms_at terms.now nodes.new.items
        ≡ terms_at terms.now nodes.old.items ++ chain (term_at terms.now from)) }
    ensures within { OnOk result (AreNodes terms.now nodes.new.items) }
{
    let mut at = from;
    while let Some(memory) = made_from(terms, at) {
        nodes.push(at)?;
        at = memory;
    }
    nodes.push(at)?;
    Ok(())
}

/// Adds the nodes of the chain of a result that is a memory.
fn add_if_memory(terms: &Terms, at: TermId, nodes: &mut Vec<TermId>) -> Result<(), AllocError>
    requires at_in { at.0 < length terms.now.nodes }
    requires nodes_in { AreNodes terms.now nodes.old.items }
    ensures chain { OnOk result (terms_at terms.now nodes.new.items
        ≡ terms_at terms.now nodes.old.items ++ chains (term_at terms.now at ∷ [])) }
    ensures within { OnOk result (AreNodes terms.now nodes.new.items) }
{
    if is_memory(terms, at) {
        return add_chain(terms, at, nodes);
    }
    Ok(())
}

/// The nodes of the chains of the results that are memories.
fn chains(alloc: Global, terms: &Terms, results: &[TermId]) -> Result<Vec<TermId>, AllocError>
    requires { AreNodes terms.now results.now }
    ensures chains { IfOk result (λ nodes. terms_at terms.now nodes.items ≡ chains (terms_at terms.now results.now)) }
    ensures within { IfOk result (λ nodes. AreNodes terms.now nodes.items) }
{
    let mut nodes = Vec::new(alloc);
    for at in results {
        add_if_memory(terms, *at, &mut nodes)?;
    }
    Ok(nodes)
}

/// Whether a node's term stands among those of others.
fn is_among(terms: &Terms, at: TermId, nodes: &[TermId]) -> bool
    requires at_in { at.0 < length terms.now.nodes }
    requires nodes_in { AreNodes terms.now nodes.now }
    ensures { result ≡ list_any (same_term (term_at terms.now at)) (terms_at terms.now nodes.now) }
{
    for node in nodes {
        if is_same(terms, at, *node) {
            return true;
        }
    }
    false
}

/// Whether a node stands on the chain, if it is a memory.
fn is_on(terms: &Terms, memories: &[TermId], at: TermId) -> bool
    requires memories_in { AreNodes terms.now memories.now }
    requires at_in { at.0 < length terms.now.nodes }
    ensures { result ≡ is_on (terms_at terms.now memories.now) (term_at terms.now at) }
{
    if is_memory(terms, at) {
        return is_among(terms, at, memories);
    }
    true
}

fn all_on(terms: &Terms, memories: &[TermId], nodes: &[TermId]) -> bool
    requires memories_in { AreNodes terms.now memories.now }
    requires nodes_in { AreNodes terms.now nodes.now }
    ensures { result ≡ list_all (is_on (terms_at terms.now memories.now)) (terms_at terms.now nodes.now) }
{
    for at in nodes {
        if !is_on(terms, memories, *at) {
            return false;
        }
    }
    true
}

/// Whether a mark over these arguments is one of so many bytes at a pointer.
fn marks_at(terms: &Terms, bytes: u8, pointer: TermId, marked: u8, args: &[TermId]) -> bool
    requires pointer_in { pointer.0 < length terms.now.nodes }
    requires args_in { AreNodes terms.now args.now }
    ensures { result ≡ marks bytes (term_at terms.now pointer)
        (Apply (op.MMark marked) (operands (terms_of terms.now) args.now)) }
{
    if args.len() != 2 {
        return false;
    }
    marked == bytes && is_same(terms, args[1], pointer)
}

/// Whether a node is a mark of so many bytes at a pointer.
fn marks(terms: &Terms, bytes: u8, pointer: TermId, at: TermId) -> bool
    requires pointer_in { pointer.0 < length terms.now.nodes }
    requires at_in { at.0 < length terms.now.nodes }
    ensures { result ≡ marks bytes (term_at terms.now pointer) (term_at terms.now at) }
{
    let (op, args) = node(terms, at);
    match *op {
        Op::MMark { bytes: marked } => marks_at(terms, bytes, pointer, marked, args),
        _ => false,
    }
}

/// Whether a mark of so many bytes at a pointer is among nodes.
fn has_mark(terms: &Terms, memories: &[TermId], bytes: u8, pointer: TermId) -> bool
    requires memories_in { AreNodes terms.now memories.now }
    requires pointer_in { pointer.0 < length terms.now.nodes }
    ensures { result ≡ list_any (marks bytes (term_at terms.now pointer)) (terms_at terms.now memories.now) }
{
    for at in memories {
        if marks(terms, bytes, pointer, *at) {
            return true;
        }
    }
    false
}

/// Whether a load over these arguments is marked on the chain.
fn is_read_marked(terms: &Terms, memories: &[TermId], bytes: u8, args: &[TermId]) -> bool
    requires memories_in { AreNodes terms.now memories.now }
    requires args_in { AreNodes terms.now args.now }
    ensures { result ≡ is_marked (terms_at terms.now memories.now)
        (Apply (op.MLoad bytes) (operands (terms_of terms.now) args.now)) }
{
    if args.len() != 2 {
        return true;
    }
    has_mark(terms, memories, bytes, args[1])
}

/// Whether a node is marked on the chain, if it is a load.
fn is_marked(terms: &Terms, memories: &[TermId], at: TermId) -> bool
    requires memories_in { AreNodes terms.now memories.now }
    requires at_in { at.0 < length terms.now.nodes }
    ensures { result ≡ is_marked (terms_at terms.now memories.now) (term_at terms.now at) }
{
    let (op, args) = node(terms, at);
    match *op {
        Op::MLoad { bytes } => is_read_marked(terms, memories, bytes, args),
        _ => true,
    }
}

fn all_marked(terms: &Terms, memories: &[TermId], nodes: &[TermId]) -> bool
    requires memories_in { AreNodes terms.now memories.now }
    requires nodes_in { AreNodes terms.now nodes.now }
    ensures { result ≡ list_all (is_marked (terms_at terms.now memories.now)) (terms_at terms.now nodes.now) }
{
    for at in nodes {
        if !is_marked(terms, memories, *at) {
            return false;
        }
    }
    true
}

/// Whether the memory of a definition is one chain, on which each load is marked. The nodes are those of the results'
/// subterms.
pub(crate) fn has_memory_shape(
    alloc: Global,
    terms: &Terms,
    args: &[Param],
    results: &[TermId],
    nodes: &[TermId],
) -> Result<bool, AllocError>
    requires results_in { AreNodes terms.now results.now }
    requires nodes { AreSubterms terms.now results.now nodes.now }
    ensures { IfOk result (λ has. has
        ≡ has_memory_shape (map (λ p. p.sort) args.now) (terms_at terms.now results.now)) }
{
    let _size = terms.len();
    if !has_one_memory(terms, args, results) {
        return Ok(false);
    }
    let memories = chains(alloc, terms, results)?;
    let memories = memories.as_slice();
    if !all_on(terms, memories, nodes) {
        return Ok(false);
    }
    Ok(all_marked(terms, memories, nodes))
}
