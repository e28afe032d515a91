//! The terms of the sources of each line: of each operation's results there, and of the line's.

ghost use Rattle.std.specs.Prelude.{◌≡◌, ℕ, ◌<◌, ◌≤◌, ◌++◌, ◌↔◌, List, [], length, map, All, Contains, IfOk, OnOk};
ghost use Rattle.std.specs.Prelude.{slice_get, Some, fold, position};
ghost use Rattle.bv_terms.specs.declared.op.TermId.{TermId};
ghost use Rattle.bv_terms.specs.Table.{term_at, Extends, IsTable};
ghost use Rattle.isel_spec.specs.Spec.{file};
ghost use Rattle.isel_spec.specs.File.{Operation};
ghost use Rattle.loc_encode.specs.Lines.{sourced, IsPlain, AreIn, AreIds, arg_terms, attr_terms, result_kinds};
ghost use Rattle.loc_encode.specs.Lines.{op_kinds, of_kind, line_kinds, is_named, with_kind, with_line, IsPlainOp};
ghost use Rattle.loc_encode.specs.Making.{CanGraft, IsKindIn, AreKindsIn, ArePlainOps};

use crate::building::{choice, input};
use crate::slots::Slot;
use crate::taking::{Named, Taker, taken_term};
use bv_terms::{Sort, TermId, Terms};
use isel_spec::{OpDef, Spec};
use pattern_core::Src;
use std::alloc::{AllocError, Global};

/// A result of an operation, its sort, and its term at a line.
#[derive(Clone, Copy, Debug)]
pub(crate) struct Kinded {
    pub(crate) op: u16,
    pub(crate) result: u8,
    pub(crate) sort: Sort,
    pub(crate) term: TermId,
}

/// The operations, each once.
pub(crate) fn kinds_of(alloc: Global, ops: &[u16]) -> Result<Vec<u16>, AllocError>
    ensures { IfOk result (λ kinds. (op : ℕ) → Contains kinds.items op ↔ Contains ops.now op) }
{
    let mut kinds = Vec::with_capacity(alloc, ops.len())?;
    for op in ops {
        if !kinds.contains(op) {
            kinds.push(*op)?;
        }
    }
    Ok(kinds)
}

/// The terms of an operation's arguments at a line.
fn arg_terms(
    alloc: Global,
    line: u8,
    sorts: &[Sort],
    sources: &[Named],
    terms: &mut Terms,
) -> Result<Vec<TermId>, AllocError>
    requires table { IsTable terms.old }
    requires sources { AreIn terms.old sources.now }
    requires few { length sorts.now ≤ 4 }
    requires plain { All IsPlain sorts.now }
    ensures terms { IfOk result (λ ids. map (term_at terms.new) ids.items
        ≡ arg_terms line (map (sourced terms.old) sources.now) 0 sorts.now) }
    ensures there { IfOk result (λ ids. AreIds terms.new ids.items) }
    ensures extends { Extends terms.old terms.new }
    ensures table { IsTable terms.new }
{
    let mut ids = Vec::new(alloc);
    for place in 0..sorts.len() {
        let taker = Taker::Arg {
            line,
            place: place as u8,
        };
        let id = taken_term(terms, taker, sorts[place], sources)?;
        ids.push(id)?;
    }
    Ok(ids)
}

/// Adds the terms of an operation's attributes at a line.
fn add_attr_terms(
    line: u8,
    op: u16,
    widths: &[u8],
    terms: &mut Terms,
    ids: &mut Vec<TermId>,
) -> Result<(), AllocError>
    requires table { IsTable terms.old }
    requires few { length widths.now ≤ 2 }
    requires wide { All (λ w. 1 ≤ w) widths.now }
    requires narrow { All (λ w. w ≤ 64) widths.now }
    requires there { AreIds terms.old ids.old.items }
    ensures terms { OnOk result (map (term_at terms.new) ids.new.items
        ≡ map (term_at terms.old) ids.old.items ++ attr_terms line op 0 widths.now) }
    ensures there { OnOk result (AreIds terms.new ids.new.items) }
    ensures extends { Extends terms.old terms.new }
    ensures table { IsTable terms.new }
{
    for place in 0..widths.len() {
        let slot = Slot::Attr {
            line,
            op,
            place: place as u8,
        };
        let id = input(terms, slot, Sort::Bits(widths[place]))?;
        ids.push(id)?;
    }
    Ok(())
}

/// Adds an operation's results at these terms of its arguments and attributes.
fn add_results(
    alloc: Global,
    from: &Terms,
    op: u16,
    results: &[TermId],
    inputs: &[TermId],
    terms: &mut Terms,
    kinds: &mut Vec<Kinded>,
) -> Result<(), AllocError>
    requires table { IsTable terms.old }
    requires can { CanGraft terms.old from.now results.now inputs.now }
    requires kinds { AreKindsIn terms.old kinds.old.items }
    ensures kinds { OnOk result (map (of_kind terms.new) kinds.new.items ≡ map (of_kind terms.old) kinds.old.items
        ++ result_kinds terms.old.pointer op (map (term_at terms.old) inputs.now) 0
        (map (term_at from.now) results.now)) }
    ensures there { OnOk result (AreKindsIn terms.new kinds.new.items) }
    ensures extends { Extends terms.old terms.new }
    ensures table { IsTable terms.new }
{
    for place in 0..results.len() {
        let at = results[place];
        let sort = from.sort(at);
        let term = terms.graft(alloc, from, at, inputs)?;
        kinds.push(Kinded {
            op,
            result: place as u8,
            sort,
            term,
        })?;
    }
    Ok(())
}

/// Adds the results of an operation at a line.
fn add_op(
    alloc: Global,
    spec: &Spec,
    line: u8,
    op: u16,
    sources: &[Named],
    terms: &mut Terms,
    kinds: &mut Vec<Kinded>,
) -> Result<(), AllocError>
    requires table { IsTable terms.old }
    requires pointer { terms.old.pointer ≡ spec.now.pointer }
    requires there { op < length spec.now.ops }
    requires plain { (o : Operation) → slice_get (file spec.now).ops op ≡ Some o → IsPlainOp o }
    requires sources { AreIn terms.old sources.now }
    requires kinds { AreKindsIn terms.old kinds.old.items }
    ensures kinds { OnOk result (map (of_kind terms.new) kinds.new.items ≡ map (of_kind terms.old) kinds.old.items
        ++ op_kinds spec.now.pointer line (map (sourced terms.old) sources.now) op (slice_get (file spec.now).ops op)) }
    ensures there { OnOk result (AreKindsIn terms.new kinds.new.items) }
    ensures extends { Extends terms.old terms.new }
    ensures table { IsTable terms.new }
{
    // What is ensured of the number of nodes says that the file's terms are a table.
    let _ = spec.terms.len();
    let definition = spec.op(usize::from(op));
    let sorts = definition.args.as_slice();
    let mut inputs = arg_terms(alloc, line, sorts, sources, terms)?;
    let widths = definition.attrs.as_slice();
    add_attr_terms(line, op, widths, terms, &mut inputs)?;
    let results = definition.results.as_slice();
    add_results(alloc, &spec.terms, op, results, &inputs, terms, kinds)
}

/// The results of these operations at a line.
fn line_kinds(
    alloc: Global,
    spec: &Spec,
    ops: &[u16],
    line: u8,
    sources: &[Named],
    terms: &mut Terms,
) -> Result<Vec<Kinded>, AllocError>
    requires table { IsTable terms.old }
    requires pointer { terms.old.pointer ≡ spec.now.pointer }
    requires ops { ArePlainOps spec.now ops.now }
    requires sources { AreIn terms.old sources.now }
    ensures kinds { IfOk result (λ kinds. map (of_kind terms.new) kinds.items
        ≡ line_kinds (file spec.now) line (map (sourced terms.old) sources.now) ops.now) }
    ensures there { IfOk result (λ kinds. AreKindsIn terms.new kinds.items) }
    ensures extends { Extends terms.old terms.new }
    ensures table { IsTable terms.new }
{
    let mut kinds = Vec::new(alloc);
    for op in ops {
        add_op(alloc, spec, line, *op, sources, terms, &mut kinds)?;
    }
    Ok(kinds)
}

/// Whether a source is this result of a line, of its sort.
fn is_named(line: u8, kind: &Kinded, named: &Named) -> bool
    ensures { result ≡ is_named line kind.now named.now }
{
    let Src::Out { node, result } = named.source else {
        return false;
    };
    node == line && result == kind.result && named.sort.is_same(kind.sort)
}

/// The place of a result of a line, of its sort, among the sources.
fn place_of(line: u8, kind: &Kinded, found: &[Named]) -> Option<usize>
    ensures { result ≡ position (is_named line kind.now) found.now }
{
    found.iter().position(|named| is_named(line, kind, named))
}

/// Adds a kind of a line to its sources.
fn add_kind(
    terms: &mut Terms,
    line: u8,
    kind: Kinded,
    found: &mut Vec<Named>,
) -> Result<(), AllocError>
    requires table { IsTable terms.old }
    requires kind { IsKindIn terms.old kind }
    requires found { AreIn terms.old found.old.items }
    ensures found { OnOk result (map (sourced terms.new) found.new.items
        ≡ with_kind line (map (sourced terms.old) found.old.items) (of_kind terms.old kind)) }
    ensures there { OnOk result (AreIn terms.new found.new.items) }
    ensures extends { Extends terms.old terms.new }
    ensures table { IsTable terms.new }
{
    let Some(place) = place_of(line, &kind, found.as_slice()) else {
        found.push(Named {
            source: Src::Out {
                node: line,
                result: kind.result,
            },
            sort: kind.sort,
            term: kind.term,
        })?;
        return Ok(());
    };
    let named = found[place];
    let slot = Slot::Kind { line, op: kind.op };
    let term = choice(terms, slot, kind.term, named.term)?;
    found[place] = Named {
        source: named.source,
        sort: named.sort,
        term,
    };
    Ok(())
}

/// The sources of a line, of these kinds.
fn line_sources(
    alloc: Global,
    line: u8,
    kinds: &[Kinded],
    terms: &mut Terms,
) -> Result<Vec<Named>, AllocError>
    requires table { IsTable terms.old }
    requires kinds { AreKindsIn terms.old kinds.now }
    ensures sources { IfOk result (λ found. map (sourced terms.new) found.items
        ≡ fold (with_kind line) [] (map (of_kind terms.old) kinds.now)) }
    ensures there { IfOk result (λ found. AreIn terms.new found.items) }
    ensures extends { Extends terms.old terms.new }
    ensures table { IsTable terms.new }
{
    let mut found = Vec::new(alloc);
    for kind in kinds {
        add_kind(terms, line, *kind, &mut found)?;
    }
    Ok(found)
}

/// Adds the sources of a line at which one of these operations stands.
pub(crate) fn add_line(
    alloc: Global,
    spec: &Spec,
    ops: &[u16],
    line: u8,
    sources: &mut Vec<Named>,
    terms: &mut Terms,
) -> Result<(), AllocError>
    requires table { IsTable terms.old }
    requires pointer { terms.old.pointer ≡ spec.now.pointer }
    requires ops { ArePlainOps spec.now ops.now }
    requires sources { AreIn terms.old sources.old.items }
    ensures sources { OnOk result (map (sourced terms.new) sources.new.items
        ≡ with_line (file spec.now) ops.now (map (sourced terms.old) sources.old.items) line) }
    ensures there { OnOk result (AreIn terms.new sources.new.items) }
    ensures extends { Extends terms.old terms.new }
    ensures table { IsTable terms.new }
{
    let kinds = line_kinds(alloc, spec, ops, line, sources.as_slice(), terms)?;
    let mut found = line_sources(alloc, line, &kinds, terms)?;
    sources.append(&mut found)
}
