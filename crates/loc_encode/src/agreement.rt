//! The agreement: the term that is true, of values that stand for a pattern, exactly where the pattern gives the
//! goal's results at an example.
//!
//! Lines come in order. The value of a result of a line is a chain of choices between the operations that may stand
//! there, each at its arguments, and an argument is a chain of choices between the sources before the line. The inputs
//! and the goal's results are constants.

ghost use Rattle.std.specs.Prelude.{◌≡◌, ◌<◌, ◌≤◌, true, Some, length, map, All, IfOk};
ghost use Rattle.bv_terms.specs.declared.op.TermId.{TermId};
ghost use Rattle.bv_terms.specs.declared.value.Value.{Value};
ghost use Rattle.bv_terms.specs.Sorts.{HaveSorts};
ghost use Rattle.bv_terms.specs.WellSorted.{sort_of};
ghost use Rattle.bv_terms.specs.Table.{term_at, Extends, IsTable};
ghost use Rattle.isel_spec.specs.File.{sorts_in};
ghost use Rattle.pattern_core.specs.Claim.{Claim, IsClaim};
ghost use Rattle.pattern_core.specs.Pattern.{Pairwise};
ghost use Rattle.loc_encode.specs.Building.{constant_term};
ghost use Rattle.loc_encode.specs.Lines.{sourced, IsPlain, AreIn, input_sources, compared_term, all_equal};
ghost use Rattle.loc_encode.specs.Making.{IsResultIn};
ghost use Rattle.loc_encode.specs.Given.{IsGiven, IsExampleFor};
ghost use Rattle.loc_encode.specs.Parts.{IsAgreement};
ghost use Rattle.loc_encode.specs.Meaning.{AreMeant};

use crate::building::{both, constant, equal};
use crate::lines::{add_line, kinds_of};
use crate::taking::{Named, Taker, taken_term};
use bv_terms::{Sort, TermId, Terms, Value};
use isel_spec::{Kind, Spec};
use multiset_rank::Multi;
use pattern_core::{Example, Src, eval_goal};
use std::alloc::{AllocError, Global};

/// The inputs of the goal, as sources.
fn input_sources(
    alloc: Global,
    args: &[(Kind, Sort)],
    inputs: &[Value],
    terms: &mut Terms,
) -> Result<Vec<Named>, AllocError>
    requires table { IsTable terms.old }
    requires few { length args.now ≤ 4 }
    requires sorted { HaveSorts (sorts_in args.now) inputs.now }
    requires plain { All IsPlain (sorts_in args.now) }
    ensures sources { IfOk result (λ sources. map (sourced terms.new) sources.items
        ≡ input_sources 0 (sorts_in args.now) inputs.now) }
    ensures there { IfOk result (λ sources. AreIn terms.new sources.items) }
    ensures extends { Extends terms.old terms.new }
    ensures table { IsTable terms.new }
{
    let mut sources = Vec::new(alloc);
    for place in 0..args.len() {
        let (_, sort) = args[place];
        let term = constant(terms, inputs[place])?;
        sources.push(Named {
            source: Src::Input(place as u8),
            sort,
            term,
        })?;
    }
    Ok(sources)
}

/// Whether what was there holds, and a result, which takes one of these sources, has this value.
fn compared(
    from: &Terms,
    at: TermId,
    value: Value,
    place: u8,
    sources: &[Named],
    so_far: TermId,
    terms: &mut Terms,
) -> Result<TermId, AllocError>
    requires table { IsTable terms.old }
    requires pointer { terms.old.pointer ≡ from.now.pointer }
    requires result { IsResultIn from.now at value }
    requires sources { AreIn terms.old sources.now }
    requires there { so_far.0 < length terms.old.nodes }
    requires truth { sort_of terms.old.pointer (term_at terms.old so_far) ≡ Some Sort.Bool }
    ensures term { IfOk result (λ id. term_at terms.new id ≡ compared_term from.now.pointer
        (map (sourced terms.old) sources.now) (term_at terms.old so_far) place (term_at from.now at) value) }
    ensures truth { IfOk result (λ id. sort_of terms.new.pointer (term_at terms.new id) ≡ Some Sort.Bool) }
    ensures within { IfOk result (λ id. id.0 < length terms.new.nodes) }
    ensures extends { Extends terms.old terms.new }
    ensures table { IsTable terms.new }
{
    let sort = from.sort(at);
    let taken = taken_term(terms, Taker::Result { place }, sort, sources)?;
    let wanted = constant(terms, value)?;
    let same = equal(terms, taken, wanted)?;
    both(terms, so_far, same)
}

/// Whether the results, which take these sources, have these values.
fn all_equal(
    from: &Terms,
    results: &[TermId],
    values: &[Value],
    sources: &[Named],
    terms: &mut Terms,
) -> Result<TermId, AllocError>
    requires table { IsTable terms.old }
    requires pointer { terms.old.pointer ≡ from.now.pointer }
    requires few { length results.now ≤ 3 }
    requires results { Pairwise (IsResultIn from.now) results.now values.now }
    requires sources { AreIn terms.old sources.now }
    ensures term { IfOk result (λ id. term_at terms.new id
        ≡ all_equal from.now.pointer (map (sourced terms.old) sources.now) (constant_term (Value.Bool true)) 0
        (map (term_at from.now) results.now) values.now) }
    ensures truth { IfOk result (λ id. sort_of terms.new.pointer (term_at terms.new id) ≡ Some Sort.Bool) }
    ensures within { IfOk result (λ id. id.0 < length terms.new.nodes) }
    ensures extends { Extends terms.old terms.new }
    ensures table { IsTable terms.new }
{
    let mut so_far = constant(terms, Value::Bool(true))?;
    for place in 0..results.len() {
        so_far = compared(
            from,
            results[place],
            values[place],
            place as u8,
            sources,
            so_far,
            terms,
        )?;
    }
    Ok(so_far)
}

/// The sources of the goal with these operations at an example: its inputs, and the results of each line.
fn all_sources(
    alloc: Global,
    spec: &Spec,
    goal: u32,
    ops: &[u16],
    inputs: &[Value],
    terms: &mut Terms,
) -> Result<Vec<Named>, AllocError>
    requires table { IsTable terms.old }
    requires given { IsGiven spec.now goal ops.now }
    requires few { length ops.now ≤ 6 }
    requires pointer { terms.old.pointer ≡ spec.now.pointer }
    requires inputs { (c : Claim) → IsClaim spec.now goal ops.now c → HaveSorts c.goal.args inputs.now }
    ensures meant { (c : Claim) → IsClaim spec.now goal ops.now c → IfOk result (λ sources.
        AreMeant c inputs.now (length c.ops) (map (sourced terms.new) sources.items)) }
    ensures there { IfOk result (λ sources. AreIn terms.new sources.items) }
    ensures extends { Extends terms.old terms.new }
    ensures table { IsTable terms.new }
{
    // What is ensured of the number of nodes says that the file's terms are a table.
    let _ = spec.terms.len();
    let kinds = kinds_of(alloc, ops)?;
    let definition = spec.goal(goal);
    let args = definition.args.as_slice();
    let mut sources = input_sources(alloc, args, inputs, terms)?;
    for line in 0..ops.len() {
        add_line(alloc, spec, &kinds, line as u8, &mut sources, terms)?;
    }
    Ok(sources)
}

/// The term that is true, of values that stand for a pattern of the goal with these operations, exactly where the
/// pattern gives the goal's results at the example. An `Err` is out of memory; nodes may have been added then.
pub(crate) fn agreement(
    alloc: Global,
    spec: &Spec,
    goal: u32,
    multi: &Multi,
    example: &Example,
    terms: &mut Terms,
) -> Result<TermId, AllocError>
    requires given { IsGiven spec.now goal multi.now }
    requires pointer { terms.old.pointer ≡ spec.now.pointer }
    requires example { IsExampleFor spec.now goal multi.now example.now }
    ensures agreement { (c : Claim) → IsClaim spec.now goal multi.now c
        → IfOk result (IsAgreement c example.now.inputs terms.new) }
    ensures extends { Extends terms.old terms.new }
{
    // What is ensured of the numbers of nodes says that both are tables.
    let _ = (terms.len(), spec.terms.len());
    let inputs = example.inputs.as_slice();
    let sources = all_sources(alloc, spec, goal, multi.ops(), inputs, terms)?;
    let values = eval_goal(alloc, spec, goal, inputs)?;
    let definition = spec.goal(goal);
    let results = definition.results.as_slice();
    all_equal(&spec.terms, results, &values, &sources, terms)
}
