//! Whether a pattern is a rule of its goal: a solver is asked for inputs at which they differ. Where its fuel runs out,
//! and there were as many units as the goal has inputs, all inputs are tried one by one.

ghost use Rattle.std.specs.Prelude.{◌≡◌, ◌≤◌, ◌<◌, ◌^◌, ◌∷◌, [], ℕ, List, length, sum_by, slice_get, Some, IfOk};
ghost use Rattle.bv_terms.specs.Sorts.{width_of};
ghost use Rattle.isel_spec.specs.File.{Goal};
ghost use Rattle.isel_spec.specs.Spec.{file};
ghost use Rattle.pattern_core.specs.Claim.{Claim, IsClaim};
ghost use Rattle.pattern_core.specs.Evaluation.{AreGoalNodes, IsEvaluationOf};
ghost use Rattle.pattern_core.specs.Pattern.{IsWellFormed};
ghost use Rattle.pattern_core.specs.Rule.{TakesNoMemory};
ghost use Rattle.cegis_loop.specs.Answer.{IsCall, IsAnswer, IsAsked, IsFoundAt, IsFoundAmongAll};

use crate::answer::{Confirm, Tried};
use crate::inputs::{count_of, numbered};
use crate::miter::{miter, sorts_of};
use crate::trial::has_results;
use bv_query::{Decision, decide};
use bv_terms::{Sort, TermId, Terms};
use cnf_core::Fuel;
use collections::Seq;
use isel_spec::Spec;
use pattern_core::{Evaluation, Example, Pattern, goal_nodes, rules_are_plain};
use std::alloc::{AllocError, Global};

/// Asks the solver for inputs at which the pattern differs from the goal, whose arguments have these sorts.
fn asked(
    alloc: Global,
    spec: &Spec,
    goal: u32,
    pattern: &Pattern,
    sorts: &[Sort],
    fuel: &mut Fuel,
) -> Result<Decision, AllocError>
    requires there { goal < length spec.now.goals }
    requires sorts { (g : Goal) → slice_get (file spec.now).goals goal ≡ Some g → sorts.now ≡ g.args }
    requires few { length sorts.now ≤ 4 }
    requires well_formed { (g : Goal) → slice_get (file spec.now).goals goal ≡ Some g
        → IsWellFormed (file spec.now) g pattern.now }
    requires plain { (g : Goal) → slice_get (file spec.now).goals goal ≡ Some g → TakesNoMemory g }
    ensures fuel { fuel.new ≤ fuel.old }
    ensures answer { IfOk result (λ d. (c : Claim) (ops : List ℕ) → IsClaim spec.now goal ops c
        → IsAsked c pattern.now fuel.old fuel.new d) }
{
    rules_are_plain(spec, goal);
    // That the terms make a table, and how wide a pointer is, is known by this call.
    let _count = spec.terms.len();
    let mut terms = Terms::new(alloc, spec.terms.pointer());
    let formula = miter(alloc, spec, goal, pattern, sorts, &mut terms)?;
    decide(alloc, &terms, formula, fuel)
}

/// The inputs under a number, where the pattern differs from the goal there.
fn difference_at(
    alloc: Global,
    spec: &Spec,
    goal: u32,
    evaluation: &mut Evaluation,
    nodes: &[TermId],
    sorts: &[Sort],
    pattern: &Pattern,
    number: u64,
) -> Result<Option<Example>, AllocError>
    requires evaluation { IsEvaluationOf spec.now evaluation.old }
    requires there { goal < length spec.now.goals }
    requires nodes { AreGoalNodes spec.now goal nodes.now }
    requires sorts { (g : Goal) → slice_get (file spec.now).goals goal ≡ Some g → sorts.now ≡ g.args }
    requires few { sum_by width_of sorts.now < 64 }
    requires well_formed { (g : Goal) → slice_get (file spec.now).goals goal ≡ Some g
        → IsWellFormed (file spec.now) g pattern.now }
    requires plain { (g : Goal) → slice_get (file spec.now).goals goal ≡ Some g → TakesNoMemory g }
    ensures evaluation { IsEvaluationOf spec.now evaluation.new }
    ensures found { IfOk result (λ found. (g : Goal) → slice_get (file spec.now).goals goal ≡ Some g
        → IsFoundAt (file spec.now) g pattern.now number found) }
{
    let inputs = numbered(alloc, sorts, number)?;
    let values = inputs.as_slice();
    let wanted = evaluation.goal_results(alloc, spec, goal, nodes, values)?;
    if has_results(alloc, spec, goal, evaluation, pattern, values, &wanted)? {
        return Ok(None);
    }
    Ok(Some(Example { inputs }))
}

/// The first inputs at which the pattern differs from the goal, of all, which are so many.
fn first_of_all(
    alloc: Global,
    spec: &Spec,
    goal: u32,
    pattern: &Pattern,
    sorts: &[Sort],
    count: u64,
) -> Result<Option<Example>, AllocError>
    requires there { goal < length spec.now.goals }
    requires sorts { (g : Goal) → slice_get (file spec.now).goals goal ≡ Some g → sorts.now ≡ g.args }
    requires few { sum_by width_of sorts.now < 64 }
    requires count { count ≡ 2 ^ sum_by width_of sorts.now }
    requires well_formed { (g : Goal) → slice_get (file spec.now).goals goal ≡ Some g
        → IsWellFormed (file spec.now) g pattern.now }
    requires plain { (g : Goal) → slice_get (file spec.now).goals goal ≡ Some g → TakesNoMemory g }
    ensures { IfOk result (λ found. (g : Goal) → slice_get (file spec.now).goals goal ≡ Some g
        → IsFoundAmongAll (file spec.now) g pattern.now found) }
{
    let nodes = goal_nodes(alloc, spec, goal)?;
    let mut evaluation = Evaluation::new(alloc, spec)?;
    for number in 0..count {
        let found = difference_at(
            alloc,
            spec,
            goal,
            &mut evaluation,
            &nodes,
            sorts,
            pattern,
            number,
        )?;
        if let Some(example) = found {
            return Ok(Some(example));
        }
    }
    Ok(None)
}

/// That no fuel is left, with the call on which it was spent.
fn spent(alloc: Global, call: Tried) -> Result<Confirm, AllocError>
    ensures { IfOk result (λ answer. answer ≡ Confirm.Spent (call ∷ [])) }
{
    let mut calls: Seq<Tried> = Seq::new(alloc);
    calls.push(call)?;
    Ok(Confirm::Spent(calls))
}

/// The answer after a call on which all of so many units were spent, so that none is left: all inputs are tried, if
/// there are no more of them than units.
fn unanswered(
    alloc: Global,
    spec: &Spec,
    goal: u32,
    pattern: &Pattern,
    sorts: &[Sort],
    units: u64,
    left: u64,
    call: Tried,
) -> Result<Confirm, AllocError>
    requires there { goal < length spec.now.goals }
    requires sorts { (g : Goal) → slice_get (file spec.now).goals goal ≡ Some g → sorts.now ≡ g.args }
    requires few { length sorts.now ≤ 4 }
    requires well_formed { (g : Goal) → slice_get (file spec.now).goals goal ≡ Some g
        → IsWellFormed (file spec.now) g pattern.now }
    requires plain { (g : Goal) → slice_get (file spec.now).goals goal ≡ Some g → TakesNoMemory g }
    requires left { left ≡ 0 }
    requires call { (c : Claim) (ops : List ℕ) → IsClaim spec.now goal ops c → IsCall c pattern.now units call }
    ensures { IfOk result (λ answer. (c : Claim) (ops : List ℕ) → IsClaim spec.now goal ops c
        → IsAnswer c pattern.now units left answer) }
{
    rules_are_plain(spec, goal);
    let Some(count) = count_of(sorts) else {
        return spent(alloc, call);
    };
    if count > units {
        return spent(alloc, call);
    }
    match first_of_all(alloc, spec, goal, pattern, sorts, count)? {
        None => Ok(Confirm::Rule),
        Some(example) => Ok(Confirm::Differs(example)),
    }
}

/// The answer after the solver's, before which there were so many units and after which so many are left.
fn concluded(
    alloc: Global,
    spec: &Spec,
    goal: u32,
    pattern: &Pattern,
    sorts: &[Sort],
    units: u64,
    left: u64,
    decision: Decision,
) -> Result<Confirm, AllocError>
    requires there { goal < length spec.now.goals }
    requires sorts { (g : Goal) → slice_get (file spec.now).goals goal ≡ Some g → sorts.now ≡ g.args }
    requires few { length sorts.now ≤ 4 }
    requires well_formed { (g : Goal) → slice_get (file spec.now).goals goal ≡ Some g
        → IsWellFormed (file spec.now) g pattern.now }
    requires plain { (g : Goal) → slice_get (file spec.now).goals goal ≡ Some g → TakesNoMemory g }
    requires asked { (c : Claim) (ops : List ℕ) → IsClaim spec.now goal ops c
        → IsAsked c pattern.now units left decision }
    ensures { IfOk result (λ answer. (c : Claim) (ops : List ℕ) → IsClaim spec.now goal ops c
        → IsAnswer c pattern.now units left answer) }
{
    match decision {
        Decision::Yes(env) => Ok(Confirm::Differs(Example { inputs: env.values })),
        Decision::No(_refutation) => Ok(Confirm::Rule),
        Decision::Spent { blasted, log } => {
            let call = Tried { blasted, log };
            unanswered(alloc, spec, goal, pattern, sorts, units, left, call)
        }
    }
}

/// Whether a pattern that is well-formed for a goal without memory is a rule of it. Each unit of fuel is a conflict of
/// the solver. Where the goal has at most as many inputs as there are units, the fuel is enough. An `Err` is out of
/// memory.
pub fn confirm(
    alloc: Global,
    spec: &Spec,
    goal: u32,
    pattern: &Pattern,
    fuel: &mut Fuel,
) -> Result<Confirm, AllocError>
    requires there { goal < length spec.now.goals }
    requires well_formed { (g : Goal) → slice_get (file spec.now).goals goal ≡ Some g
        → IsWellFormed (file spec.now) g pattern.now }
    requires plain { (g : Goal) → slice_get (file spec.now).goals goal ≡ Some g → TakesNoMemory g }
    ensures fuel { fuel.new ≤ fuel.old }
    ensures answer { IfOk result (λ answer. (c : Claim) (ops : List ℕ) → IsClaim spec.now goal ops c
        → IsAnswer c pattern.now fuel.old fuel.new answer) }
{
    let units = fuel.left();
    let definition = spec.goal(goal);
    let sorts = sorts_of(alloc, definition.args.as_slice())?;
    let decision = asked(alloc, spec, goal, pattern, &sorts, fuel)?;
    let left = fuel.left();
    concluded(alloc, spec, goal, pattern, &sorts, units, left, decision)
}
