//! Inputs at which patterns are tried before a solver is asked. The goal's results there are computed once.

ghost use Rattle.std.specs.Prelude.{◌≡◌, ◌<◌, ◌↔◌, ℕ, List, length, map, slice_get, Some, All, IfOk, IsTrue};
ghost use Rattle.bv_terms.specs.declared.value.Value.{Value};
ghost use Rattle.bv_terms.specs.Sorts.{HaveSorts};
ghost use Rattle.isel_spec.specs.File.{Goal};
ghost use Rattle.isel_spec.specs.Spec.{file};
ghost use Rattle.pattern_core.specs.declared.pattern.Example.{Example};
ghost use Rattle.pattern_core.specs.Claim.{Claim, IsClaim};
ghost use Rattle.pattern_core.specs.Pattern.{IsWellFormed};
ghost use Rattle.pattern_core.specs.Rule.{pattern_results};
ghost use Rattle.pattern_core.specs.Evaluation.{AreGoalNodes, IsEvaluationOf};
ghost use Rattle.cegis_loop.specs.Trial.{case_at, AreCasesOf, IsTriedAt};

use bv_terms::{TermId, Value};
use collections::Seq;
use isel_spec::Spec;
use pattern_core::{Evaluation, Example, Pattern, goal_nodes};
use std::alloc::{AllocError, Global};

/// Inputs of a goal, and its results there.
#[derive(Debug, Drop)]
struct TestCase {
    inputs: Seq<Value>,
    results: Seq<Value>,
}

/// Inputs at which patterns of a goal are tried, with its results there, and what evaluating patterns needs.
/// `AreCasesOf` of `specs/Trial` says of which goal they are.
#[derive(Debug, Drop)]
pub struct TestCases {
    evaluation: Evaluation,
    cases: Seq<TestCase>,
}

/// The goal's results at each example.
fn results_at(
    alloc: Global,
    spec: &Spec,
    goal: u32,
    nodes: &[TermId],
    examples: &[Example],
    evaluation: &mut Evaluation,
) -> Result<Seq<TestCase>, AllocError>
    requires evaluation { IsEvaluationOf spec.now evaluation.old }
    requires there { goal < length spec.now.goals }
    requires nodes { AreGoalNodes spec.now goal nodes.now }
    requires examples { (g : Goal) → slice_get (file spec.now).goals goal ≡ Some g
        → All (λ (x : Example). HaveSorts g.args x.inputs) examples.now }
    ensures evaluation { IsEvaluationOf spec.now evaluation.new }
    ensures cases { IfOk result (λ cases. (g : Goal) → slice_get (file spec.now).goals goal ≡ Some g
        → cases ≡ map (case_at g) examples.now) }
{
    let mut cases: Seq<TestCase> = Seq::new(alloc);
    for place in 0..examples.len() {
        let inputs = examples[place].inputs.as_slice();
        let results = evaluation.goal_results(alloc, spec, goal, nodes, inputs)?;
        cases.push(TestCase {
            inputs: Seq::from_vec(Vec::from_slice(alloc, inputs)?),
            results: Seq::from_vec(results),
        })?;
    }
    Ok(cases)
}

/// The goal's results at these examples. An `Err` is out of memory.
pub fn test_cases(
    alloc: Global,
    spec: &Spec,
    goal: u32,
    examples: &[Example],
) -> Result<TestCases, AllocError>
    requires there { goal < length spec.now.goals }
    requires examples { (g : Goal) → slice_get (file spec.now).goals goal ≡ Some g
        → All (λ (x : Example). HaveSorts g.args x.inputs) examples.now }
    ensures { IfOk result (AreCasesOf spec.now goal examples.now) }
{
    let nodes = goal_nodes(alloc, spec, goal)?;
    let mut evaluation = Evaluation::new(alloc, spec)?;
    let cases = results_at(alloc, spec, goal, &nodes, examples, &mut evaluation)?;
    Ok(TestCases { evaluation, cases })
}

/// Whether results are equal, one by one.
fn are_same(left: &[Value], right: &[Value]) -> bool
    ensures { IsTrue result ↔ (left.now ≡ right.now) }
{
    left == right
}

/// Whether the pattern gives these results at these inputs.
pub(crate) fn has_results(
    alloc: Global,
    spec: &Spec,
    goal: u32,
    evaluation: &mut Evaluation,
    pattern: &Pattern,
    inputs: &[Value],
    wanted: &[Value],
) -> Result<bool, AllocError>
    requires evaluation { IsEvaluationOf spec.now evaluation.old }
    requires there { goal < length spec.now.goals }
    requires well_formed { (g : Goal) → slice_get (file spec.now).goals goal ≡ Some g
        → IsWellFormed (file spec.now) g pattern.now }
    requires inputs { (g : Goal) → slice_get (file spec.now).goals goal ≡ Some g → HaveSorts g.args inputs.now }
    ensures evaluation { IsEvaluationOf spec.now evaluation.new }
    ensures has { IfOk result (λ has.
        IsTrue has ↔ (pattern_results (file spec.now) pattern.now inputs.now ≡ wanted.now)) }
{
    let found = evaluation.results(alloc, spec, goal, pattern, inputs)?;
    Ok(are_same(&found, wanted))
}

/// The first of some cases at which the pattern has other results.
fn first_other(
    alloc: Global,
    spec: &Spec,
    goal: u32,
    evaluation: &mut Evaluation,
    cases: &[TestCase],
    pattern: &Pattern,
) -> Result<Option<Example>, AllocError>
    requires evaluation { IsEvaluationOf spec.now evaluation.old }
    requires there { goal < length spec.now.goals }
    requires well_formed { (g : Goal) → slice_get (file spec.now).goals goal ≡ Some g
        → IsWellFormed (file spec.now) g pattern.now }
    requires inputs { (g : Goal) → slice_get (file spec.now).goals goal ≡ Some g
        → All (λ (t : TestCase). HaveSorts g.args t.inputs) cases.now }
    ensures evaluation { IsEvaluationOf spec.now evaluation.new }
    ensures first { IfOk result (λ found. (c : Claim) (ops : List ℕ) (xs : List Example) → IsClaim spec.now goal ops c
        → cases.now ≡ map (case_at c.goal) xs → IsTriedAt c pattern.now xs found) }
{
    for place in 0..cases.len() {
        let case = &cases[place];
        let inputs = case.inputs.as_slice();
        let wanted = case.results.as_slice();
        if !has_results(alloc, spec, goal, evaluation, pattern, inputs, wanted)? {
            let copied = Vec::from_slice(alloc, inputs)?;
            return Ok(Some(Example {
                inputs: Seq::from_vec(copied),
            }));
        }
    }
    Ok(None)
}

/// The first of the inputs at which a pattern that is well-formed for the goal differs from it, where there is one. An
/// `Err` is out of memory.
pub fn first_difference(
    alloc: Global,
    spec: &Spec,
    goal: u32,
    tests: &mut TestCases,
    pattern: &Pattern,
) -> Result<Option<Example>, AllocError>
    requires there { goal < length spec.now.goals }
    requires well_formed { (g : Goal) → slice_get (file spec.now).goals goal ≡ Some g
        → IsWellFormed (file spec.now) g pattern.now }
    requires cases { (xs : List Example) × AreCasesOf spec.now goal xs tests.old }
    ensures cases { (xs : List Example) → AreCasesOf spec.now goal xs tests.old
        → AreCasesOf spec.now goal xs tests.new }
    ensures first { IfOk result (λ found. (c : Claim) (ops : List ℕ) (xs : List Example) → IsClaim spec.now goal ops c
        → AreCasesOf spec.now goal xs tests.old → IsTriedAt c pattern.now xs found) }
{
    let evaluation = &mut tests.evaluation;
    let cases = tests.cases.as_slice();
    first_other(alloc, spec, goal, evaluation, cases, pattern)
}
