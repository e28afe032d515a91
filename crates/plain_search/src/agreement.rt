//! Whether a pattern is a rule of a goal without memory: its results are compared with the goal's at one input
//! after another, and it is given up at the first where one differs.

ghost use Rattle.std.specs.Prelude.{◌≡◌, ◌↔◌, ◌<◌, length, map, sum_by, slice_get, Some, IfOk, IsTrue};
ghost use Rattle.bv_terms.specs.Sorts.{HaveSorts, width_of};
ghost use Rattle.isel_spec.specs.File.{Goal};
ghost use Rattle.isel_spec.specs.Spec.{file};
ghost use Rattle.pattern_core.specs.Pattern.{IsWellFormed};
ghost use Rattle.pattern_core.specs.Rule.{pattern_results, IsPlainRule, TakesNoMemory};
ghost use Rattle.pattern_core.specs.Evaluation.{AreGoalNodes, IsEvaluationOf};
ghost use Rattle.plain_search.specs.Agreement.{rows_below, AgreesAt, IsTableOf};

use crate::inputs::{count_of, inputs_of};
use bv_terms::{Sort, TermId, Value};
use collections::Seq;
use isel_spec::{Kind, Spec};
use pattern_core::{Evaluation, Pattern, goal_nodes};
use std::alloc::{AllocError, Global};

/// The most inputs that a table keeps.
const MOST_ROWS: u64 = 4096;

/// Some inputs of a goal, and its results there.
#[derive(Debug, Drop)]
struct Row {
    inputs: Seq<Value>,
    results: Seq<Value>,
}

/// A goal's results at its first inputs, by the inputs' numbers, and what its results at the others are computed
/// from: the sorts of its arguments, and the nodes below its results. `IsTableOf` of `specs/Agreement` says of which
/// goal it is.
#[derive(Debug, Drop)]
pub struct GoalTable {
    sorts: Vec<Sort>,
    nodes: Vec<TermId>,
    rows: Seq<Row>,
}

/// The sorts of a goal's arguments.
fn sorts_of(alloc: Global, arguments: &[(Kind, Sort)]) -> Result<Vec<Sort>, AllocError>
    ensures { IfOk result (λ sorts. sorts.items ≡ map (λ a. a.1) arguments.now) }
{
    arguments.iter().map(|argument| argument.1).collect(alloc)
}

/// The first inputs of a goal, which have these sorts, and its results there.
fn first_rows(
    alloc: Global,
    spec: &Spec,
    goal: u32,
    sorts: &[Sort],
    nodes: &[TermId],
    evaluation: &mut Evaluation,
) -> Result<Seq<Row>, AllocError>
    requires evaluation { IsEvaluationOf spec.now evaluation.old }
    requires there { goal < length spec.now.goals }
    requires sorts { (g : Goal) → slice_get (file spec.now).goals goal ≡ Some g → sorts.now ≡ g.args }
    requires nodes { AreGoalNodes spec.now goal nodes.now }
    requires few { sum_by width_of sorts.now < 64 }
    requires plain { (g : Goal) → slice_get (file spec.now).goals goal ≡ Some g → TakesNoMemory g }
    ensures evaluation { IsEvaluationOf spec.now evaluation.new }
    ensures rows { IfOk result (λ rows. (g : Goal) → slice_get (file spec.now).goals goal ≡ Some g
        → rows ≡ rows_below g (length rows)) }
{
    let mut rows: Seq<Row> = Seq::new(alloc);
    for number in 0..count_of(sorts).min(MOST_ROWS) {
        let inputs = inputs_of(alloc, sorts, number)?;
        let values = inputs.values.as_slice();
        let results = evaluation.goal_results(alloc, spec, goal, nodes, values)?;
        rows.push(Row {
            inputs: inputs.values,
            results: Seq::from_vec(results),
        })?;
    }
    Ok(rows)
}

/// The results of a goal at its first inputs, and what gives the others. An `Err` is out of memory.
pub fn goal_table(
    alloc: Global,
    spec: &Spec,
    goal: u32,
    evaluation: &mut Evaluation,
) -> Result<GoalTable, AllocError>
    requires evaluation { IsEvaluationOf spec.now evaluation.old }
    requires there { goal < length spec.now.goals }
    requires few { (g : Goal) → slice_get (file spec.now).goals goal ≡ Some g → sum_by width_of g.args < 64 }
    requires plain { (g : Goal) → slice_get (file spec.now).goals goal ≡ Some g → TakesNoMemory g }
    ensures evaluation { IsEvaluationOf spec.now evaluation.new }
    ensures table { IfOk result (IsTableOf spec.now goal) }
{
    let definition = spec.goal(goal);
    let sorts = sorts_of(alloc, definition.args.as_slice())?;
    let nodes = goal_nodes(alloc, spec, goal)?;
    let rows = first_rows(alloc, spec, goal, &sorts, &nodes, evaluation)?;
    Ok(GoalTable { sorts, nodes, rows })
}

/// Whether results are equal, one by one.
fn are_same(left: &[Value], right: &[Value]) -> bool
    ensures { IsTrue result ↔ (left.now ≡ right.now) }
{
    left == right
}

/// Whether the pattern gives these results at these inputs.
fn has_results(
    alloc: Global,
    spec: &Spec,
    goal: u32,
    evaluation: &mut Evaluation,
    pattern: &Pattern,
    inputs: &[Value],
    wanted: &[Value],
) -> Result<bool, AllocError>
    requires evaluation { IsEvaluationOf spec.now evaluation.old }
    requires there { goal < length spec.now.goals }
    requires well_formed { (g : Goal) → slice_get (file spec.now).goals goal ≡ Some g
        → IsWellFormed (file spec.now) g pattern.now }
    requires inputs { (g : Goal) → slice_get (file spec.now).goals goal ≡ Some g → HaveSorts g.args inputs.now }
    ensures evaluation { IsEvaluationOf spec.now evaluation.new }
    ensures has { IfOk result (λ has.
        IsTrue has ↔ (pattern_results (file spec.now) pattern.now inputs.now ≡ wanted.now)) }
{
    let found = evaluation.results(alloc, spec, goal, pattern, inputs)?;
    Ok(are_same(&found, wanted))
}

/// Whether the pattern gives the goal's results at the inputs with that number.
fn agrees_at(
    alloc: Global,
    spec: &Spec,
    goal: u32,
    evaluation: &mut Evaluation,
    table: &GoalTable,
    pattern: &Pattern,
    number: u64,
) -> Result<bool, AllocError>
    requires evaluation { IsEvaluationOf spec.now evaluation.old }
    requires there { goal < length spec.now.goals }
    requires few { (g : Goal) → slice_get (file spec.now).goals goal ≡ Some g → sum_by width_of g.args < 64 }
    requires plain { (g : Goal) → slice_get (file spec.now).goals goal ≡ Some g → TakesNoMemory g }
    requires table { IsTableOf spec.now goal table.now }
    requires well_formed { (g : Goal) → slice_get (file spec.now).goals goal ≡ Some g
        → IsWellFormed (file spec.now) g pattern.now }
    ensures evaluation { IsEvaluationOf spec.now evaluation.new }
    ensures agrees { (g : Goal) → slice_get (file spec.now).goals goal ≡ Some g
        → IfOk result (λ agrees. IsTrue agrees ↔ AgreesAt (file spec.now) g pattern.now number) }
{
    let rows = table.rows.as_slice();
    if number < rows.len() as u64 {
        let row = &rows[number as usize];
        let values = row.inputs.as_slice();
        let wanted = row.results.as_slice();
        return has_results(alloc, spec, goal, evaluation, pattern, values, wanted);
    }
    let inputs = inputs_of(alloc, &table.sorts, number)?;
    let values = inputs.values.as_slice();
    let wanted = evaluation.goal_results(alloc, spec, goal, &table.nodes, values)?;
    has_results(alloc, spec, goal, evaluation, pattern, values, &wanted)
}

/// Whether the pattern gives the goal's results at every input; it is given up at the first input where one
/// differs. An `Err` is out of memory.
pub fn is_rule(
    alloc: Global,
    spec: &Spec,
    goal: u32,
    evaluation: &mut Evaluation,
    table: &GoalTable,
    pattern: &Pattern,
) -> Result<bool, AllocError>
    requires evaluation { IsEvaluationOf spec.now evaluation.old }
    requires there { goal < length spec.now.goals }
    requires few { (g : Goal) → slice_get (file spec.now).goals goal ≡ Some g → sum_by width_of g.args < 64 }
    requires plain { (g : Goal) → slice_get (file spec.now).goals goal ≡ Some g → TakesNoMemory g }
    requires table { IsTableOf spec.now goal table.now }
    requires well_formed { (g : Goal) → slice_get (file spec.now).goals goal ≡ Some g
        → IsWellFormed (file spec.now) g pattern.now }
    ensures evaluation { IsEvaluationOf spec.now evaluation.new }
    ensures rule { (g : Goal) → slice_get (file spec.now).goals goal ≡ Some g
        → IfOk result (λ is. IsTrue is ↔ IsPlainRule (file spec.now) g pattern.now) }
{
    for number in 0..count_of(&table.sorts) {
        if !agrees_at(alloc, spec, goal, evaluation, table, pattern, number)? {
            return Ok(false);
        }
    }
    Ok(true)
}
