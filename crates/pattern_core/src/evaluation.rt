//! The values that patterns of a file give, where many are evaluated at many inputs: the nodes below the
//! operations' results are found once, room for their values is made once, and results at small inputs are kept.

ghost use Rattle.std.specs.Prelude.{◌≡◌, ℕ, ◌<◌, ◌≤◌, ◌^◌, List, [], length, map, Some, slice_get, IfOk, All};
ghost use Rattle.bv_terms.specs.declared.op.TermId.{TermId};
ghost use Rattle.bv_terms.specs.Term.{value};
ghost use Rattle.bv_terms.specs.Sorts.{HaveSorts};
ghost use Rattle.bv_terms.specs.WellSorted.{InputsFit};
ghost use Rattle.bv_terms.specs.Table.{term_at};
ghost use Rattle.isel_spec.specs.declared.definitions.OpDef.{OpDef};
ghost use Rattle.isel_spec.specs.File.{Goal, scope};
ghost use Rattle.isel_spec.specs.Spec.{file};
ghost use Rattle.pattern_core.specs.Rule.{source_value, op_results, outs_from, pattern_results, goal_results};
ghost use Rattle.pattern_core.specs.Pattern.{AreFitting, IsWellFormed};
ghost use Rattle.pattern_core.specs.Meaning.{IsNodeGiven};
ghost use Rattle.pattern_core.specs.Known.{results_at, AreKnown};
ghost use Rattle.pattern_core.specs.Evaluation.{AreNodesBelow, HaveNodes, AreGoalNodes, IsEvaluationOf};

use crate::known::{keep, kept, nothing_known, place_of};
use crate::meaning::{node_inputs, source_values, values_at};
use crate::pattern::{Node, Pattern};
use bv_terms::{Env, TermId, Terms, Value};
use collections::Seq;
use isel_spec::Spec;
use std::alloc::{AllocError, Global};

/// What evaluating patterns of a file needs: for each operation the nodes of its results' subterms, its results so
/// far at inputs with small numbers, and room for values. `IsEvaluationOf` of `specs/Evaluation` says of which file it
/// is.
#[derive(Debug, Drop)]
pub struct Evaluation {
    operations: Seq<Seq<TermId>>,
    known: Vec<Option<Seq<Value>>>,
    /// A place for each node of the file's table.
    room: Vec<Value>,
}

impl Evaluation {
    /// What evaluating patterns of this file needs. An `Err` is out of memory.
    pub fn new(alloc: Global, spec: &Spec) -> Result<Evaluation, AllocError>
        ensures { IfOk result (IsEvaluationOf spec.now) }
    {
        let operations = all_operation_nodes(alloc, spec)?;
        let known = nothing_known(alloc, spec.ops.len())?;
        let room = vec![in alloc; Value::Bool(false); spec.terms.len()]?;
        Ok(Evaluation {
            operations,
            known,
            room,
        })
    }

    /// The results of a pattern that is well-formed for the goal, where the goal's arguments have these
    /// values. It costs the nodes below the operations' results, and no others of the table. An `Err` is out
    /// of memory.
    pub fn results(
        &mut self,
        alloc: Global,
        spec: &Spec,
        goal: u32,
        pattern: &Pattern,
        inputs: &[Value],
    ) -> Result<Vec<Value>, AllocError>
        requires evaluation { IsEvaluationOf spec.now self.old }
        requires there { goal < length spec.now.goals }
        requires well_formed { (g : Goal) → slice_get (file spec.now).goals goal ≡ Some g
            → IsWellFormed (file spec.now) g pattern.now }
        requires inputs { (g : Goal) → slice_get (file spec.now).goals goal ≡ Some g → HaveSorts g.args inputs.now }
        ensures evaluation { IsEvaluationOf spec.now self.new }
        ensures values { IfOk result (λ v. v.items ≡ pattern_results (file spec.now) pattern.now inputs.now) }
    {
        let nodes = pattern.nodes.as_slice();
        let operations = self.operations.as_slice();
        let known = &mut self.known;
        let room = &mut self.room;
        let outs = all_results(alloc, spec, goal, operations, nodes, inputs, known, room)?;
        let sources = pattern.results.as_slice();
        source_values(alloc, inputs, outs.as_slice(), sources)
    }

    /// The goal's results where its arguments have these values, along the nodes that `goal_nodes` gives. An
    /// `Err` is out of memory.
    pub fn goal_results(
        &mut self,
        alloc: Global,
        spec: &Spec,
        goal: u32,
        nodes: &[TermId],
        inputs: &[Value],
    ) -> Result<Vec<Value>, AllocError>
        requires evaluation { IsEvaluationOf spec.now self.old }
        requires there { goal < length spec.now.goals }
        requires nodes { AreGoalNodes spec.now goal nodes.now }
        requires inputs { (g : Goal) → slice_get (file spec.now).goals goal ≡ Some g → HaveSorts g.args inputs.now }
        ensures evaluation { IsEvaluationOf spec.now self.new }
        ensures values { IfOk result (λ v. (g : Goal) → slice_get (file spec.now).goals goal ≡ Some g
            → v.items ≡ goal_results g inputs.now) }
    {
        let room = &mut self.room;
        goal_values(alloc, spec, goal, nodes, inputs, room)
    }
}

/// The nodes of results' subterms.
fn nodes_below(alloc: Global, terms: &Terms, results: &[TermId]) -> Result<Vec<TermId>, AllocError>
    requires { All (λ (at : TermId). at.0 < length terms.now.nodes) results.now }
    ensures { IfOk result (λ nodes. AreNodesBelow terms.now results.now nodes.items) }
{
    terms.subterms(alloc, results)
}

/// The nodes along which the goal's results are evaluated. An `Err` is out of memory.
pub fn goal_nodes(alloc: Global, spec: &Spec, goal: u32) -> Result<Vec<TermId>, AllocError>
    requires { goal < length spec.now.goals }
    ensures { IfOk result (λ nodes. AreGoalNodes spec.now goal nodes.items) }
{
    let definition = spec.goal(goal);
    nodes_below(alloc, &spec.terms, definition.results.as_slice())
}

/// The nodes along which each operation's results are evaluated.
fn all_operation_nodes(alloc: Global, spec: &Spec) -> Result<Seq<Seq<TermId>>, AllocError>
    ensures { IfOk result (HaveNodes spec.now.terms spec.now.ops) }
{
    let mut lists: Seq<Seq<TermId>> = Seq::new(alloc);
    for place in 0..spec.ops.len() {
        let definition = spec.op(place);
        let nodes = nodes_below(alloc, &spec.terms, definition.results.as_slice())?;
        lists.push(Seq::from_vec(nodes))?;
    }
    Ok(lists)
}

/// The values of terms of a table, in order, along the nodes of their subterms.
fn values_along(
    alloc: Global,
    terms: &Terms,
    nodes: &[TermId],
    results: &[TermId],
    env: &Env,
    room: &mut [Value],
) -> Result<Vec<Value>, AllocError>
    requires nodes { AreNodesBelow terms.now results.now nodes.now }
    requires inputs { All (λ (at : TermId). InputsFit env.now.values (term_at terms.now at)) results.now }
    requires room { length terms.now.nodes ≤ length room.old }
    ensures { IfOk result (λ v.
        v.items ≡ map (λ (at : TermId). value env.now.values (term_at terms.now at)) results.now) }
{
    terms.eval_nodes(nodes, env, room);
    values_at(alloc, results, room)
}

/// The goal's results at these inputs, along these nodes.
fn goal_values(
    alloc: Global,
    spec: &Spec,
    goal: u32,
    nodes: &[TermId],
    inputs: &[Value],
    room: &mut [Value],
) -> Result<Vec<Value>, AllocError>
    requires there { goal < length spec.now.goals }
    requires nodes { AreGoalNodes spec.now goal nodes.now }
    requires inputs { (g : Goal) → slice_get (file spec.now).goals goal ≡ Some g → HaveSorts g.args inputs.now }
    requires room { length spec.now.terms.nodes ≤ length room.old }
    ensures { IfOk result (λ v. (g : Goal) → slice_get (file spec.now).goals goal ≡ Some g
        → v.items ≡ goal_results g inputs.now) }
{
    let definition = spec.goal(goal);
    let env = Env {
        values: Seq::from_vec(Vec::from_slice(alloc, inputs)?),
    };
    let results = definition.results.as_slice();
    values_along(alloc, &spec.terms, nodes, results, &env, room)
}

/// The results of an operation at values of its inputs, computed.
fn computed_results(
    alloc: Global,
    spec: &Spec,
    operations: &[Seq<TermId>],
    operation: usize,
    env: &Env,
    room: &mut [Value],
) -> Result<Vec<Value>, AllocError>
    requires operations { HaveNodes spec.now.terms spec.now.ops operations.now }
    requires there { operation < length spec.now.ops }
    requires sorted { (name : List ℕ) (d : OpDef) → slice_get spec.now.ops operation ≡ Some (name, d)
        → HaveSorts (scope d) env.now.values }
    requires room { length spec.now.terms.nodes ≤ length room.old }
    ensures { IfOk result (λ v. (name : List ℕ) (d : OpDef) → slice_get spec.now.ops operation ≡ Some (name, d)
        → v.items ≡ results_at spec.now.terms d env.now.values) }
{
    let nodes = operations[operation].as_slice();
    let definition = spec.op(operation);
    let results = definition.results.as_slice();
    values_along(alloc, &spec.terms, nodes, results, env, room)
}

/// The results of an operation at values of its inputs, which are kept where they have a place.
fn operation_results(
    alloc: Global,
    spec: &Spec,
    operations: &[Seq<TermId>],
    operation: usize,
    env: &Env,
    known: &mut [Option<Seq<Value>>],
    room: &mut [Value],
) -> Result<Vec<Value>, AllocError>
    requires operations { HaveNodes spec.now.terms spec.now.ops operations.now }
    requires there { operation < length spec.now.ops }
    requires few { operation < 2 ^ 16 }
    requires sorted { (name : List ℕ) (d : OpDef) → slice_get spec.now.ops operation ≡ Some (name, d)
        → HaveSorts (scope d) env.now.values }
    requires known { AreKnown spec.now known.old }
    requires room { length spec.now.terms.nodes ≤ length room.old }
    ensures known { AreKnown spec.now known.new }
    ensures results { IfOk result (λ v. (name : List ℕ) (d : OpDef) → slice_get spec.now.ops operation ≡ Some (name, d)
        → v.items ≡ results_at spec.now.terms d env.now.values) }
{
    let Some(place) = place_of(operation, env.values.as_slice()) else {
        return computed_results(alloc, spec, operations, operation, env, room);
    };
    if let Some(results) = kept(alloc, known, place)? {
        return Ok(results);
    }
    let values = computed_results(alloc, spec, operations, operation, env, room)?;
    keep(alloc, known, place, &values)?;
    Ok(values)
}

/// The results of a node, where the earlier nodes have these.
fn node_results(
    alloc: Global,
    spec: &Spec,
    operations: &[Seq<TermId>],
    node: &Node,
    inputs: &[Value],
    outs: &[Seq<Value>],
    known: &mut [Option<Seq<Value>>],
    room: &mut [Value],
) -> Result<Vec<Value>, AllocError>
    requires operations { HaveNodes spec.now.terms spec.now.ops operations.now }
    requires given { IsNodeGiven spec.now node.now inputs.now outs.now }
    requires known { AreKnown spec.now known.old }
    requires room { length spec.now.terms.nodes ≤ length room.old }
    ensures known { AreKnown spec.now known.new }
    ensures values { IfOk result (λ v. v.items ≡ op_results (slice_get (file spec.now).ops node.now.op) node.now.attrs
        (map (source_value inputs.now outs.now) node.now.args)) }
{
    let place = usize::from(node.op);
    let operation = spec.op(place);
    let env = node_inputs(alloc, operation, node, inputs, outs)?;
    operation_results(alloc, spec, operations, place, &env, known, room)
}

/// The results of each node of a pattern for the goal.
fn all_results(
    alloc: Global,
    spec: &Spec,
    goal: u32,
    operations: &[Seq<TermId>],
    nodes: &[Node],
    inputs: &[Value],
    known: &mut [Option<Seq<Value>>],
    room: &mut [Value],
) -> Result<Vec<Seq<Value>>, AllocError>
    requires operations { HaveNodes spec.now.terms spec.now.ops operations.now }
    requires there { goal < length spec.now.goals }
    requires fits { (g : Goal) → slice_get (file spec.now).goals goal ≡ Some g
        → AreFitting (file spec.now) g nodes.now }
    requires inputs { (g : Goal) → slice_get (file spec.now).goals goal ≡ Some g → HaveSorts g.args inputs.now }
    requires known { AreKnown spec.now known.old }
    requires room { length spec.now.terms.nodes ≤ length room.old }
    ensures known { AreKnown spec.now known.new }
    ensures results { IfOk result (λ outs. outs.items ≡ outs_from (file spec.now) inputs.now [] nodes.now) }
{
    let mut outs: Vec<Seq<Value>> = Vec::with_capacity(alloc, nodes.len())?;
    for place in 0..nodes.len() {
        let node = &nodes[place];
        let found = node_results(
            alloc,
            spec,
            operations,
            node,
            inputs,
            outs.as_slice(),
            known,
            room,
        )?;
        outs.push(Seq::from_vec(found))?;
    }
    Ok(outs)
}
