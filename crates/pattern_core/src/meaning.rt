//! The values that goals and patterns give. A pattern's nodes are evaluated in order, and the results so
//! far have their operations' sorts.

ghost use Rattle.std.specs.Prelude.{◌≡◌, ℕ, ◌<◌, ◌≤◌, ◌++◌, List, [], length, map, Some, slice_get, unwrap_or, false};
ghost use Rattle.std.specs.Prelude.{IfOk, OnOk, All, ◌↔◌};
ghost use Rattle.bv_terms.specs.declared.op.TermId.{TermId};
ghost use Rattle.bv_terms.specs.Term.{value};
ghost use Rattle.bv_terms.specs.Memory.{Plain};
ghost use Rattle.bv_terms.specs.Eval.{values_in};
ghost use Rattle.bv_terms.specs.Sorts.{HaveSorts};
ghost use Rattle.bv_terms.specs.WellSorted.{InputsFit};
ghost use Rattle.bv_terms.specs.Table.{term_at};
ghost use Rattle.isel_spec.specs.File.{Goal};
ghost use Rattle.isel_spec.specs.Spec.{file};
ghost use Rattle.pattern_core.specs.Rule.{source_value, attr_values, op_results, outs_from, pattern_results};
ghost use Rattle.pattern_core.specs.Rule.{goal_results, pattern_things, goal_things, IsRule, IsPlainRule};
ghost use Rattle.pattern_core.specs.Rule.{TakesNoMemory};
ghost use Rattle.pattern_core.specs.Pattern.{AreFitting, IsWellFormed};
ghost use Rattle.pattern_core.specs.declared.pattern.Pattern.{Pattern};
ghost use Rattle.pattern_core.specs.Meaning.{IsNodeGiven};

use crate::pattern::{Node, Pattern, Src};
use bv_terms::{Env, TermId, Terms, Value};
use collections::Seq;
use isel_spec::{OpDef, Spec};
use std::alloc::{AllocError, Global};

/// The value in a place; past the end, where no source of a well-formed pattern leads, some value.
fn value_at(values: &[Value], place: usize) -> Value
    ensures { result ≡ unwrap_or (slice_get values.now place) (Value.Bool false) }
{
    if place >= values.len() {
        return Value::Bool(false);
    }
    values[place]
}

/// What stands in the places of nodes, in order.
pub(crate) fn values_at(
    alloc: Global,
    nodes: &[TermId],
    room: &[Value],
) -> Result<Vec<Value>, AllocError>
    ensures { IfOk result (λ v. v.items ≡ values_in room.now nodes.now) }
{
    let mut values = Vec::with_capacity(alloc, nodes.len())?;
    for at in nodes {
        values.push(value_at(room, at.0))?;
    }
    Ok(values)
}

/// The values of terms of a table, in order. `room` has a place for each node of the table, but only
/// the nodes of the terms' subterms are evaluated.
fn values_of(
    alloc: Global,
    terms: &Terms,
    results: &[TermId],
    env: &Env,
    room: &mut [Value],
) -> Result<Vec<Value>, AllocError>
    requires there { All (λ (at : TermId). at.0 < length terms.now.nodes) results.now }
    requires inputs { All (λ (at : TermId). InputsFit env.now.values (term_at terms.now at)) results.now }
    requires room { length terms.now.nodes ≤ length room.old }
    ensures { IfOk result (λ v.
        v.items ≡ map (λ (at : TermId). value env.now.values (term_at terms.now at)) results.now) }
{
    let nodes = terms.subterms(alloc, results)?;
    terms.eval_nodes(&nodes, env, room);
    values_at(alloc, results, room)
}

/// The goal's results where its arguments have these values; its results over values and memories are the
/// same. An `Err` is out of memory.
pub fn eval_goal(
    alloc: Global,
    spec: &Spec,
    goal: u32,
    inputs: &[Value],
) -> Result<Vec<Value>, AllocError>
    requires there { goal < length spec.now.goals }
    requires inputs { (g : Goal) → slice_get (file spec.now).goals goal ≡ Some g → HaveSorts g.args inputs.now }
    ensures values { IfOk result (λ v. (g : Goal) → slice_get (file spec.now).goals goal ≡ Some g
        → v.items ≡ goal_results g inputs.now) }
    ensures things { IfOk result (λ v. (g : Goal) → slice_get (file spec.now).goals goal ≡ Some g
        → map Plain v.items ≡ goal_things (file spec.now) g (map Plain inputs.now)) }
{
    let mut room = vec![in alloc; Value::Bool(false); spec.terms.len()]?;
    let definition = spec.goal(goal);
    let env = Env {
        values: Seq::from_vec(Vec::from_slice(alloc, inputs)?),
    };
    let results = definition.results.as_slice();
    values_of(alloc, &spec.terms, results, &env, &mut room)
}

/// The value of a source, where the inputs and the results of the nodes so far have these values.
fn source_value(inputs: &[Value], outs: &[Seq<Value>], source: Src) -> Value
    ensures { result ≡ source_value inputs.now outs.now source }
{
    match source {
        Src::Input(input) => value_at(inputs, usize::from(input)),
        Src::Out { node, result } => {
            let node = usize::from(node);
            if node >= outs.len() {
                return Value::Bool(false);
            }
            value_at(outs[node].as_slice(), usize::from(result))
        }
    }
}

/// The values of sources, in order.
pub(crate) fn source_values(
    alloc: Global,
    inputs: &[Value],
    outs: &[Seq<Value>],
    sources: &[Src],
) -> Result<Vec<Value>, AllocError>
    ensures { IfOk result (λ v. v.items ≡ map (source_value inputs.now outs.now) sources.now) }
{
    let mut values = Vec::with_capacity(alloc, sources.len())?;
    for source in sources {
        values.push(source_value(inputs, outs, *source))?;
    }
    Ok(values)
}

/// Adds numbers as bit-vectors of these widths.
fn add_attributes(values: &mut Vec<Value>, widths: &[u8], numbers: &[u64]) -> Result<(), AllocError>
    ensures { OnOk result (values.new.items ≡ values.old.items ++ attr_values widths.now numbers.now) }
{
    for place in 0..widths.len().min(numbers.len()) {
        values.push(Value::Bits {
            width: widths[place],
            number: numbers[place],
        })?;
    }
    Ok(())
}

/// What the inputs of an operation's results are at a node: its arguments, and then its attributes.
pub(crate) fn node_inputs(
    alloc: Global,
    operation: &OpDef,
    node: &Node,
    inputs: &[Value],
    outs: &[Seq<Value>],
) -> Result<Env, AllocError>
    ensures { IfOk result (λ env. env.values ≡ map (source_value inputs.now outs.now) node.now.args
        ++ attr_values operation.now.attrs node.now.attrs) }
{
    let mut values = source_values(alloc, inputs, outs, node.args.as_slice())?;
    add_attributes(
        &mut values,
        operation.attrs.as_slice(),
        node.attrs.as_slice(),
    )?;
    Ok(Env {
        values: Seq::from_vec(values),
    })
}

/// The results of a node, where the earlier nodes have these.
fn node_results(
    alloc: Global,
    spec: &Spec,
    node: &Node,
    inputs: &[Value],
    outs: &[Seq<Value>],
    room: &mut [Value],
) -> Result<Vec<Value>, AllocError>
    requires given { IsNodeGiven spec.now node.now inputs.now outs.now }
    requires room { length spec.now.terms.nodes ≤ length room.old }
    ensures { IfOk result (λ v. v.items ≡ op_results (slice_get (file spec.now).ops node.now.op) node.now.attrs
        (map (source_value inputs.now outs.now) node.now.args)) }
{
    let operation = spec.op(usize::from(node.op));
    let env = node_inputs(alloc, operation, node, inputs, outs)?;
    let results = operation.results.as_slice();
    values_of(alloc, &spec.terms, results, &env, room)
}

/// The results of each node of a pattern for the goal.
fn all_results(
    alloc: Global,
    spec: &Spec,
    goal: u32,
    nodes: &[Node],
    inputs: &[Value],
    room: &mut [Value],
) -> Result<Vec<Seq<Value>>, AllocError>
    requires there { goal < length spec.now.goals }
    requires fits { (g : Goal) → slice_get (file spec.now).goals goal ≡ Some g
        → AreFitting (file spec.now) g nodes.now }
    requires inputs { (g : Goal) → slice_get (file spec.now).goals goal ≡ Some g → HaveSorts g.args inputs.now }
    requires room { length spec.now.terms.nodes ≤ length room.old }
    ensures { IfOk result (λ outs. outs.items ≡ outs_from (file spec.now) inputs.now [] nodes.now) }
{
    let mut outs: Vec<Seq<Value>> = Vec::new(alloc);
    for place in 0..nodes.len() {
        let node = &nodes[place];
        let found = node_results(alloc, spec, node, inputs, outs.as_slice(), room)?;
        outs.push(Seq::from_vec(found))?;
    }
    Ok(outs)
}

/// The results of a pattern that is well-formed for the goal, where the goal's arguments have these
/// values; its results over values and memories are the same. An `Err` is out of memory.
pub fn eval(
    alloc: Global,
    spec: &Spec,
    goal: u32,
    pattern: &Pattern,
    inputs: &[Value],
) -> Result<Vec<Value>, AllocError>
    requires there { goal < length spec.now.goals }
    requires well_formed { (g : Goal) → slice_get (file spec.now).goals goal ≡ Some g
        → IsWellFormed (file spec.now) g pattern.now }
    requires inputs { (g : Goal) → slice_get (file spec.now).goals goal ≡ Some g → HaveSorts g.args inputs.now }
    ensures values { IfOk result (λ v. v.items ≡ pattern_results (file spec.now) pattern.now inputs.now) }
    ensures things { IfOk result (λ v.
        map Plain v.items ≡ pattern_things (file spec.now) pattern.now (map Plain inputs.now)) }
{
    let mut room = vec![in alloc; Value::Bool(false); spec.terms.len()]?;
    let nodes = pattern.nodes.as_slice();
    let outs = all_results(alloc, spec, goal, nodes, inputs, &mut room)?;
    let sources = pattern.results.as_slice();
    source_values(alloc, inputs, outs.as_slice(), sources)
}

/// Where the goal takes no memory, a pattern that is well-formed for it is a rule exactly where it gives the
/// goal's results on all values.
pub fn rules_are_plain(spec: &Spec, goal: u32)
    ensures { (g : Goal) (p : Pattern) → slice_get (file spec.now).goals goal ≡ Some g
        → IsWellFormed (file spec.now) g p → TakesNoMemory g
        → IsRule (file spec.now) g p ↔ IsPlainRule (file spec.now) g p }
{
    // That the terms make a table, and so are well-sorted, is known from a call alone.
    spec.terms.len();
}
