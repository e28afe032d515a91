//! What the calls require of a goal, of operations and of examples, as tests.

ghost use Rattle.std.specs.Prelude.{◌≡◌, ℕ, List, ◌^◌, ◌<◌, length, map, nat_lt, slice_get, Some, IsTrue};
ghost use Rattle.std.specs.List.{list_all};
ghost use Rattle.bv_terms.specs.declared.value.Sort.TheVariants as sort;
ghost use Rattle.bv_terms.specs.Sorts.{HasSort, HaveSorts};
ghost use Rattle.isel_spec.specs.File.{Goal};
ghost use Rattle.isel_spec.specs.Spec.{file};
ghost use Rattle.pattern_core.specs.Walk.{IsCanonical};
ghost use Rattle.loc_encode.specs.Given.{IsGiven, IsExampleFor};

use bv_terms::{Sort, Value};
use collections::Seq;
use isel_spec::{Kind, Spec};
use multiset_rank::Multi;
use pattern_core::{Example, Node, Pattern, is_canonical, is_well_formed, well_formed_is_forward};
use plain_search::has_no_memory;
use std::alloc::{AllocError, Global};

/// Whether all of the operations are in the file.
fn are_there(spec: &Spec, ops: &[u16]) -> bool
    ensures { result ≡ list_all (λ op. nat_lt op (length spec.now.ops)) ops.now }
{
    for op in ops {
        if usize::from(*op) >= spec.ops.len() {
            return false;
        }
    }
    true
}

/// Whether the file has the goal and the operations, and none takes a memory.
pub(crate) fn is_given(spec: &Spec, goal: u32, multi: &Multi) -> bool
    ensures { IsTrue result → IsGiven spec.now goal multi.now }
{
    if goal as usize >= spec.goals.len() || !are_there(spec, multi.ops()) {
        return false;
    }
    has_no_memory(spec, goal)
}

/// Whether a value is of the sort, and of less than 64 bits.
fn has_sort(sort: Sort, value: Value) -> bool
    ensures { IsTrue result → HasSort sort value }
{
    match sort {
        Sort::Bool => matches!(value, Value::Bool(_)),
        Sort::Bits(width) => is_word(width, value),
        Sort::Mem => false,
    }
}

/// Whether a value is a word of the width, and of less than 64 bits.
fn is_word(width: u8, value: Value) -> bool
    ensures { IsTrue result → HasSort (sort.Bits width) value }
{
    let Value::Bits {
        width: other,
        number,
    } = value
    else {
        return false;
    };
    other == width && width < 64 && number < 1 << width
}

/// Whether the values are of the sorts of at most two arguments.
fn have_sorts(args: &[(Kind, Sort)], values: &[Value]) -> bool
    ensures { IsTrue result → HaveSorts (map (λ a. a.1) args.now) values.now }
{
    match (args, values) {
        ([], []) => true,
        ([arg], [value]) => has_sort(arg.1, *value),
        ([arg, second], [value, other]) => { has_sort(arg.1, *value) && has_sort(second.1, *other) }
        _ => false,
    }
}

/// Whether the values are of the sorts of the goal's arguments, where it has at most two.
pub(crate) fn are_inputs(spec: &Spec, goal: u32, values: &[Value]) -> bool
    requires { goal < length spec.now.goals }
    ensures { IsTrue result
        → (g : Goal) → slice_get (file spec.now).goals goal ≡ Some g → HaveSorts g.args values.now }
{
    have_sorts(spec.goal(goal).args.as_slice(), values)
}

/// Whether the example is one of the goal, where that has at most two arguments.
pub(crate) fn is_example(spec: &Spec, goal: u32, example: &Example) -> bool
    requires { goal < length spec.now.goals }
    ensures { IsTrue result → (ops : List ℕ) → IsExampleFor spec.now goal ops example.now }
{
    are_inputs(spec, goal, example.inputs.as_slice())
}

/// The value of a sort that a number stands for.
fn value_of(sort: Sort, number: u64) -> Value {
    match sort {
        Sort::Bits(width) => Value::Bits { width, number },
        _ => Value::Bool(number != 0),
    }
}

/// The example of these numbers, as many as the goal has arguments, at most two.
pub(crate) fn example(
    alloc: Global,
    spec: &Spec,
    goal: u32,
    numbers: [u64; 2],
) -> Result<Example, AllocError>
    requires { goal < length spec.now.goals }
{
    let args = spec.goal(goal).args.as_slice();
    let mut values = Vec::new(alloc);
    for place in 0..args.len().min(2) {
        values.push(value_of(args[place].1, numbers[place]))?;
    }
    Ok(Example {
        inputs: Seq::from_vec(values),
    })
}

/// Whether a pattern is well-formed for the goal, and canonical.
pub(crate) fn is_canonical_for(spec: &Spec, goal: u32, pattern: &Pattern) -> bool
    requires { goal < length spec.now.goals }
    ensures { IsTrue result → IsCanonical pattern.now }
{
    if !is_well_formed(spec, goal, pattern) {
        return false;
    }
    well_formed_is_forward(spec, goal);
    is_canonical(pattern)
}

/// Whether two nodes are equal.
fn is_same_node(left: &Node, right: &Node) -> bool {
    left.op == right.op
        && left.attrs.as_slice() == right.attrs.as_slice()
        && left.args.as_slice() == right.args.as_slice()
}

/// Whether two patterns are equal.
pub(crate) fn is_same(left: &Pattern, right: &Pattern) -> bool {
    let (nodes, others) = (left.nodes.as_slice(), right.nodes.as_slice());
    if nodes.len() != others.len() || left.results.as_slice() != right.results.as_slice() {
        return false;
    }
    for place in 0..nodes.len() {
        if !is_same_node(&nodes[place], &others[place]) {
            return false;
        }
    }
    true
}
