//! The sorts of the sources that a pattern may name.

ghost use Rattle.std.specs.Prelude.{◌≡◌, ◌<◌, ◌≤◌, length, Some, slice_get};
ghost use Rattle.isel_spec.specs.File.{Goal};
ghost use Rattle.isel_spec.specs.Spec.{file};
ghost use Rattle.pattern_core.specs.Pattern.{operation_sort, source_sort};

use bv_terms::Sort;
use isel_spec::Spec;
use pattern_core::{Node, Src};

/// The sort of a result of an operation, where the file has the operation and it has the result.
fn operation_sort(spec: &Spec, op: u16, place: u8) -> Option<Sort>
    ensures { result ≡ operation_sort (file spec.now) (slice_get (file spec.now).ops op) place }
{
    let op = usize::from(op);
    if op >= spec.ops.len() {
        return None;
    }
    let results = spec.op(op).results.as_slice();
    let place = usize::from(place);
    if place >= results.len() {
        return None;
    }
    Some(spec.terms.sort(results[place]))
}

/// The sort of an input of the goal, where it has the input.
fn input_sort(spec: &Spec, goal: u32, input: u8) -> Option<Sort>
    requires { goal < length spec.now.goals }
    ensures { (g : Goal) → slice_get (file spec.now).goals goal ≡ Some g → result ≡ slice_get g.args input }
{
    let arguments = spec.goal(goal).args.as_slice();
    let input = usize::from(input);
    if input >= arguments.len() {
        return None;
    }
    let (_, sort) = arguments[input];
    Some(sort)
}

/// The sort of a source of a node or a result that stands after these nodes, where it has one.
pub(crate) fn source_sort(spec: &Spec, goal: u32, nodes: &[Node], source: Src) -> Option<Sort>
    requires { goal < length spec.now.goals }
    ensures { (g : Goal) → slice_get (file spec.now).goals goal ≡ Some g
        → result ≡ source_sort (file spec.now) g nodes.now (length nodes.now) source }
{
    match source {
        Src::Input(input) => input_sort(spec, goal, input),
        Src::Out { node, result } => {
            let node = usize::from(node);
            if node >= nodes.len() {
                return None;
            }
            operation_sort(spec, nodes[node].op, result)
        }
    }
}
