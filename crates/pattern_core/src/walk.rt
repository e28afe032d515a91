//! Whether a pattern's nodes stand in the order of its walk, and that a well-formed pattern can be walked.
//!
//! As long as they do, the nodes left so far are those below a count. Once they are not, they never
//! are again, as the walk only adds nodes at the end.

ghost use Rattle.std.specs.Prelude.{◌≡◌, ◌↔◌, ℕ, ◌≤◌, length, Some, slice_get, IsTrue, IfSome};
ghost use Rattle.isel_spec.specs.File.{Goal};
ghost use Rattle.isel_spec.specs.Spec.{file};
ghost use Rattle.pattern_core.specs.declared.pattern.Pattern.{Pattern};
ghost use Rattle.pattern_core.specs.Pattern.{IsWellFormed};
ghost use Rattle.pattern_core.specs.Walk.{walk, below, IsBefore, AreForward, IsForward, IsCounted, IsCanonical};

use crate::pattern::{Node, Pattern, Src};
use isel_spec::Spec;

/// How many nodes the walk has left after a source, where it had left those below a count; `None`
/// where it leaves a node out of turn.
fn visit(nodes: &[Node], count: usize, source: Src) -> Option<usize>
    requires forward { AreForward nodes.now }
    requires there { IsBefore (length nodes.now) source }
    requires within { count ≤ length nodes.now }
    ensures within { IfSome result (λ left. left ≤ length nodes.now) }
    ensures walked { (deep : ℕ) → IsBefore deep source → IsCounted (walk deep nodes.now (below count) source) result }
{
    let Src::Out { node, .. } = source else {
        return Some(count);
    };
    let node = usize::from(node);
    if node < count {
        return Some(count);
    }
    let mut left = count;
    let arguments = nodes[node].args.as_slice();
    for argument in arguments {
        left = visit(nodes, left, *argument)?;
    }
    if left != node {
        return None;
    }
    Some(left + 1)
}

/// Whether the pattern's nodes stand in the order in which the walk from its results leaves them,
/// none missing. It takes no memory.
pub fn is_canonical(pattern: &Pattern) -> bool
    requires few { length pattern.now.nodes ≤ 6 }
    requires forward { IsForward pattern.now }
    ensures { IsTrue result ↔ IsCanonical pattern.now }
{
    let nodes = pattern.nodes.as_slice();
    let mut left = 0;
    for source in pattern.results.as_slice() {
        let Some(more) = visit(nodes, left, *source) else {
            return false;
        };
        left = more;
    }
    left == nodes.len()
}

/// In a pattern that is well-formed for the goal each node is over earlier ones, and the results name nodes
/// that are there.
pub fn well_formed_is_forward(spec: &Spec, goal: u32)
    ensures { (g : Goal) (p : Pattern) → slice_get (file spec.now).goals goal ≡ Some g
        → IsWellFormed (file spec.now) g p → IsForward p }
{
    // That the terms make a table, and so are well-sorted, is known from a call alone.
    spec.terms.len();
}
