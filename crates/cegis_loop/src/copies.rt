//! Copies of patterns.

ghost use Rattle.std.specs.Prelude.{◌≡◌, IfOk};

use collections::Seq;
use pattern_core::{Node, Pattern};
use std::alloc::{AllocError, Global};

/// A copy of some elements.
fn copied<T: Copy>(alloc: Global, elements: &[T]) -> Result<Seq<T>, AllocError>
    ensures { IfOk result (λ copy. copy ≡ elements.now) }
{
    let copy = Vec::from_slice(alloc, elements)?;
    Ok(Seq::from_vec(copy))
}

/// A copy of a node.
fn copied_node(alloc: Global, node: &Node) -> Result<Node, AllocError>
    ensures { IfOk result (λ copy. copy ≡ node.now) }
{
    let attrs = copied(alloc, node.attrs.as_slice())?;
    let args = copied(alloc, node.args.as_slice())?;
    Ok(Node {
        op: node.op,
        attrs,
        args,
    })
}

/// A copy of some nodes.
fn copied_nodes(alloc: Global, nodes: &[Node]) -> Result<Seq<Node>, AllocError>
    ensures { IfOk result (λ copy. copy ≡ nodes.now) }
{
    let mut copy = Vec::new(alloc);
    for node in nodes {
        copy.push(copied_node(alloc, node)?)?;
    }
    Ok(Seq::from_vec(copy))
}

/// A copy of a pattern.
pub(crate) fn copied_pattern(alloc: Global, pattern: &Pattern) -> Result<Pattern, AllocError>
    ensures { IfOk result (λ copy. copy ≡ pattern.now) }
{
    let nodes = copied_nodes(alloc, pattern.nodes.as_slice())?;
    let results = copied(alloc, pattern.results.as_slice())?;
    Ok(Pattern { nodes, results })
}
