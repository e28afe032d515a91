//! The one renaming of a pattern whose nodes stand in the order of its walk: the walk's list of nodes, then the nodes
//! in that order, each number renamed to its place there.

ghost use Rattle.std.specs.Prelude.{◌≡◌, ℕ, ◌<◌, ◌≤◌, [], map, fold, length, Some, slice_get, option_map, nat_eq};
ghost use Rattle.std.specs.Prelude.{IfOk, OnOk};
ghost use Rattle.std.specs.List.{list_any};
ghost use Rattle.isel_spec.specs.File.{File, Goal};
ghost use Rattle.pattern_core.specs.declared.pattern.Node.{Node};
ghost use Rattle.pattern_core.specs.declared.pattern.Pattern.{Pattern};
ghost use Rattle.pattern_core.specs.Pattern.{IsWellFormed};
ghost use Rattle.pattern_core.specs.Walk.{walk, IsBefore, AreForward, IsForward, IsCanonical};
ghost use Rattle.pattern_core.specs.Renaming.{renamed_source, renamed_sources, renamed_node, place_of, IsRenaming};

use crate::pattern::{Node, Pattern, Src};
use collections::Seq;
use std::alloc::{AllocError, Global};

/// Whether a number is among these.
fn is_among(numbers: &[u8], number: u8) -> bool
    ensures { result ≡ list_any (nat_eq number) numbers.now }
{
    for other in numbers {
        if number == *other {
            return true;
        }
    }
    false
}

/// Adds the nodes that the walk from a source leaves to those that it had left before.
fn visit(nodes: &[Node], left: &mut Vec<u8>, source: Src) -> Result<(), AllocError>
    requires forward { AreForward nodes.now }
    requires there { IsBefore (length nodes.now) source }
    ensures { OnOk result ((deep : ℕ) → IsBefore deep source
        → left.new.items ≡ walk deep nodes.now left.old.items source) }
{
    let Src::Out { node, .. } = source else {
        return Ok(());
    };
    if is_among(left.as_slice(), node) {
        return Ok(());
    }
    let arguments = nodes[usize::from(node)].args.as_slice();
    for argument in arguments {
        visit(nodes, left, *argument)?;
    }
    left.push(node)?;
    Ok(())
}

/// The nodes in the order in which the walk from the results leaves them.
fn walk_order(alloc: Global, pattern: &Pattern) -> Result<Vec<u8>, AllocError>
    requires { IsForward pattern.now }
    ensures { IfOk result (λ order.
        order.items ≡ fold (walk (length pattern.now.nodes) pattern.now.nodes) [] pattern.now.results) }
{
    let mut order = Vec::new(alloc);
    for source in pattern.results.as_slice() {
        visit(pattern.nodes.as_slice(), &mut order, *source)?;
    }
    Ok(order)
}

/// The first place of a number in a list; the length, where it is not there.
fn place_of(order: &[u8], number: u8) -> u8
    requires { length order.now ≤ 6 }
    ensures { result ≡ place_of order.now number }
{
    for place in 0..order.len() {
        if number == order[place] {
            return place as u8;
        }
    }
    order.len() as u8
}

/// A source with its node renamed to its place in the order.
fn renamed_source(order: &[u8], source: Src) -> Src
    requires { length order.now ≤ 6 }
    ensures { result ≡ renamed_source (place_of order.now) source }
{
    match source {
        Src::Input(input) => Src::Input(input),
        Src::Out { node, result } => Src::Out {
            node: place_of(order, node),
            result,
        },
    }
}

/// Sources with their nodes renamed to their places in the order.
fn renamed_sources(alloc: Global, order: &[u8], sources: &[Src]) -> Result<Seq<Src>, AllocError>
    requires { length order.now ≤ 6 }
    ensures { IfOk result (λ r. r ≡ renamed_sources (place_of order.now) sources.now) }
{
    let mut renamed = Vec::new(alloc);
    for source in sources {
        renamed.push(renamed_source(order, *source))?;
    }
    Ok(Seq::from_vec(renamed))
}

/// A node with the nodes of its arguments renamed to their places in the order.
fn renamed_node(alloc: Global, order: &[u8], node: &Node) -> Result<Node, AllocError>
    requires { length order.now ≤ 6 }
    ensures { IfOk result (λ r. r ≡ renamed_node (place_of order.now) node.now) }
{
    Ok(Node {
        op: node.op,
        attrs: Seq::from_vec(Vec::from_slice(alloc, node.attrs.as_slice())?),
        args: renamed_sources(alloc, order, node.args.as_slice())?,
    })
}

/// The nodes in the order, with their arguments renamed.
fn renamed_nodes(alloc: Global, order: &[u8], nodes: &[Node]) -> Result<Seq<Node>, AllocError>
    requires few { length order.now ≤ 6 }
    requires there { (i k : ℕ) → slice_get order.now i ≡ Some k → k < length nodes.now }
    ensures { IfOk result (λ r. map (λ (n : Node). Some n) r
        ≡ map (λ k. option_map (renamed_node (place_of order.now)) (slice_get nodes.now k)) order.now) }
{
    let mut renamed = Vec::new(alloc);
    for place in 0..order.len() {
        let node = &nodes[usize::from(order[place])];
        renamed.push(renamed_node(alloc, order, node)?)?;
    }
    Ok(Seq::from_vec(renamed))
}

/// The one renaming of a pattern whose nodes stand in the order of the walk. An `Err` is out of memory.
///
/// That a well-formed pattern for a goal of a file can be walked is known by `well_formed_is_forward`.
pub fn canonical(alloc: Global, pattern: Pattern) -> Result<Pattern, AllocError>
    requires well_formed { (f : File) × (g : Goal) × IsWellFormed f g pattern }
    requires forward { IsForward pattern }
    ensures renaming { IfOk result (IsRenaming pattern) }
    ensures canonical { IfOk result IsCanonical }
    ensures well_formed { IfOk result (λ q. (f : File) (g : Goal)
        → IsWellFormed f g pattern → IsWellFormed f g q) }
    // There is no other.
    ensures only { IfOk result (λ q. (r : Pattern) → IsRenaming pattern r → IsCanonical r → r ≡ q) }
{
    let left = walk_order(alloc, &pattern)?;
    let order = left.as_slice();
    let nodes = renamed_nodes(alloc, order, pattern.nodes.as_slice())?;
    let results = renamed_sources(alloc, order, pattern.results.as_slice())?;
    Ok(Pattern { nodes, results })
}
