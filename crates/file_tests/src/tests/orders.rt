//! Patterns that differ in each of the ways that the order looks at, from the least to the greatest.

ghost use Rattle.std.specs.Prelude.{◌≡◌, ◌≤◌, length, IfOk};

use collections::Seq;
use pattern_core::{Node, Pattern, Src, order};
use std::alloc::{AllocError, Global};
use std::cmp::Ordering;
use std::test::Fail;

/// Nodes of these operations without arguments, and one result.
fn pattern(alloc: Global, ops: &[u16], source: Src) -> Result<Pattern, AllocError>
    ensures { IfOk result (λ p. length p.nodes ≡ length ops.now) }
{
    let mut nodes = Seq::new(alloc);
    for op in ops {
        nodes.push(Node {
            op: *op,
            attrs: Seq::new(alloc),
            args: Seq::new(alloc),
        })?;
    }
    let mut results = Seq::new(alloc);
    results.push(source)?;
    Ok(Pattern { nodes, results })
}

/// The operations of a pattern's nodes, and its result.
type Made = (&'static [u16], Src);

const SMALL: Made = (&[9], Src::Input(0));

const LOW: Made = (&[1, 3], Src::Input(1));

const SWAPPED: Made = (&[3, 1], Src::Input(0));

const HIGH: Made = (&[2, 2], Src::Out { node: 0, result: 2 });

const LAST: Made = (&[2, 2], Src::Out { node: 1, result: 0 });

/// The order of two patterns, if they have at most six nodes.
fn order_of(alloc: Global, left: Made, right: Made) -> Result<Option<Ordering>, AllocError> {
    if left.0.len() > 6 || right.0.len() > 6 {
        return Ok(None);
    }
    let left = pattern(alloc, left.0, left.1)?;
    let right = pattern(alloc, right.0, right.1)?;
    Ok(Some(order(&left, &right)))
}

/// Two patterns and their order.
const ORDERS: [(Made, Made, Ordering); 6] = [
    (SMALL, LOW, Ordering::Less),
    (LOW, SWAPPED, Ordering::Less),
    (SWAPPED, HIGH, Ordering::Less),
    (HIGH, LAST, Ordering::Less),
    (LAST, SMALL, Ordering::Greater),
    (LAST, LAST, Ordering::Equal),
];

#[test]
fn orders_by_size_multiset_nodes_and_results(rt: HostRuntime) -> Result<(), Fail> {
    for (left, right, wanted) in ORDERS {
        let found = order_of(rt.alloc(), left, right)?;
        assert!(rt; found == Some(wanted));
    }
    Ok(())
}
