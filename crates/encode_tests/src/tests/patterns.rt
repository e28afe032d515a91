//! The patterns of one operation over two bits, and how many of them agree with a goal at some inputs.

use super::asking::patterns_of;
use collections::Seq;
use multiset_rank::Multi;
use pattern_core::{Pattern, Src};
use spec_reader::read_spec;
use std::alloc::Global;
use std::test::Fail;

/// The goal `or1`, with an operation of its own kind and one of another.
const BITS: &str = "(isel-spec 1 32) \
    (op ior1 ((a (_ BitVec 1)) (b (_ BitVec 1))) () ((bvor a b))) \
    (op xor1 ((a (_ BitVec 1)) (b (_ BitVec 1))) () ((bvxor a b))) \
    (goal or1 ((reg a (_ BitVec 1)) (reg b (_ BitVec 1))) 1 ((bvor a b)))";

/// The operations, the examples, and how many patterns agree with the goal at each of these.
const CASES: [(&[u16], &[[u64; 2]], usize); 7] = [
    (&[0], &[], 4),
    (&[0], &[[1, 1]], 4),
    (&[0], &[[1, 0]], 3),
    (&[0], &[[1, 0], [0, 1]], 2),
    (&[1], &[], 4),
    (&[1], &[[1, 0], [0, 1]], 2),
    (&[1], &[[1, 0], [0, 1], [1, 1]], 0),
];

/// The patterns of a case.
fn found(alloc: Global, ops: &[u16], examples: &[[u64; 2]]) -> Result<Seq<Pattern>, Fail> {
    let spec = read_spec(alloc, BITS.as_bytes()).ok().ok_or("a file")?;
    let multi = Multi::new(ops).ok_or("a multiset")?;
    let patterns = patterns_of(alloc, &spec, &multi, examples)?;
    Ok(patterns.ok_or("patterns that come back")?)
}

#[test]
fn so_many_patterns_agree(rt: HostRuntime) -> Result<(), Fail> {
    for (ops, examples, wanted) in CASES {
        assert!(rt; found(rt.alloc(), ops, examples)?.len() == wanted);
    }
    Ok(())
}

/// Whether the pattern is the first operation over these inputs.
fn is_over(pattern: &Pattern, first: u8, second: u8) -> bool {
    let [node] = pattern.nodes.as_slice() else {
        return false;
    };
    node.op == 0
        && node.args.as_slice() == [Src::Input(first), Src::Input(second)].as_slice()
        && pattern.results.as_slice() == [Src::Out { node: 0, result: 0 }].as_slice()
}

/// How many of the patterns are the first operation over these inputs.
fn times_over(patterns: &[Pattern], first: u8, second: u8) -> usize {
    let mut times: usize = 0;
    for pattern in patterns {
        if is_over(pattern, first, second) {
            times = times.saturating_add(1);
        }
    }
    times
}

#[test]
fn each_pattern_comes_once(rt: HostRuntime) -> Result<(), Fail> {
    let patterns = found(rt.alloc(), &[0], &[])?;
    for (first, second) in [(0, 0), (0, 1), (1, 0), (1, 1)] {
        assert!(rt; times_over(patterns.as_slice(), first, second) == 1);
    }
    Ok(())
}
