//! The canonical patterns that are found by asking are those that plain enumeration lists, each once.

ghost use Rattle.std.specs.Prelude.{◌<◌, length};

use super::asking::patterns_of;
use super::given::{are_inputs, example, is_canonical_for, is_given, is_same};
use collections::Seq;
use isel_spec::Spec;
use multiset_rank::{Multi, count, unrank};
use pattern_core::{Node, Pattern, eval, eval_goal, is_well_formed};
use plain_search::{Sieve, can_search, each_pattern};
use spec_reader::read_spec;
use std::alloc::{AllocError, Global};
use std::test::Fail;

/// The patterns that a sieve was handed and that agree with the goal at each of some examples of numbers.
#[derive(Drop)]
struct Agreeing<'a> {
    examples: &'a [[u64; 2]],
    patterns: Vec<Pattern>,
}

/// A copy of a node.
fn copied_node(alloc: Global, node: &Node) -> Result<Node, AllocError> {
    let attrs = Vec::from_slice(alloc, node.attrs.as_slice())?;
    let args = Vec::from_slice(alloc, node.args.as_slice())?;
    Ok(Node {
        op: node.op,
        attrs: Seq::from_vec(attrs),
        args: Seq::from_vec(args),
    })
}

/// A copy of a pattern.
fn copied_pattern(alloc: Global, pattern: &Pattern) -> Result<Pattern, AllocError> {
    let mut nodes = Vec::new(alloc);
    for node in pattern.nodes.as_slice() {
        nodes.push(copied_node(alloc, node)?)?;
    }
    let results = Vec::from_slice(alloc, pattern.results.as_slice())?;
    Ok(Pattern {
        nodes: Seq::from_vec(nodes),
        results: Seq::from_vec(results),
    })
}

/// Whether the pattern gives the goal's results at the example of these numbers.
fn agrees(
    alloc: Global,
    spec: &Spec,
    goal: u32,
    pattern: &Pattern,
    numbers: [u64; 2],
) -> Result<bool, AllocError>
    requires { goal < length spec.now.goals }
{
    let example = example(alloc, spec, goal, numbers)?;
    let inputs = example.inputs.as_slice();
    if !are_inputs(spec, goal, inputs) || !is_well_formed(spec, goal, pattern) {
        return Ok(false);
    }
    let found = eval(alloc, spec, goal, pattern, inputs)?;
    let wanted = eval_goal(alloc, spec, goal, inputs)?;
    Ok(found.as_slice() == wanted.as_slice())
}

impl Sieve for Agreeing<'_> {
    ghost is_for = { λ sieve spec goal. Unit {0} };

    ghost takes = { λ old pattern new. Unit {0} };

    fn take(
        &mut self,
        alloc: Global,
        spec: &Spec,
        goal: u32,
        pattern: &Pattern,
    ) -> Result<(), AllocError> {
        for numbers in self.examples {
            if !agrees(alloc, spec, goal, pattern, *numbers)? {
                return Ok(());
            }
        }
        self.patterns.push(copied_pattern(alloc, pattern)?)?;
        Ok(())
    }
}

/// The canonical patterns of the first goal with the multiset that agree at the examples, by enumeration.
fn enumerated(
    alloc: Global,
    spec: &Spec,
    multi: &Multi,
    examples: &[[u64; 2]],
) -> Result<Vec<Pattern>, AllocError> {
    if !is_given(spec, 0, multi) || !can_search(spec, 0, multi.ops().len() as u8) {
        return Err(AllocError);
    }
    let mut sieve = Agreeing {
        examples,
        patterns: Vec::new(alloc),
    };
    each_pattern(alloc, spec, 0, multi, &mut sieve)?;
    Ok(sieve.patterns)
}

/// How many of the patterns are equal to this one.
fn times_among(patterns: &[Pattern], pattern: &Pattern) -> usize {
    let mut times: usize = 0;
    for other in patterns {
        if is_same(pattern, other) {
            times = times.saturating_add(1);
        }
    }
    times
}

/// How many of the patterns are canonical for the goal.
fn canonical_count(spec: &Spec, goal: u32, patterns: &[Pattern]) -> usize
    requires { goal < length spec.now.goals }
{
    let mut count: usize = 0;
    for pattern in patterns {
        if is_canonical_for(spec, goal, pattern) {
            count = count.saturating_add(1);
        }
    }
    count
}

/// Whether each of the patterns is once among the others.
fn are_once_among(patterns: &[Pattern], others: &[Pattern]) -> bool {
    for pattern in patterns {
        if times_among(others, pattern) != 1 {
            return false;
        }
    }
    true
}

/// How many canonical patterns of the first goal with the multiset agree at the examples; `None` where those that are
/// found by asking are not those that are enumerated, each once.
fn agreed_count(
    alloc: Global,
    spec: &Spec,
    multi: &Multi,
    examples: &[[u64; 2]],
) -> Result<Option<usize>, AllocError> {
    let wanted = enumerated(alloc, spec, multi, examples)?;
    let Some(found) = patterns_of(alloc, spec, multi, examples)? else {
        return Ok(None);
    };
    if spec.goals.len() == 0 || canonical_count(spec, 0, found.as_slice()) != wanted.len() {
        return Ok(None);
    }
    if !are_once_among(wanted.as_slice(), found.as_slice()) {
        return Ok(None);
    }
    Ok(Some(wanted.len()))
}

/// The multiset of that number among those of a size.
fn multi_at(spec: &Spec, size: u8, number: u64) -> Option<Multi> {
    let kinds = spec.ops.len() as u32;
    if kinds == 0 || size > 6 {
        return None;
    }
    if number >= count(kinds, size) {
        return None;
    }
    Some(unrank(kinds, size, number))
}

/// How many canonical patterns of the first goal with any multiset of a size agree at the examples; `None` where asking
/// and enumeration differ.
fn count_of_size(
    alloc: Global,
    spec: &Spec,
    size: u8,
    examples: &[[u64; 2]],
) -> Result<Option<usize>, AllocError> {
    let mut total: usize = 0;
    for number in 0..64 {
        let Some(multi) = multi_at(spec, size, number) else {
            return Ok(Some(total));
        };
        let Some(more) = agreed_count(alloc, spec, &multi, examples)? else {
            return Ok(None);
        };
        total = total.saturating_add(more);
    }
    Ok(None)
}

/// How many there are of no operation, of one and of two.
fn agreed(
    alloc: Global,
    text: &str,
    examples: &[[u64; 2]],
) -> Result<Option<(usize, usize, usize)>, Fail> {
    let spec = read_spec(alloc, text.as_bytes()).ok().ok_or("a file")?;
    let none = count_of_size(alloc, &spec, 0, examples)?;
    let one = count_of_size(alloc, &spec, 1, examples)?;
    let two = count_of_size(alloc, &spec, 2, examples)?;
    match (none, one, two) {
        (Some(none), Some(one), Some(two)) => Ok(Some((none, one, two))),
        _ => Ok(None),
    }
}

/// A negation and a conjunction, for a goal of two inputs.
const AND_NOT: &str = "(isel-spec 1 32) \
    (op not2 ((a (_ BitVec 2))) () ((bvnot a))) \
    (op and2 ((a (_ BitVec 2)) (b (_ BitVec 2))) () ((bvand a b))) \
    (goal andn2 ((reg a (_ BitVec 2)) (reg b (_ BitVec 2))) 1 ((bvand (bvnot a) b)))";

/// A constant and a sum, for a goal that needs both.
const CONSTANT: &str = "(isel-spec 1 32) \
    (op const2 () ((k (_ BitVec 2))) (k)) \
    (op add2 ((a (_ BitVec 2)) (b (_ BitVec 2))) () ((bvadd a b))) \
    (goal next2 ((reg a (_ BitVec 2))) 1 ((bvadd a #b01)))";

/// Two sorts and a goal of two results, one of each sort.
const CARRY: &str = "(isel-spec 1 32) \
    (op add2 ((a (_ BitVec 2)) (b (_ BitVec 2))) () ((bvadd a b))) \
    (op less ((a (_ BitVec 2)) (b (_ BitVec 2))) () ((bvult a b))) \
    (goal carry ((reg a (_ BitVec 2)) (reg b (_ BitVec 2))) 1 ((bvadd a b) (bvult (bvadd a b) b)))";

/// A constant without attribute, which may stand twice, and one operation of two results.
const HALVES: &str = "(isel-spec 1 32) \
    (op zero1 () () (#b0)) \
    (op half ((a (_ BitVec 1)) (b (_ BitVec 1))) () ((bvxor a b) (bvand a b))) \
    (goal zero ((reg a (_ BitVec 1))) 1 ((bvand a #b0)))";

/// Files with examples, and how many canonical patterns of no operation, of one and of two agree with
/// the goal there, counted by hand.
const FILES: [(&str, &[[u64; 2]], (usize, usize, usize)); 8] = [
    (AND_NOT, &[], (2, 6, 36)),
    (AND_NOT, &[[1, 2]], (1, 2, 8)),
    (CONSTANT, &[], (1, 5, 15)),
    (CONSTANT, &[[1, 0]], (0, 2, 4)),
    (CARRY, &[], (0, 8, 76)),
    (CARRY, &[[3, 2]], (0, 0, 6)),
    (HALVES, &[], (1, 3, 22)),
    (HALVES, &[[1, 0]], (0, 2, 13)),
];

#[test]
fn what_is_found_is_what_is_enumerated(rt: HostRuntime) -> Result<(), Fail> {
    for (text, examples, wanted) in FILES {
        assert!(rt; agreed(rt.alloc(), text, examples)? == Some(wanted));
    }
    Ok(())
}
