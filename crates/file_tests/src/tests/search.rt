//! Tests: how many rules the search finds for goals of files that were read, and of how many operations each is; the
//! trials and the rules of one multiset; which multisets are hopeless; and which goals can be searched.

ghost use Rattle.std.specs.Prelude.{length, IfSome};
ghost use Rattle.multiset_rank.specs.Multisets.{AreBelow};

use isel_spec::Spec;
use multiset_rank::{Multi, count, unrank};
use pattern_core::hopeless;
use plain_search::{can_search, has_no_memory, search, search_multi, trials};
use spec_reader::read_spec;
use std::alloc::{AllocError, Global};
use std::test::Fail;

/// The rules of a goal, and of how many operations the first of them is; `None` where the search does not take it.
fn rules_of(
    alloc: Global,
    spec: &Spec,
    goal: u32,
    bound: u8,
) -> Result<Option<(usize, usize)>, AllocError> {
    if bound > 6 || goal as usize >= spec.goals.len() {
        return Ok(None);
    }
    if !can_search(spec, goal, bound) {
        return Ok(None);
    }
    let rules = search(alloc, spec, goal, bound)?;
    match rules.first() {
        Some(first) => Ok(Some((rules.len(), first.nodes.len()))),
        None => Ok(Some((0, 0))),
    }
}

/// The rules of the first goal of a text.
fn found(alloc: Global, text: &str, bound: u8) -> Result<Option<(usize, usize)>, Fail> {
    let spec = read_spec(alloc, text.as_bytes()).ok().ok_or("a file")?;
    Ok(rules_of(alloc, &spec, 0, bound)?)
}

/// What the case shows, the bound, how many rules there are and of how many operations, and the text after the head.
const CASES: [(&str, u8, usize, usize, &str); 6] = [
    (
        "division by zero twice",
        2,
        2,
        2,
        "(op zero4 () () (#x0)) (op udiv4 ((a (_ BitVec 4)) (b (_ BitVec 4))) () ((bvudiv a b))) \
        (goal ones4 ((reg a (_ BitVec 4))) 1 ((bvudiv a #x0)))",
    ),
    (
        "no operation",
        2,
        1,
        0,
        "(op not1 ((a (_ BitVec 1))) () ((bvnot a))) (goal mov1 ((reg a (_ BitVec 1))) 1 (a))",
    ),
    (
        "none within the bound",
        1,
        0,
        0,
        "(op not1 ((a (_ BitVec 1))) () ((bvnot a))) (goal one1 () 1 (#b1))",
    ),
    (
        "an attribute",
        1,
        1,
        1,
        "(op const2 () ((k (_ BitVec 2))) (k)) (goal two2 () 1 (#b10))",
    ),
    (
        "truth values and two results",
        2,
        1,
        1,
        "(op nor ((a Bool) (b Bool)) () ((not (or a b)))) (op id ((a Bool)) () (a)) \
        (goal both ((reg a Bool)) 1 ((not a) a))",
    ),
    (
        "a sum in place of a constant",
        3,
        2,
        2,
        "(op const2 () ((k (_ BitVec 2))) (k)) (op add2 ((a (_ BitVec 2)) (b (_ BitVec 2))) () ((bvadd a b))) \
        (op and2 ((a (_ BitVec 2)) (b (_ BitVec 2))) () ((bvand a b))) \
        (goal blsr2 ((reg a (_ BitVec 2))) 1 ((bvand (bvsub a #b01) a)))",
    ),
];

#[test]
fn the_smallest_rules_are_found(rt: HostRuntime) -> Result<(), Fail> {
    for (name, bound, count, size, items) in CASES {
        let mut text = String::from_str(rt.alloc(), "(isel-spec 1 32) ")?;
        text.push_str(items)?;
        assert!(rt;
            found(rt.alloc(), text.as_str(), bound)? == Some((count, size)),
            "{name}"
        );
    }
    Ok(())
}

/// The multiset of that number among those of a size.
fn multi_at(spec: &Spec, size: u8, number: u64) -> Option<Multi>
    ensures { IfSome result (λ multi. AreBelow (length spec.now.ops) multi) }
{
    let kinds = spec.ops.len() as u32;
    if kinds == 0 || size > 6 {
        return None;
    }
    if number >= count(kinds, size) {
        return None;
    }
    Some(unrank(kinds, size, number))
}

/// How many trials the multiset takes for the first goal, and how many rules it has; `None` where there are too many
/// trials, or a memory.
fn settled(alloc: Global, spec: &Spec, multi: &Multi) -> Result<Option<(u64, usize)>, AllocError>
    requires { AreBelow (length spec.now.ops) multi.now }
{
    if spec.goals.len() == 0 || !has_no_memory(spec, 0) {
        return Ok(None);
    }
    let Some(number) = trials(spec, 0, multi) else {
        return Ok(None);
    };
    let rules = search_multi(alloc, spec, 0, multi)?;
    Ok(Some((number, rules.len())))
}

/// The same for the first goal of a text, and the multiset of that number among those of a size.
fn outcome(alloc: Global, text: &str, size: u8, number: u64) -> Result<Option<(u64, usize)>, Fail> {
    let spec = read_spec(alloc, text.as_bytes()).ok().ok_or("a file")?;
    let Some(multi) = multi_at(&spec, size, number) else {
        return Ok(None);
    };
    Ok(settled(alloc, &spec, &multi)?)
}

/// What the case shows, the size and the number of a multiset, its trials and rules, and the text after the head.
const MULTISETS: [(&str, u8, u64, Option<(u64, usize)>, &str); 8] = [
    (
        "one order, two bits of inputs, and three sources for each of three places",
        1,
        0,
        Some((4 * 27, 2)),
        "(op ior1 ((a (_ BitVec 1)) (b (_ BitVec 1))) () ((bvor a b))) \
        (goal or1 ((reg a (_ BitVec 1)) (reg b (_ BitVec 1))) 1 ((bvor a b)))",
    ),
    (
        "two orders",
        2,
        1,
        Some((2 * 2 * 27, 2)),
        "(op not1 ((a (_ BitVec 1))) () ((bvnot a))) (op neg1 ((a (_ BitVec 1))) () ((bvneg a))) \
        (goal flip1 ((reg a (_ BitVec 1))) 1 ((bvnot a)))",
    ),
    (
        "sixteen bits of inputs",
        1,
        0,
        Some((65536 * 27, 2)),
        "(op ior8 ((a (_ BitVec 8)) (b (_ BitVec 8))) () ((bvor a b))) \
        (goal or8 ((reg a (_ BitVec 8)) (reg b (_ BitVec 8))) 1 ((bvor a b)))",
    ),
    (
        "a difference at a high input alone",
        1,
        0,
        Some((65536 * 9, 0)),
        "(op low7 ((a (_ BitVec 8))) () ((bvand a #x7f))) \
        (goal second8 ((reg a (_ BitVec 8)) (reg b (_ BitVec 8))) 1 (b))",
    ),
    (
        "no operation",
        0,
        0,
        Some((65536 * 2, 1)),
        "(op low7 ((a (_ BitVec 8))) () ((bvand a #x7f))) \
        (goal second8 ((reg a (_ BitVec 8)) (reg b (_ BitVec 8))) 1 (b))",
    ),
    (
        "thirteen bits of attributes",
        1,
        0,
        Some((8192, 1)),
        "(op const13 () ((k (_ BitVec 13))) (k)) (goal last13 () 1 (#b1111111111111))",
    ),
    (
        "too many trials",
        1,
        0,
        None,
        "(op not64 ((a (_ BitVec 64))) () ((bvnot a))) (goal flip64 ((reg a (_ BitVec 64))) 1 ((bvnot a)))",
    ),
    (
        "a memory",
        1,
        0,
        None,
        "(op load8 ((m Mem) (p (_ BitVec 32))) () ((mmark 1 m p) (mload 1 m p))) (goal one1 () 1 (#b1))",
    ),
];

#[test]
fn the_rules_of_one_multiset_are_found(rt: HostRuntime) -> Result<(), Fail> {
    for (name, size, number, wanted, items) in MULTISETS {
        let mut text = String::from_str(rt.alloc(), "(isel-spec 1 32) ")?;
        text.push_str(items)?;
        assert!(rt;
            outcome(rt.alloc(), text.as_str(), size, number)? == wanted,
            "{name}"
        );
    }
    Ok(())
}

/// Whether the multiset of that number among those of a size is hopeless for the first goal of a text.
fn is_hopeless(alloc: Global, text: &str, size: u8, number: u64) -> Result<Option<bool>, Fail> {
    let spec = read_spec(alloc, text.as_bytes()).ok().ok_or("a file")?;
    if spec.goals.len() == 0 {
        return Ok(None);
    }
    let Some(multi) = multi_at(&spec, size, number) else {
        return Ok(None);
    };
    Ok(Some(hopeless(&spec, 0, &multi)))
}

/// What the case shows, the size and the number of a multiset, whether it is hopeless, and the text after the head.
const HOPELESS: [(&str, u8, u64, bool, &str); 4] = [
    (
        "three operations, no argument and one result",
        3,
        0,
        true,
        "(op const8 () ((k (_ BitVec 8))) (k)) (op add8 ((a (_ BitVec 8)) (b (_ BitVec 8))) () ((bvadd a b))) \
        (op and8 ((a (_ BitVec 8)) (b (_ BitVec 8))) () ((bvand a b))) \
        (goal blsr8 ((reg a (_ BitVec 8))) 1 ((bvand (bvsub a #x01) a)))",
    ),
    (
        "one of each operation",
        3,
        4,
        false,
        "(op const8 () ((k (_ BitVec 8))) (k)) (op add8 ((a (_ BitVec 8)) (b (_ BitVec 8))) () ((bvadd a b))) \
        (op and8 ((a (_ BitVec 8)) (b (_ BitVec 8))) () ((bvand a b))) \
        (goal blsr8 ((reg a (_ BitVec 8))) 1 ((bvand (bvsub a #x01) a)))",
    ),
    (
        "nothing of one bit",
        1,
        0,
        true,
        "(op add8 ((a (_ BitVec 8)) (b (_ BitVec 8))) () ((bvadd a b))) \
        (op ltu8 ((a (_ BitVec 8)) (b (_ BitVec 8))) () ((ite (bvult a b) #b1 #b0))) \
        (goal addc8 ((reg a (_ BitVec 8)) (reg b (_ BitVec 8))) 1 ((bvadd a b) \
        ((_ extract 8 8) (bvadd ((_ zero_extend 1) a) ((_ zero_extend 1) b)))))",
    ),
    (
        "a memory that the goal lacks",
        1,
        0,
        true,
        "(op load32 ((m Mem) (p (_ BitVec 32))) () ((mmark 4 m p) (mload 4 m p))) \
        (op add32 ((a (_ BitVec 32)) (b (_ BitVec 32))) () ((bvadd a b))) \
        (op store32 ((m Mem) (p (_ BitVec 32)) (v (_ BitVec 32))) () ((mstore 4 m p v))) \
        (goal mov32 ((reg a (_ BitVec 32))) 1 (a))",
    ),
];

#[test]
fn sorts_and_counts_tell_hopeless_multisets(rt: HostRuntime) -> Result<(), Fail> {
    for (name, size, number, wanted, items) in HOPELESS {
        let mut text = String::from_str(rt.alloc(), "(isel-spec 1 32) ")?;
        text.push_str(items)?;
        assert!(rt;
            is_hopeless(rt.alloc(), text.as_str(), size, number)? == Some(wanted),
            "{name}"
        );
    }
    Ok(())
}

/// Whether the first goal of a text can be searched.
fn is_searchable(alloc: Global, text: &str, bound: u8) -> Result<bool, Fail> {
    let spec = read_spec(alloc, text.as_bytes()).ok().ok_or("a file")?;
    Ok(spec.goals.len() > 0 && can_search(&spec, 0, bound))
}

/// The bound, whether it can be searched, and the text after the head.
const BOUNDS: [(u8, bool, &str); 6] = [
    (
        6,
        true,
        "(op one1 () () (#b1)) (goal neg12 ((reg a (_ BitVec 12))) 1 ((bvneg a)))",
    ),
    (
        0,
        false,
        "(op one1 () () (#b1)) (goal neg13 ((reg a (_ BitVec 13))) 1 ((bvneg a)))",
    ),
    (
        2,
        true,
        "(op const6 () ((k (_ BitVec 6))) (k)) (goal one1 () 1 (#b1))",
    ),
    (
        3,
        false,
        "(op const6 () ((k (_ BitVec 6))) (k)) (goal one1 () 1 (#b1))",
    ),
    (
        0,
        false,
        "(op mark ((m Mem) (p (_ BitVec 32))) () ((mmark 1 m p))) (goal one1 () 1 (#b1))",
    ),
    (
        0,
        false,
        "(op one1 () () (#b1)) (goal same ((mem m Mem)) 1 (m))",
    ),
];

#[test]
fn goals_of_few_bits_can_be_searched(rt: HostRuntime) -> Result<(), Fail> {
    for (bound, wanted, items) in BOUNDS {
        let mut text = String::from_str(rt.alloc(), "(isel-spec 1 32) ")?;
        text.push_str(items)?;
        assert!(rt;
            is_searchable(rt.alloc(), text.as_str(), bound)? == wanted,
            "{items}"
        );
    }
    Ok(())
}
