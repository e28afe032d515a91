//! Tests: places of multisets and numbers of claims, beside the plain list, and which multisets and plans there are.

ghost use Rattle.std.specs.Prelude.{◌≡◌, ◌<◌, ◌≤◌, ◌↔◌, length, IsTrue};
ghost use Rattle.multiset_rank.specs.Multisets.{multisets};
ghost use Rattle.multiset_rank.specs.Claims.{claims};

use multiset_rank::{ClaimPlan, Multi, TooMany, count, rank, unrank};
use std::process::Abort;
use std::test::Fail;

/// From a place to its multiset and back: the place again.
fn place_again(kinds: u32, size: u8, number: u64) -> u64
    requires some { 1 ≤ kinds }
    requires most { kinds ≤ 64 }
    requires size { size ≤ 6 }
    requires number { number < length (multisets kinds size) }
    ensures { result ≡ number }
{
    rank(kinds, &unrank(kinds, size, number))
}

/// From a number to its claim and back: the number again.
fn number_again(plan: &ClaimPlan, number: u64) -> u64
    requires { number < length (claims plan.now) }
    ensures { result ≡ number }
{
    let (goal, multi) = plan.claim(number);
    plan.number(goal, &multi)
}

/// Whether two multisets are equal: where contracts see the same numbers.
fn is_same(left: &Multi, right: &Multi) -> bool
    ensures { IsTrue result ↔ (left.now ≡ right.now) }
{
    left == right
}

#[test]
fn counts_and_lists_multisets(rt: HostRuntime) -> Result<(), Fail> {
    assert!(rt; count(2, 2) == 3 && count(64, 6) == 119_877_472 && count(1, 0) == 1);
    for (number, ops) in [(0, [0, 0]), (1, [0, 1]), (2, [1, 1])] {
        assert!(rt; number < count(2, 2));
        let multi = unrank(2, 2, number);
        assert!(rt; multi.ops() == ops.as_slice() && rank(2, &multi) == number);
        assert!(rt; place_again(2, 2, number) == number);
    }
    Ok(())
}

/// A name, numbers, and whether they are a multiset's.
const SEQUENCES: [(&str, &[u16], bool); 5] = [
    ("none", &[], true),
    ("six", &[0, 1, 2, 3, 4, 65535], true),
    ("seven", &[0, 1, 2, 3, 4, 5, 6], false),
    ("the first pair falls", &[1, 0], false),
    ("the last pair falls", &[0, 4, 3], false),
];

#[test]
fn multisets_are_at_most_six_numbers_that_never_fall(rt: HostRuntime) -> Result<(), Fail> {
    let three = Multi::new([3, 5, 5].as_slice()).ok_or("never falls")?;
    assert!(rt; three.ops() == [3, 5, 5].as_slice());
    for (name, numbers, expected) in SEQUENCES {
        assert!(rt; Multi::new(numbers).is_some() == expected, "{name}");
    }
    let shorter = Multi::new([3, 5].as_slice()).ok_or("never falls")?;
    assert!(rt; is_same(&three, &three) && !is_same(&three, &shorter));
    Ok(())
}

/// How many claims a plan of these sizes has, and whether it fits.
fn claims_of(goals: u32, kinds: u32, bound: u8) -> (u64, bool)
    requires some_goals { 1 ≤ goals }
    requires most_goals { goals ≤ 256 }
    requires some_kinds { 1 ≤ kinds }
    requires most_kinds { kinds ≤ 64 }
    requires bound { bound ≤ 6 }
{
    match ClaimPlan::new(goals, kinds, bound) {
        Ok(plan) => (plan.claims(), true),
        Err(TooMany { claims }) => (claims, false),
    }
}

#[test]
fn plans_have_at_most_two_to_the_twentieth_claims(rt: HostRuntime) -> Result<(), Fail> {
    let plan = ClaimPlan::new(256, 64, 2).ok().ok_or("fits")?;
    assert!(rt; (plan.goals(), plan.kinds(), plan.bound()) == (256, 64, 2));
    assert!(rt; claims_of(256, 64, 2) == (549_120, true));
    assert!(rt; claims_of(256, 64, 3) == (12_263_680, false));
    assert!(rt; claims_of(1, 64, 6) == (131_115_985, false));
    assert!(rt; claims_of(256, 1, 6) == (1792, true));
    Ok(())
}

#[test]
fn numbers_claims_by_size_goal_and_multiset(rt: HostRuntime) -> Result<(), Fail> {
    let plan = ClaimPlan::new(1, 2, 2).ok().ok_or("fits")?;
    assert!(rt; plan.claims() == 6);
    let (goal, multi) = plan.claim(4);
    assert!(rt; goal == 0 && multi.ops() == [0, 1].as_slice());
    assert!(rt; number_again(&plan, 4) == 4);
    Ok(())
}

/// The `size` digits of a number in base 4, the highest first; `None` where they fall.
fn digits(number: u32, size: usize) -> Option<Multi>
    requires { size ≤ 3 }
{
    let mut digits = [0; 3];
    let mut rest = number;
    for place in (0..size).rev() {
        digits[place] = (rest % 4) as u16;
        rest /= 4;
    }
    Multi::new(&digits[..size])
}

/// Compares the claims of one goal and one size with the plain list, from a number on.
fn compare(rt: &impl Abort, plan: &ClaimPlan, goal: u32, size: usize, from: u64) -> u64
    requires { size ≤ 3 }
{
    let mut number = from;
    for code in 0..[1, 4, 16, 64][size] {
        if let Some(multi) = digits(code, size) {
            assert!(rt; number < plan.claims());
            assert!(rt; plan.claim(number) == (goal, multi));
            assert!(rt; number_again(plan, number) == number);
            number += 1;
        }
    }
    number
}

#[test]
fn agrees_with_the_plain_list(rt: HostRuntime) -> Result<(), Fail> {
    let plan = ClaimPlan::new(3, 4, 3).ok().ok_or("fits")?;
    let mut number = 0;
    for size in 0..4 {
        for goal in 0..3 {
            number = compare(&rt, &plan, goal, size, number);
        }
    }
    assert!(rt; number == plan.claims() && number == 105);
    Ok(())
}
