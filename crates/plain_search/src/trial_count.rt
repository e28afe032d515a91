//! How many trials settle a multiset of operations for a goal, by trying patterns and inputs one by one.

ghost use Rattle.std.specs.Prelude.{◌≡◌, ℕ, ◌+◌, ◌*◌, ◌^◌, ◌≤◌, ◌<◌, length, sum_by, slice_get, Some};
ghost use Rattle.isel_spec.specs.File.{Goal};
ghost use Rattle.isel_spec.specs.Spec.{file};
ghost use Rattle.multiset_rank.specs.Multisets.{AreBelow};
ghost use Rattle.pattern_core.specs.Rule.{HasNoMemory};
ghost use Rattle.plain_search.specs.Extent.{attribute_bits};
ghost use Rattle.plain_search.specs.Trials.{factorial, results_of, arguments_of, trials_of, in_64_bits};

use crate::extent::{attribute_bits_of, value_bits};
use isel_spec::Spec;
use multiset_rank::Multi;

/// In how many orders that many operations stand.
fn factorial(count: usize) -> u64
    requires { count ≤ 6 }
    ensures { result ≡ factorial count }
{
    let mut orders = 1;
    for placed in 0..count {
        orders *= placed as u64 + 1;
    }
    orders
}

/// The number of trials by its parts. Where there is no choice of sources there is no trial; else each part is at
/// least 1, and where one of them is too large, so is the product.
fn product_of(count: usize, bits: u32, sources: u32, places: u32) -> Option<u64>
    requires { count ≤ 6 }
    ensures { result ≡ in_64_bits (factorial count * 2 ^ bits * sources ^ places) }
{
    let Some(choices) = u64::from(sources).checked_pow(places) else {
        return None;
    };
    if choices == 0 {
        return Some(0);
    }
    let Some(inputs) = 2u64.checked_pow(bits) else {
        return None;
    };
    let Some(ordered) = inputs.checked_mul(factorial(count)) else {
        return None;
    };
    ordered.checked_mul(choices)
}

/// The bits of the attributes of these operations, with repeats.
fn attribute_bits(spec: &Spec, ops: &[u16]) -> u32
    requires below { AreBelow (length spec.now.ops) ops.now }
    requires few { length ops.now ≤ 6 }
    ensures value { result ≡ attribute_bits (file spec.now) ops.now }
    ensures small { result ≤ 3060 }
{
    let mut total = 0;
    for op in ops {
        total += attribute_bits_of(spec, usize::from(*op));
    }
    total
}

/// How many results an operation has.
fn results_of(spec: &Spec, op: usize) -> u32
    requires { op < length spec.now.ops }
    ensures value { result ≡ results_of (file spec.now) op }
    ensures small { result ≤ 3 }
{
    spec.op(op).results.len() as u32
}

/// How many results these operations have together.
fn result_count(spec: &Spec, ops: &[u16]) -> u32
    requires below { AreBelow (length spec.now.ops) ops.now }
    requires few { length ops.now ≤ 6 }
    ensures value { result ≡ sum_by (results_of (file spec.now)) ops.now }
    ensures small { result ≤ 18 }
{
    let mut total = 0;
    for op in ops {
        total += results_of(spec, usize::from(*op));
    }
    total
}

/// How many arguments an operation has.
fn arguments_of(spec: &Spec, op: usize) -> u32
    requires { op < length spec.now.ops }
    ensures value { result ≡ arguments_of (file spec.now) op }
    ensures small { result ≤ 4 }
{
    spec.op(op).args.len() as u32
}

/// How many arguments these operations have together.
fn argument_count(spec: &Spec, ops: &[u16]) -> u32
    requires below { AreBelow (length spec.now.ops) ops.now }
    requires few { length ops.now ≤ 6 }
    ensures value { result ≡ sum_by (arguments_of (file spec.now)) ops.now }
    ensures small { result ≤ 24 }
{
    let mut total = 0;
    for op in ops {
        total += arguments_of(spec, usize::from(*op));
    }
    total
}

/// How many trials settle a multiset of operations for a goal by trying patterns and inputs one by one, or `None` where
/// the number is 2^64 or more. It takes no memory.
pub fn trials(spec: &Spec, goal: u32, multi: &Multi) -> Option<u64>
    requires there { goal < length spec.now.goals }
    requires ops { AreBelow (length spec.now.ops) multi.now }
    requires no_memory { (g : Goal) → slice_get (file spec.now).goals goal ≡ Some g → HasNoMemory (file spec.now) g }
    ensures { (g : Goal) → slice_get (file spec.now).goals goal ≡ Some g →
        result ≡ in_64_bits (trials_of (file spec.now) g multi.now) }
{
    let definition = spec.goal(goal);
    let ops = multi.ops();
    let bits = value_bits(definition.args.as_slice()) + attribute_bits(spec, ops);
    let sources = definition.args.len() as u32 + result_count(spec, ops);
    let places = argument_count(spec, ops) + definition.results.len() as u32;
    product_of(ops.len(), bits, sources, places)
}
