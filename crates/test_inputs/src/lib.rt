//! Inputs at which every pattern is tried first ([`tests`]): pairs of 0, 1, all ones and the sign bit, and fixed
//! pseudo-random numbers. Most patterns that are not right differ from the goal at one of them.
#![tactic(auto)]

ghost use Rattle.std.specs.Prelude.{◌≡◌, ◌<◌, ◌^◌, length, All, IfOk, Contains};
ghost use Rattle.bv_terms.specs.declared.value.Sort.TheVariants as sort;
ghost use Rattle.bv_terms.specs.Sorts.{HasSort, HaveSorts};
ghost use Rattle.pattern_core.specs.declared.pattern.Example.{Example};

use bv_terms::{Sort, Value};
use collections::Seq;
use pattern_core::Example;
use std::alloc::{AllocError, Global};

/// How many inputs every pattern is tried at first.
const TESTS: u64 = 64;

/// A fixed pseudo-random number, by two steps of the generator SplitMix64.
fn mixed(number: u64) -> u64 {
    let spread = number.wrapping_add(1).wrapping_mul(0x9E37_79B9_7F4A_7C15);
    let once = (spread ^ (spread >> 30)).wrapping_mul(0xBF58_476D_1CE4_E5B9);
    let twice = (once ^ (once >> 27)).wrapping_mul(0x94D0_49BB_1331_11EB);
    twice ^ (twice >> 31)
}

/// A corner of a width: 0, 1, all ones, or the sign bit alone.
fn corner(width: u8, kind: u64) -> u64 {
    match kind {
        0 => 0,
        1 => 1,
        2 => u64::MAX,
        _ => 1 << (u64::from(width) + 63) % 64,
    }
}

/// The number of an argument in a test: the first 16 tests have the pairs of corners, for arguments in even and in odd
/// places, and the others have pseudo-random numbers, in every fourth test below 64.
fn number_in(test: u64, place: usize, width: u8) -> u64 {
    if test < 16 {
        let kind = if place % 2 == 0 { test % 4 } else { test / 4 };
        return corner(width, kind);
    }
    let number = mixed(test.wrapping_mul(64).wrapping_add(place as u64));
    if test % 4 == 3 { number >> 58 } else { number }
}

/// A number below 2^width, with the number's lowest bits.
fn lowest(width: u8, number: u64) -> u64
    ensures { result < 2 ^ width }
{
    if width < 64 {
        number % (1 << width)
    } else {
        number
    }
}

/// The value of a sort with a number's lowest bits.
fn fitted(wanted: Sort, number: u64) -> Value
    requires { ¬ (wanted ≡ sort.Mem) }
    ensures { HasSort wanted result }
{
    match wanted {
        Sort::Bool => Value::Bool(number % 2 == 1),
        Sort::Bits(width) => Value::Bits {
            width,
            number: lowest(width, number),
        },
        Sort::Mem => Value::Bool(false),
    }
}

/// The inputs of a test.
fn test_inputs(alloc: Global, sorts: &[Sort], test: u64) -> Result<Vec<Value>, AllocError>
    requires { ¬ Contains sorts.now sort.Mem }
    ensures { IfOk result (λ values. HaveSorts sorts.now values.items) }
{
    let mut values = Vec::with_capacity(alloc, sorts.len())?;
    for place in 0..sorts.len() {
        let sort = sorts[place];
        values.push(fitted(sort, number_in(test, place, sort.width())))?;
    }
    Ok(values)
}

/// Inputs of these sorts, none a memory, at which every pattern is tried first: pairs of 0, 1, all ones and the sign
/// bit, and fixed pseudo-random numbers. An `Err` is out of memory.
pub fn tests(alloc: Global, sorts: &[Sort]) -> Result<Seq<Example>, AllocError>
    requires plain { ¬ Contains sorts.now sort.Mem }
    ensures sorts { IfOk result (λ xs. All (λ (x : Example). HaveSorts sorts.now x.inputs) xs) }
    ensures count { IfOk result (λ xs. length xs ≡ 64) }
{
    let mut examples: Seq<Example> = Seq::new(alloc);
    for test in 0..TESTS {
        let values = test_inputs(alloc, sorts, test)?;
        examples.push(Example {
            inputs: Seq::from_vec(values),
        })?;
    }
    Ok(examples)
}
