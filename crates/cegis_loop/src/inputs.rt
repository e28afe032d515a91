//! Inputs of some sorts by their numbers. The bits of the first input are the lowest of a number.

ghost use Rattle.std.specs.Prelude.{◌≡◌, ◌<◌, ◌≤◌, ◌^◌, length, sum_by, IfOk, MatchOption};
ghost use Rattle.bv_terms.specs.Sorts.{width_of};
ghost use Rattle.plain_search.specs.Inputs.{value_numbered, inputs_numbered};

use bv_terms::{Sort, Value};
use collections::Seq;
use std::alloc::{AllocError, Global};

/// How many inputs of these sorts there are, where their number has fewer than 64 bits.
pub(crate) fn count_of(sorts: &[Sort]) -> Option<u64>
    requires { length sorts.now ≤ 4 }
    ensures { MatchOption result (64 ≤ sum_by width_of sorts.now)
        (λ count. (sum_by width_of sorts.now < 64) × (count ≡ 2 ^ sum_by width_of sorts.now)) }
{
    let bits = bits_of(sorts);
    if bits < 64 { Some(1 << bits) } else { None }
}

/// The bits of inputs of these sorts together.
fn bits_of(sorts: &[Sort]) -> u32
    requires { length sorts.now ≤ 4 }
    ensures value { result ≡ sum_by width_of sorts.now }
    ensures small { result ≤ 1020 }
{
    let mut total: u32 = 0;
    for sort in sorts {
        total += u32::from(sort.width());
    }
    total
}

/// The value of a sort that a number stands for.
fn value_of(sort: Sort, number: u64) -> Value
    ensures { result ≡ value_numbered sort number }
{
    match sort {
        Sort::Bool => Value::Bool(number == 1),
        Sort::Bits(width) => Value::Bits { width, number },
        Sort::Mem => Value::Bool(false),
    }
}

/// The inputs under a number.
pub(crate) fn numbered(alloc: Global, sorts: &[Sort], number: u64) -> Result<Seq<Value>, AllocError>
    requires { sum_by width_of sorts.now < 64 }
    ensures { IfOk result (λ values. values ≡ inputs_numbered sorts.now number) }
{
    let mut values = Vec::with_capacity(alloc, sorts.len())?;
    let mut rest = number;
    for sort in sorts {
        let count: u64 = 1 << sort.width();
        values.push(value_of(*sort, rest % count))?;
        rest /= count;
    }
    Ok(Seq::from_vec(values))
}
