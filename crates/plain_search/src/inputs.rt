//! The inputs of some sorts and their numbers: the bits of the first input are the lowest of a
//! number, and each choice of inputs has one number below 2 to the power of their widths' sum.

ghost use Rattle.std.specs.Prelude.{◌≡◌, ◌<◌, ◌^◌, sum_by, IfOk};
ghost use Rattle.bv_terms.specs.Sorts.{width_of};
ghost use Rattle.plain_search.specs.Inputs.{value_numbered, inputs_numbered};

use bv_terms::{Env, Sort, Value};
use collections::Seq;
use std::alloc::{AllocError, Global};

/// How many choices of inputs of these sorts there are.
pub fn count_of(sorts: &[Sort]) -> u64
    requires { sum_by width_of sorts.now < 64 }
    ensures { result ≡ 2 ^ sum_by width_of sorts.now }
{
    let mut total: u32 = 0;
    for sort in sorts {
        total += u32::from(sort.width());
    }
    1 << total
}

/// The value of a sort that a number stands for.
fn value_of(sort: Sort, number: u64) -> Value
    ensures { result ≡ value_numbered sort number }
{
    match sort {
        Sort::Bool => Value::Bool(number == 1),
        Sort::Bits(width) => Value::Bits { width, number },
        Sort::Mem => Value::Bool(false),
    }
}

/// The inputs under a number.
pub fn inputs_of(alloc: Global, sorts: &[Sort], number: u64) -> Result<Env, AllocError>
    requires { sum_by width_of sorts.now < 64 }
    ensures { IfOk result (λ env. env.values ≡ inputs_numbered sorts.now number) }
{
    let mut values = Vec::with_capacity(alloc, sorts.len())?;
    let mut rest = number;
    for sort in sorts {
        let count: u64 = 1 << sort.width();
        values.push(value_of(*sort, rest % count))?;
        rest /= count;
    }
    Ok(Env {
        values: Seq::from_vec(values),
    })
}
