//! Results of operations that are kept, so that an operation is evaluated once at inputs that come again and again:
//! each operation has a place for each of the first numbers of its inputs.

ghost use Rattle.std.specs.Prelude.{◌≡◌, ℕ, ◌+◌, ◌*◌, ◌^◌, ◌<◌, ◌⊎◌, List, Some, slice_get, slice_set, IfOk, IfSome};
ghost use Rattle.isel_spec.specs.declared.spec.Spec.{Spec};
ghost use Rattle.pattern_core.specs.Known.{width_of_value, number_of_value, number_of, IsPlaceOf, AreKnown};

use bv_terms::Value;
use collections::Seq;
use std::alloc::{AllocError, Global};

/// How many numbers have a place for each operation: those of 12 bits.
pub(crate) const MOST_NUMBERS: usize = 4096;

/// Places for a number of operations, with nothing kept yet.
pub(crate) fn nothing_known(
    alloc: Global,
    operations: usize,
) -> Result<Vec<Option<Seq<Value>>>, AllocError>
    ensures { (s : Spec) → IfOk result (λ known. AreKnown s known.items) }
{
    let count = operations.checked_mul(MOST_NUMBERS).ok_or(AllocError)?;
    let mut known = Vec::with_capacity(alloc, count)?;
    for _place in 0..count {
        known.push(None)?;
    }
    Ok(known)
}

/// The value above which values with that number stand: its bits are the lowest. `None` where the number has no place.
fn number_with(value: Value, above: u64) -> Option<u64>
    requires { above < MOST_NUMBERS }
    ensures { IfSome result (λ number.
        (number ≡ above * 2 ^ width_of_value value + number_of_value value) × (number < MOST_NUMBERS)) }
{
    let number = match value {
        Value::Bool(bit) => 2 * above + u64::from(bit),
        Value::Bits { number, .. } if above == 0 => number,
        Value::Bits { width, number } if width < 12 => (above << width).checked_add(number)?,
        Value::Bits { .. } => return None,
    };
    if number < MOST_NUMBERS as u64 {
        Some(number)
    } else {
        None
    }
}

/// The number of values: the bits of the first are the lowest. `None` where the number has no place.
fn number_of(values: &[Value]) -> Option<u64>
    ensures { IfSome result (λ number. (number ≡ number_of values.now) × (number < MOST_NUMBERS)) }
{
    let mut number = 0;
    for place in (0..values.len()).rev() {
        number = number_with(values[place], number)?;
    }
    Some(number)
}

/// The place of an operation's results at these values of its inputs. `None` where there is none.
pub(crate) fn place_of(operation: usize, values: &[Value]) -> Option<usize>
    requires { operation < 2 ^ 16 }
    ensures { IfSome result (IsPlaceOf operation values.now) }
{
    let number = number_of(values)?;
    Some(operation * MOST_NUMBERS + number as usize)
}

/// A copy of what is kept in a place.
pub(crate) fn kept(
    alloc: Global,
    known: &[Option<Seq<Value>>],
    place: usize,
) -> Result<Option<Vec<Value>>, AllocError>
    ensures { IfOk result (λ found. IfSome found (λ results. slice_get known.now place ≡ Some (Some results.items))) }
{
    let Some(Some(results)) = known.get(place) else {
        return Ok(None);
    };
    Ok(Some(Vec::from_slice(alloc, results.as_slice())?))
}

/// Keeps results in a place, where it is there.
pub(crate) fn keep(
    alloc: Global,
    known: &mut [Option<Seq<Value>>],
    place: usize,
    results: &[Value],
) -> Result<(), AllocError>
    ensures { (known.new ≡ known.old) ⊎ (known.new ≡ slice_set known.old place (Some results.now)) }
{
    if place >= known.len() {
        return Ok(());
    }
    let results = Vec::from_slice(alloc, results)?;
    known[place] = Some(Seq::from_vec(results));
    Ok(())
}
