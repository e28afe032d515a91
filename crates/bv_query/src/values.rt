//! The inputs' values that a model of the clauses gives, bit by bit.

ghost use Rattle.std.specs.Prelude.{◌≡◌, ◌<◌, All, IfOk, slice_set};
ghost use Rattle.cnf_core.specs.Clause.{assigned};
ghost use Rattle.bv_query.specs.Values.{zero_of, room_for, zeros, with_bit, with_bits, value_at, values_of};

use bv_terms::{Sort, Value};
use std::alloc::{AllocError, Global};

/// The values of the inputs, by number, whose bits are listed with their variables, where the variables have the
/// model's values. A place of no input has the value false. An `Err` is out of memory.
pub(crate) fn values_of(
    alloc: Global,
    inputs: &[(u32, Sort)],
    bits: &[(u32, u8, usize)],
    model: &[bool],
) -> Result<Vec<Value>, AllocError>
    requires { All (λ b. b.1 < 64) bits.now }
    ensures { IfOk result (λ values. values.items ≡ values_of inputs.now bits.now model.now) }
{
    let mut values = zeros(alloc, inputs)?;
    set_bits(&mut values, bits, model);
    Ok(values)
}

/// The value 0 for each input, and false in the places between.
fn zeros(alloc: Global, inputs: &[(u32, Sort)]) -> Result<Vec<Value>, AllocError>
    ensures { IfOk result (λ values. values.items ≡ zeros inputs.now) }
{
    let mut values = vec![in alloc; Value::Bool(false); room(inputs)]?;
    for (number, sort) in inputs {
        put(&mut values, *number as usize, zero(*sort));
    }
    Ok(values)
}

/// One more than the greatest number of an input.
fn room(inputs: &[(u32, Sort)]) -> usize
    ensures { result ≡ room_for inputs.now }
{
    let mut room = 0;
    for (number, _) in inputs {
        room = room.max(*number as usize + 1);
    }
    room
}

/// The value of a sort whose bits are all 0.
fn zero(sort: Sort) -> Value
    ensures { result ≡ zero_of sort }
{
    match sort {
        Sort::Bool => Value::Bool(false),
        Sort::Bits(width) => Value::Bits { width, number: 0 },
        Sort::Mem => Value::Bool(false),
    }
}

/// Makes those listed bits 1 whose variables are true.
fn set_bits(values: &mut [Value], bits: &[(u32, u8, usize)], model: &[bool])
    requires { All (λ b. b.1 < 64) bits.now }
    ensures { values.new ≡ with_bits (assigned model.now) values.old bits.now }
{
    for (number, bit, variable) in bits {
        if is_true(model, *variable) {
            let place = *number as usize;
            let value = with_bit(get(values, place), *bit);
            put(values, place, value);
        }
    }
}

/// The value with that bit 1. A truth value has one bit.
fn with_bit(value: Value, bit: u8) -> Value
    requires { bit < 64 }
    ensures { result ≡ with_bit value bit }
{
    match value {
        Value::Bool(_) => Value::Bool(true),
        Value::Bits { width, number } => Value::Bits {
            width,
            number: number | (1 << bit),
        },
    }
}

/// The value in a place, and false past the end.
fn get(values: &[Value], place: usize) -> Value
    ensures { result ≡ value_at values.now place }
{
    match values.get(place) {
        Some(value) => *value,
        None => Value::Bool(false),
    }
}

/// Puts a value into a place, if it is there.
fn put(values: &mut [Value], place: usize, value: Value)
    ensures { values.new ≡ slice_set values.old place value }
{
    if place < values.len() {
        values[place] = value;
    }
}

/// Whether a variable is true.
fn is_true(model: &[bool], variable: usize) -> bool
    ensures { result ≡ assigned model.now variable }
{
    match model.get(variable) {
        Some(value) => *value,
        None => false,
    }
}
