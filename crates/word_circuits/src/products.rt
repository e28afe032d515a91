//! Multiplication modulo 2^width.

ghost use Rattle.std.specs.Prelude.{◌≡◌, ℕ, ◌*◌, ◌%◌, ◌^◌, ◌≤◌, Bool, length, take, OnOk, IfOk, IfSome};
ghost use Rattle.circuit.specs.Signal.{signal_true, IsSignalOver};
ghost use Rattle.circuit.specs.Gate.{IsNetlist, Grows};
ghost use Rattle.word_circuits.specs.Digit.{IsDigitOf, with_digit};
ghost use Rattle.word_circuits.specs.Word.{bit, word_number, AreOver, IsWordOf};

use crate::bits::{constant, copied, select};
use crate::parts::moved_up;
use crate::sums::{difference, sum};
use circuit::{Circuit, Signal};
use collections::Seq;
use std::alloc::{AllocError, Global};

/// A signed digit of a number in base 2.
#[derive(Clone, Copy, Debug, PartialEq, Eq)]
pub(crate) enum Digit {
    Zero,
    One,
    MinusOne,
}

/// The number that a word is, where all of its bits are known.
fn number_of(word: &[Signal]) -> Option<u64>
    requires { length word.now ≤ 64 }
    ensures { IfSome result (λ n. (v : ℕ → Bool) → word_number v word.now ≡ n) }
{
    let mut number = 0;
    let mut place = word.len();
    while place > 0 {
        place -= 1;
        let Signal::Constant(bit) = word[place] else {
            return None;
        };
        number = number * 2 + u64::from(bit);
    }
    Some(number)
}

/// A place for each signal: constants first, then variables, each before its opposite.
fn key(signal: Signal) -> (bool, usize, bool) {
    match signal {
        Signal::Constant(value) => (false, 0, value),
        Signal::Literal(lit) => (true, lit.variable, !lit.positive),
    }
}

/// Whether the first word comes after the second in an order of words of one width, where no two stand at one place.
fn is_after(left: &[Signal], right: &[Signal]) -> bool
    requires { length right.now ≡ length left.now }
{
    for place in 0..left.len() {
        let (a, b) = (key(left[place]), key(right[place]));
        if a != b {
            return b < a;
        }
    }
    false
}

/// The lowest signed digit of a number, and the number that the others make. Of the digits so, no two beside each other
/// are both other than 0.
fn lowest_digit(number: u64) -> (Digit, u64)
    ensures { IsDigitOf number result.0 result.1 }
{
    if number % 2 == 0 {
        return (Digit::Zero, number / 2);
    }
    if number % 4 == 1 {
        return (Digit::One, number / 2);
    }
    (Digit::MinusOne, number / 2 + 1)
}

/// The word with a digit's multiple of a row added, modulo 2^width.
fn added_row(
    alloc: Global,
    circuit: &mut Circuit,
    word: &[Signal],
    row: &[Signal],
    digit: Digit,
) -> Result<Seq<Signal>, AllocError>
    requires netlist { IsNetlist circuit.old }
    requires word { AreOver circuit.old word.now }
    requires row { AreOver circuit.old row.now }
    requires width { length row.now ≡ length word.now }
    ensures grows { OnOk result (Grows circuit.old circuit.new) }
    ensures word { IfOk result (IsWordOf circuit.new (length word.now)
        (λ v. with_digit digit (2 ^ length word.now) (word_number v word.now) (word_number v row.now))) }
{
    match digit {
        Digit::Zero => copied(alloc, word),
        Digit::One => {
            let (result, _) = sum(alloc, circuit, word, row, Signal::Constant(false))?;
            Ok(result)
        }
        Digit::MinusOne => difference(alloc, circuit, word, row),
    }
}

/// The product of a word and a known number, modulo 2^width: an addition or a subtraction for each signed digit of the
/// number that isn't 0.
fn product_with(
    alloc: Global,
    circuit: &mut Circuit,
    word: &[Signal],
    number: u64,
) -> Result<Seq<Signal>, AllocError>
    requires netlist { IsNetlist circuit.old }
    requires word { AreOver circuit.old word.now }
    ensures grows { OnOk result (Grows circuit.old circuit.new) }
    ensures word { IfOk result (IsWordOf circuit.new (length word.now)
        (λ v. number * word_number v word.now % 2 ^ length word.now)) }
{
    let mut result = constant(alloc, word.len(), 0)?;
    let mut rest = number;
    for place in 0..word.len() {
        if rest == 0 {
            return Ok(result);
        }
        let (digit, left) = lowest_digit(rest);
        let row = moved_up(alloc, word, place)?;
        result = added_row(alloc, circuit, result.as_slice(), row.as_slice(), digit)?;
        rest = left;
    }
    Ok(result)
}

/// The word moved so many places up, modulo 2^width, where the condition holds, and else 0.
fn row_of(
    alloc: Global,
    circuit: &mut Circuit,
    word: &[Signal],
    place: usize,
    condition: Signal,
) -> Result<Seq<Signal>, AllocError>
    requires netlist { IsNetlist circuit.old }
    requires word { AreOver circuit.old word.now }
    requires within { place ≤ length word.now }
    requires condition { IsSignalOver (length circuit.old.gates) condition }
    ensures grows { OnOk result (Grows circuit.old circuit.new) }
    ensures word { IfOk result (IsWordOf circuit.new (length word.now)
        (λ v. word_number v word.now * (2 ^ place * bit (signal_true v condition)) % 2 ^ length word.now)) }
{
    let moved = moved_up(alloc, word, place)?;
    let zeros = constant(alloc, word.len(), 0)?;
    select(
        alloc,
        circuit,
        condition,
        moved.as_slice(),
        zeros.as_slice(),
    )
}

/// The product of two words, modulo 2^width: the rows of the second word's bits, added up.
fn product_of(
    alloc: Global,
    circuit: &mut Circuit,
    left: &[Signal],
    right: &[Signal],
) -> Result<Seq<Signal>, AllocError>
    requires netlist { IsNetlist circuit.old }
    requires left { AreOver circuit.old left.now }
    requires right { AreOver circuit.old right.now }
    requires width { length right.now ≡ length left.now }
    ensures grows { OnOk result (Grows circuit.old circuit.new) }
    ensures word { IfOk result (IsWordOf circuit.new (length left.now)
        (λ v. word_number v left.now * word_number v right.now % 2 ^ length left.now)) }
{
    let mut result = constant(alloc, left.len(), 0)?;
    for place in 0..right.len() {
        let row = row_of(alloc, circuit, left, place, right[place])?;
        result = added_row(
            alloc,
            circuit,
            result.as_slice(),
            row.as_slice(),
            Digit::One,
        )?;
    }
    Ok(result)
}

/// The product of two words of at most 64 bits, modulo 2^width. Their order has no part in the circuit. An `Err` is out
/// of memory, and leaves the circuit unusable.
pub fn product(
    alloc: Global,
    circuit: &mut Circuit,
    left: &[Signal],
    right: &[Signal],
) -> Result<Seq<Signal>, AllocError>
    requires netlist { IsNetlist circuit.old }
    requires left { AreOver circuit.old left.now }
    requires right { AreOver circuit.old right.now }
    requires width { length right.now ≡ length left.now }
    requires narrow { length left.now ≤ 64 }
    ensures grows { OnOk result (Grows circuit.old circuit.new) }
    ensures word { IfOk result (IsWordOf circuit.new (length left.now)
        (λ v. word_number v left.now * word_number v right.now % 2 ^ length left.now)) }
{
    if let Some(number) = number_of(left) {
        return product_with(alloc, circuit, right, number);
    }
    if let Some(number) = number_of(right) {
        return product_with(alloc, circuit, left, number);
    }
    if is_after(left, right) {
        return product_of(alloc, circuit, right, left);
    }
    product_of(alloc, circuit, left, right)
}
