//! Division with remainder. Division by 0 gives all ones, and the dividend as the remainder (SMT-LIB 2.6,
//! FixedSizeBitVectors): no case of its own is needed for it, since 0 goes into everything at each step.

ghost use Rattle.std.specs.Prelude.{◌≡◌, ◌+◌, ◌-◌, ◌*◌, ◌%◌, ◌^◌, ◌∷◌, nat_lt, nat_le, length, if◌then◌else◌};
ghost use Rattle.std.specs.Prelude.{OnOk, IfOk};
ghost use Rattle.circuit.specs.Signal.{signal_true, IsSignalOver};
ghost use Rattle.circuit.specs.Gate.{IsNetlist, Grows, IsSignalOf};
ghost use Rattle.bv_terms.specs.Words.{udiv, urem};
ghost use Rattle.word_circuits.specs.Word.{bit, word_number, AreOver, IsWordOf};

use crate::bits::{constant, copied, select};
use crate::parts::zero_extended;
use crate::sums::{difference, is_less};
use circuit::{Circuit, Signal};
use collections::Seq;
use std::alloc::{AllocError, Global};

/// The word with a bit below it.
fn with_bit(alloc: Global, bit: Signal, word: &[Signal]) -> Result<Seq<Signal>, AllocError>
    ensures { IfOk result (λ r. r ≡ bit ∷ word.now) }
{
    let mut result = Seq::new(alloc);
    result.push(bit)?;
    for place in 0..word.len() {
        result.push(word[place])?;
    }
    Ok(result)
}

/// Whether the second word goes into the first, and the first one less the second where it does.
fn reduced(
    alloc: Global,
    circuit: &mut Circuit,
    word: &[Signal],
    divisor: &[Signal],
) -> Result<(Signal, Seq<Signal>), AllocError>
    requires netlist { IsNetlist circuit.old }
    requires word { AreOver circuit.old word.now }
    requires divisor { AreOver circuit.old divisor.now }
    requires width { length divisor.now ≡ length word.now }
    ensures grows { OnOk result (Grows circuit.old circuit.new) }
    ensures digit { IfOk result (λ r. IsSignalOf circuit.new
        (λ v. nat_le (word_number v divisor.now) (word_number v word.now)) r.0) }
    ensures rest { IfOk result (λ r. IsWordOf circuit.new (length word.now)
        (λ v. if nat_le (word_number v divisor.now) (word_number v word.now)
        then word_number v word.now - word_number v divisor.now else word_number v word.now) r.1) }
{
    let less = is_less(alloc, circuit, word, divisor)?;
    let left = difference(alloc, circuit, word, divisor)?;
    let rest = select(alloc, circuit, less, word, left.as_slice())?;
    Ok((less.opposite(), rest))
}

/// A digit of the quotient, and the remainder from it on, of the remainder before it and the dividend's next bit. The
/// divisor is one bit wider than the remainders.
fn digit_of(
    alloc: Global,
    circuit: &mut Circuit,
    bit: Signal,
    rest: &[Signal],
    divisor: &[Signal],
) -> Result<(Signal, Seq<Signal>), AllocError>
    requires netlist { IsNetlist circuit.old }
    requires bit { IsSignalOver (length circuit.old.gates) bit }
    requires rest { AreOver circuit.old rest.now }
    requires divisor { AreOver circuit.old divisor.now }
    requires width { length divisor.now ≡ length rest.now + 1 }
    ensures grows { OnOk result (Grows circuit.old circuit.new) }
    ensures digit { IfOk result (λ r. IsSignalOf circuit.new
        (λ v. nat_le (word_number v divisor.now) (word_number v (bit ∷ rest.now))) r.0) }
    ensures rest { IfOk result (λ r. IsWordOf circuit.new (length rest.now)
        (λ v. (if nat_le (word_number v divisor.now) (word_number v (bit ∷ rest.now))
        then word_number v (bit ∷ rest.now) - word_number v divisor.now else word_number v (bit ∷ rest.now))
        % 2 ^ length rest.now) r.1) }
{
    let next = with_bit(alloc, bit, rest)?;
    let (digit, wider) = reduced(alloc, circuit, next.as_slice(), divisor)?;
    let rest = copied(alloc, &wider.as_slice()[..rest.len()])?;
    Ok((digit, rest))
}

/// The quotient and the remainder of two words as numbers. An `Err` is out of memory, and leaves the circuit unusable.
pub fn division(
    alloc: Global,
    circuit: &mut Circuit,
    dividend: &[Signal],
    divisor: &[Signal],
) -> Result<(Seq<Signal>, Seq<Signal>), AllocError>
    requires netlist { IsNetlist circuit.old }
    requires dividend { AreOver circuit.old dividend.now }
    requires divisor { AreOver circuit.old divisor.now }
    requires width { length divisor.now ≡ length dividend.now }
    ensures grows { OnOk result (Grows circuit.old circuit.new) }
    ensures quotient { IfOk result (λ r. IsWordOf circuit.new (length dividend.now)
        (λ v. udiv (length dividend.now) (word_number v dividend.now) (word_number v divisor.now)) r.0) }
    ensures rest { IfOk result (λ r. IsWordOf circuit.new (length dividend.now)
        (λ v. urem (word_number v dividend.now) (word_number v divisor.now)) r.1) }
{
    let wide = zero_extended(alloc, divisor, 1)?;
    let mut quotient = Seq::new(alloc);
    let mut rest = constant(alloc, dividend.len(), 0)?;
    let mut place = dividend.len();
    while place > 0 {
        place -= 1;
        let bit = dividend[place];
        let (digit, left) = digit_of(alloc, circuit, bit, rest.as_slice(), wide.as_slice())?;
        quotient = with_bit(alloc, digit, quotient.as_slice())?;
        rest = left;
    }
    Ok((quotient, rest))
}
