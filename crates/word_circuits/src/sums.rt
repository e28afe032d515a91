//! Addition, subtraction and order, each by one chain of carries.

ghost use Rattle.std.specs.Prelude.{◌≡◌, ◌+◌, ◌-◌, ◌%◌, ◌^◌, ◌≤◌, nat_lt, nat_le, length, OnOk, IfOk};
ghost use Rattle.circuit.specs.Signal.{signal_true, IsSignalOver};
ghost use Rattle.circuit.specs.Gate.{majority, parity, IsNetlist, Grows, IsSignalOf};
ghost use Rattle.bv_terms.specs.Words.{slt};
ghost use Rattle.word_circuits.specs.Word.{bit, word_number, AreOver, IsWordOf};

use crate::bits::{constant, inverted};
use circuit::{Circuit, Signal};
use collections::Seq;
use std::alloc::{AllocError, Global};

/// The sum and the carry of two bits and a carry.
fn full_adder(
    alloc: Global,
    circuit: &mut Circuit,
    a: Signal,
    b: Signal,
    carry: Signal,
) -> Result<(Signal, Signal), AllocError>
    requires netlist { IsNetlist circuit.old }
    requires a { IsSignalOver (length circuit.old.gates) a }
    requires b { IsSignalOver (length circuit.old.gates) b }
    requires carry { IsSignalOver (length circuit.old.gates) carry }
    ensures grows { OnOk result (Grows circuit.old circuit.new) }
    ensures sum { IfOk result (λ r. IsSignalOf circuit.new
        (λ v. parity (signal_true v a) (signal_true v b) (signal_true v carry)) r.0) }
    ensures carry { IfOk result (λ r. IsSignalOf circuit.new
        (λ v. majority (signal_true v a) (signal_true v b) (signal_true v carry)) r.1) }
{
    let bit = circuit.parity(alloc, a, b, carry)?;
    let carry_out = circuit.majority(alloc, a, b, carry)?;
    Ok((bit, carry_out))
}

/// The sum of two words and a carry modulo 2^width, and the carry out of its highest bit. An `Err`, here and below, is
/// out of memory, and leaves the circuit unusable.
pub fn sum(
    alloc: Global,
    circuit: &mut Circuit,
    left: &[Signal],
    right: &[Signal],
    carry: Signal,
) -> Result<(Seq<Signal>, Signal), AllocError>
    requires netlist { IsNetlist circuit.old }
    requires left { AreOver circuit.old left.now }
    requires right { AreOver circuit.old right.now }
    requires carry { IsSignalOver (length circuit.old.gates) carry }
    requires width { length right.now ≡ length left.now }
    ensures grows { OnOk result (Grows circuit.old circuit.new) }
    ensures word { IfOk result (λ r. IsWordOf circuit.new (length left.now)
        (λ v. (word_number v left.now + word_number v right.now + bit (signal_true v carry)) % 2 ^ length left.now)
        r.0) }
    ensures carry { IfOk result (λ r. IsSignalOf circuit.new
        (λ v. nat_le (2 ^ length left.now)
        (word_number v left.now + word_number v right.now + bit (signal_true v carry)))
        r.1) }
{
    let mut carry = carry;
    let mut result = Seq::new(alloc);
    for place in 0..left.len() {
        let (bit, carry_out) = full_adder(alloc, circuit, left[place], right[place], carry)?;
        result.push(bit)?;
        carry = carry_out;
    }
    Ok((result, carry))
}

/// The first word less the second, modulo 2^width.
pub fn difference(
    alloc: Global,
    circuit: &mut Circuit,
    left: &[Signal],
    right: &[Signal],
) -> Result<Seq<Signal>, AllocError>
    requires netlist { IsNetlist circuit.old }
    requires left { AreOver circuit.old left.now }
    requires right { AreOver circuit.old right.now }
    requires width { length right.now ≡ length left.now }
    ensures grows { OnOk result (Grows circuit.old circuit.new) }
    ensures word { IfOk result (IsWordOf circuit.new (length left.now)
        (λ v. (word_number v left.now + (2 ^ length left.now - word_number v right.now)) % 2 ^ length left.now)) }
{
    let opposite = inverted(alloc, right)?;
    let (result, _) = sum(
        alloc,
        circuit,
        left,
        opposite.as_slice(),
        Signal::Constant(true),
    )?;
    Ok(result)
}

/// 0 less the word, modulo 2^width.
pub fn negated(
    alloc: Global,
    circuit: &mut Circuit,
    word: &[Signal],
) -> Result<Seq<Signal>, AllocError>
    requires netlist { IsNetlist circuit.old }
    requires word { AreOver circuit.old word.now }
    ensures grows { OnOk result (Grows circuit.old circuit.new) }
    ensures word { IfOk result (IsWordOf circuit.new (length word.now)
        (λ v. (2 ^ length word.now - word_number v word.now) % 2 ^ length word.now)) }
{
    let zero = constant(alloc, word.len(), 0)?;
    difference(alloc, circuit, zero.as_slice(), word)
}

/// Whether the first word is less than the second, as numbers: the borrow of their difference.
pub fn is_less(
    alloc: Global,
    circuit: &mut Circuit,
    left: &[Signal],
    right: &[Signal],
) -> Result<Signal, AllocError>
    requires netlist { IsNetlist circuit.old }
    requires left { AreOver circuit.old left.now }
    requires right { AreOver circuit.old right.now }
    requires width { length right.now ≡ length left.now }
    ensures grows { OnOk result (Grows circuit.old circuit.new) }
    ensures value { IfOk result (IsSignalOf circuit.new
        (λ v. nat_lt (word_number v left.now) (word_number v right.now))) }
{
    let mut borrow = Signal::Constant(false);
    for place in 0..left.len() {
        borrow = circuit.majority(alloc, left[place].opposite(), right[place], borrow)?;
    }
    Ok(borrow)
}

/// The same in two's complement: the highest bits change their parts.
pub fn is_signed_less(
    alloc: Global,
    circuit: &mut Circuit,
    left: &[Signal],
    right: &[Signal],
) -> Result<Signal, AllocError>
    requires netlist { IsNetlist circuit.old }
    requires left { AreOver circuit.old left.now }
    requires right { AreOver circuit.old right.now }
    requires width { length right.now ≡ length left.now }
    requires signed { 1 ≤ length left.now }
    ensures grows { OnOk result (Grows circuit.old circuit.new) }
    ensures value { IfOk result (IsSignalOf circuit.new
        (λ v. slt (length left.now) (word_number v left.now) (word_number v right.now))) }
{
    let high = left.len() - 1;
    let borrow = is_less(alloc, circuit, &left[..high], &right[..high])?;
    circuit.majority(alloc, left[high], right[high].opposite(), borrow)
}
