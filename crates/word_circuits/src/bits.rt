//! Words bit by bit.

ghost use Rattle.std.specs.Prelude.{◌≡◌, ◌-◌, ◌%◌, ◌^◌, ◌==◌, ◌&&◌, length, if◌then◌else◌, OnOk, IfOk};
ghost use Rattle.std.specs.Bool.{beq};
ghost use Rattle.circuit.specs.Signal.{signal_true, IsSignalOver};
ghost use Rattle.circuit.specs.Gate.{Netlist, IsNetlist, Grows, IsSignalOf};
ghost use Rattle.word_circuits.specs.Word.{word_number, AreOver, IsWordOf, at_each_bit, of_bits};

use circuit::{Circuit, Signal};
use collections::Seq;
use std::alloc::{AllocError, Global};

/// A function of two signals.
#[derive(Clone, Copy, Debug, PartialEq, Eq)]
pub enum BitFunction {
    And,
    Or,
    Xor,
}

/// The number modulo 2^width as a word of that width. An `Err`, here and below, is out of memory; where the call takes
/// a circuit, that is then unusable.
pub fn constant(alloc: Global, width: usize, number: u64) -> Result<Seq<Signal>, AllocError>
    ensures { IfOk result (λ r. (n : Netlist) → IsWordOf n width (λ v. number % 2 ^ width) r) }
{
    let mut word = Seq::new(alloc);
    let mut rest = number;
    for _place in 0..width {
        word.push(Signal::Constant(rest % 2 == 1))?;
        rest /= 2;
    }
    Ok(word)
}

/// A copy of a word.
pub fn copied(alloc: Global, word: &[Signal]) -> Result<Seq<Signal>, AllocError>
    ensures { IfOk result (λ r. r ≡ word.now) }
{
    Ok(Seq::from_vec(Vec::from_slice(alloc, word)?))
}

/// Each bit inverted.
pub fn inverted(alloc: Global, word: &[Signal]) -> Result<Seq<Signal>, AllocError>
    ensures { IfOk result (λ r. (n : Netlist) → AreOver n word.now
        → IsWordOf n (length word.now) (λ v. 2 ^ length word.now - 1 - word_number v word.now) r) }
{
    let mut result = Seq::new(alloc);
    for place in 0..word.len() {
        result.push(word[place].opposite())?;
    }
    Ok(result)
}

/// Two bits joined.
fn joined_bits(
    alloc: Global,
    circuit: &mut Circuit,
    function: BitFunction,
    a: Signal,
    b: Signal,
) -> Result<Signal, AllocError>
    requires netlist { IsNetlist circuit.old }
    requires a { IsSignalOver (length circuit.old.gates) a }
    requires b { IsSignalOver (length circuit.old.gates) b }
    ensures grows { OnOk result (Grows circuit.old circuit.new) }
    ensures value { IfOk result (IsSignalOf circuit.new
        (λ v. of_bits function (signal_true v a) (signal_true v b))) }
{
    match function {
        BitFunction::And => circuit.and(alloc, a, b),
        BitFunction::Or => circuit.or(alloc, a, b),
        BitFunction::Xor => circuit.xor(alloc, a, b),
    }
}

/// Two words joined bit by bit.
pub fn zip(
    alloc: Global,
    circuit: &mut Circuit,
    function: BitFunction,
    left: &[Signal],
    right: &[Signal],
) -> Result<Seq<Signal>, AllocError>
    requires netlist { IsNetlist circuit.old }
    requires left { AreOver circuit.old left.now }
    requires right { AreOver circuit.old right.now }
    requires width { length right.now ≡ length left.now }
    ensures grows { OnOk result (Grows circuit.old circuit.new) }
    ensures word { IfOk result (IsWordOf circuit.new (length left.now)
        (λ v. at_each_bit function (word_number v left.now) (word_number v right.now))) }
{
    let mut result = Seq::new(alloc);
    for place in 0..left.len() {
        result.push(joined_bits(alloc, circuit, function, left[place], right[place])?)?;
    }
    Ok(result)
}

/// The second word where the condition holds, and else the third.
pub fn select(
    alloc: Global,
    circuit: &mut Circuit,
    condition: Signal,
    chosen: &[Signal],
    otherwise: &[Signal],
) -> Result<Seq<Signal>, AllocError>
    requires netlist { IsNetlist circuit.old }
    requires condition { IsSignalOver (length circuit.old.gates) condition }
    requires chosen { AreOver circuit.old chosen.now }
    requires otherwise { AreOver circuit.old otherwise.now }
    requires width { length otherwise.now ≡ length chosen.now }
    ensures grows { OnOk result (Grows circuit.old circuit.new) }
    ensures word { IfOk result (IsWordOf circuit.new (length chosen.now)
        (λ v. if signal_true v condition then word_number v chosen.now else word_number v otherwise.now)) }
{
    let mut result = Seq::new(alloc);
    for place in 0..chosen.len() {
        result.push(circuit.choice(alloc, condition, chosen[place], otherwise[place])?)?;
    }
    Ok(result)
}

/// Whether two bits are equal, and the bits so far were.
fn equal_bits(
    alloc: Global,
    circuit: &mut Circuit,
    before: Signal,
    a: Signal,
    b: Signal,
) -> Result<Signal, AllocError>
    requires netlist { IsNetlist circuit.old }
    requires before { IsSignalOver (length circuit.old.gates) before }
    requires a { IsSignalOver (length circuit.old.gates) a }
    requires b { IsSignalOver (length circuit.old.gates) b }
    ensures grows { OnOk result (Grows circuit.old circuit.new) }
    ensures value { IfOk result (IsSignalOf circuit.new
        (λ v. signal_true v before && beq (signal_true v a) (signal_true v b))) }
{
    let differ = circuit.xor(alloc, a, b)?;
    circuit.and(alloc, before, differ.opposite())
}

/// Whether both words are equal.
pub fn equal(
    alloc: Global,
    circuit: &mut Circuit,
    left: &[Signal],
    right: &[Signal],
) -> Result<Signal, AllocError>
    requires netlist { IsNetlist circuit.old }
    requires left { AreOver circuit.old left.now }
    requires right { AreOver circuit.old right.now }
    requires width { length right.now ≡ length left.now }
    ensures grows { OnOk result (Grows circuit.old circuit.new) }
    ensures value { IfOk result (IsSignalOf circuit.new
        (λ v. word_number v left.now == word_number v right.now)) }
{
    let mut result = Signal::Constant(true);
    for place in 0..left.len() {
        result = equal_bits(alloc, circuit, result, left[place], right[place])?;
    }
    Ok(result)
}
