//! The word of an operation over words that are there.

ghost use Rattle.std.specs.Prelude.{◌≡◌, ◌≤◌, ℕ, [], ◌∷◌, true, length, OnOk, IfOk};
ghost use Rattle.bv_terms.specs.declared.value.Sort.{Sort};
ghost use Rattle.bv_terms.specs.declared.value.Value.TheVariants as val;
ghost use Rattle.bv_terms.specs.Term.{op_value};
ghost use Rattle.circuit.specs.Signal.{signal_true, IsSignalOver};
ghost use Rattle.circuit.specs.Gate.{Netlist, IsNetlist, Grows, IsSignalOf};
ghost use Rattle.word_circuits.specs.Word.{word_number, AreOver};
ghost use Rattle.bit_blast.specs.Words.{Widens};
ghost use Rattle.bit_blast.specs.Parts.{is_true};
ghost use Rattle.bit_blast.specs.Operations.{MayStand, IsOpWord, IsInputWord, IsBitOfInput, IsArithmetic};
ghost use Rattle.bit_blast.specs.Operations.{is_connective, is_comparison, is_shift, is_arithmetic};

use bv_terms::Op;
use circuit::{Circuit, Signal};
use collections::Seq;
use std::alloc::{AllocError, Global};
use word_circuits::{
    BitFunction, constant, copied, difference, division, equal, inverted, is_less, is_signed_less,
    joined, negated, part, product, select, shifted_left, shifted_right, shifted_right_signed,
    sign_extended, sum, zero_extended, zip,
};

/// The bits of an input.
pub(crate) fn input_word(
    alloc: Global,
    circuit: &mut Circuit,
    number: u32,
    width: u8,
) -> Result<Seq<Signal>, AllocError>
    requires { IsNetlist circuit.old }
    ensures widens { OnOk result (Widens (IsBitOfInput number width) circuit.old circuit.new) }
    ensures word { IfOk result (IsInputWord circuit.new number width) }
{
    let mut word = Seq::new(alloc);
    for bit in 0..width {
        let signal = circuit.input(alloc, number, bit)?;
        word.push(signal)?;
    }
    Ok(word)
}

/// The bits of a constant.
pub(crate) fn constant_word(alloc: Global, op: Op) -> Result<Seq<Signal>, AllocError>
    requires stands { MayStand op [] }
    requires constant { (number : ℕ) (s : Sort) → op ≡ Op.Input number s → ⊥ }
    ensures { IfOk result (λ word. (n : Netlist) → IsOpWord n op [] word) }
{
    match op {
        Op::Bool { value } => copied(alloc, &[Signal::Constant(value)]),
        Op::Bits { width, number } => constant(alloc, usize::from(width), number),
        _ => unreachable!(),
    }
}

/// An operation over one word.
pub(crate) fn of_one(
    alloc: Global,
    circuit: &mut Circuit,
    op: Op,
    word: &[Signal],
) -> Result<Seq<Signal>, AllocError>
    requires netlist { IsNetlist circuit.old }
    requires word { AreOver circuit.old word.now }
    requires stands { MayStand op (word.now ∷ []) }
    ensures grows { OnOk result (Grows circuit.old circuit.new) }
    ensures word { IfOk result (IsOpWord circuit.new op (word.now ∷ [])) }
{
    match op {
        Op::Not | Op::BvNot => inverted(alloc, word),
        Op::BvNeg => negated(alloc, circuit, word),
        Op::Extract { high, low } => part(alloc, word, usize::from(low), usize::from(high)),
        Op::ZeroExtend { by } => zero_extended(alloc, word, usize::from(by)),
        Op::SignExtend { by } => sign_extended(alloc, word, usize::from(by)),
        _ => unreachable!(),
    }
}

/// An operation over two words.
pub(crate) fn of_two(
    alloc: Global,
    circuit: &mut Circuit,
    op: Op,
    left: &[Signal],
    right: &[Signal],
) -> Result<Seq<Signal>, AllocError>
    requires netlist { IsNetlist circuit.old }
    requires left { AreOver circuit.old left.now }
    requires right { AreOver circuit.old right.now }
    requires stands { MayStand op (left.now ∷ right.now ∷ []) }
    ensures grows { OnOk result (Grows circuit.old circuit.new) }
    ensures word { IfOk result (IsOpWord circuit.new op (left.now ∷ right.now ∷ [])) }
{
    match op {
        Op::Concat => joined(alloc, left, right),
        Op::And | Op::Or | Op::Xor | Op::Implies => {
            let signal = connective(alloc, circuit, op, left[0], right[0])?;
            copied(alloc, &[signal])
        }
        Op::Eq | Op::BvUlt | Op::BvUle | Op::BvSlt | Op::BvSle => {
            let signal = compared(alloc, circuit, op, left, right)?;
            copied(alloc, &[signal])
        }
        Op::BvShl | Op::BvLshr | Op::BvAshr => moved(alloc, circuit, op, left, right),
        _ => arithmetic(alloc, circuit, op, left, right),
    }
}

/// A connective of two truth values.
fn connective(
    alloc: Global,
    circuit: &mut Circuit,
    op: Op,
    left: Signal,
    right: Signal,
) -> Result<Signal, AllocError>
    requires netlist { IsNetlist circuit.old }
    requires left { IsSignalOver (length circuit.old.gates) left }
    requires right { IsSignalOver (length circuit.old.gates) right }
    requires op { is_connective op ≡ true }
    ensures grows { OnOk result (Grows circuit.old circuit.new) }
    ensures value { IfOk result (IsSignalOf circuit.new (λ v. is_true (op_value [] op
        (val.Bool (signal_true v left) ∷ val.Bool (signal_true v right) ∷ [])))) }
{
    match op {
        Op::And => circuit.and(alloc, left, right),
        Op::Or => circuit.or(alloc, left, right),
        Op::Xor => circuit.xor(alloc, left, right),
        Op::Implies => circuit.or(alloc, left.opposite(), right),
        _ => unreachable!(),
    }
}

/// A comparison of two words.
fn compared(
    alloc: Global,
    circuit: &mut Circuit,
    op: Op,
    left: &[Signal],
    right: &[Signal],
) -> Result<Signal, AllocError>
    requires netlist { IsNetlist circuit.old }
    requires left { AreOver circuit.old left.now }
    requires right { AreOver circuit.old right.now }
    requires width { length right.now ≡ length left.now }
    requires some { 1 ≤ length left.now }
    requires op { is_comparison op ≡ true }
    ensures grows { OnOk result (Grows circuit.old circuit.new) }
    ensures value { IfOk result (IsSignalOf circuit.new (λ v. is_true (op_value [] op
        (val.Bits (length left.now) (word_number v left.now)
        ∷ val.Bits (length left.now) (word_number v right.now) ∷ [])))) }
{
    match op {
        Op::Eq => equal(alloc, circuit, left, right),
        Op::BvUlt => is_less(alloc, circuit, left, right),
        Op::BvUle => {
            let more = is_less(alloc, circuit, right, left)?;
            Ok(more.opposite())
        }
        Op::BvSlt => is_signed_less(alloc, circuit, left, right),
        Op::BvSle => {
            let more = is_signed_less(alloc, circuit, right, left)?;
            Ok(more.opposite())
        }
        _ => unreachable!(),
    }
}

/// A word shifted by a word.
fn moved(
    alloc: Global,
    circuit: &mut Circuit,
    op: Op,
    left: &[Signal],
    right: &[Signal],
) -> Result<Seq<Signal>, AllocError>
    requires netlist { IsNetlist circuit.old }
    requires left { AreOver circuit.old left.now }
    requires right { AreOver circuit.old right.now }
    requires width { length right.now ≡ length left.now }
    requires some { 1 ≤ length left.now }
    requires narrow { length left.now ≤ 64 }
    requires op { is_shift op ≡ true }
    ensures grows { OnOk result (Grows circuit.old circuit.new) }
    ensures word { IfOk result (IsArithmetic circuit.new op left.now right.now) }
{
    match op {
        Op::BvShl => shifted_left(alloc, circuit, left, right),
        Op::BvLshr => shifted_right(alloc, circuit, left, right),
        Op::BvAshr => shifted_right_signed(alloc, circuit, left, right),
        _ => unreachable!(),
    }
}

/// Two words joined bit by bit, or their sum, difference, product, quotient or remainder. The quotient and the
/// remainder
/// of the same words share their gates, as equal gates are one.
fn arithmetic(
    alloc: Global,
    circuit: &mut Circuit,
    op: Op,
    left: &[Signal],
    right: &[Signal],
) -> Result<Seq<Signal>, AllocError>
    requires netlist { IsNetlist circuit.old }
    requires left { AreOver circuit.old left.now }
    requires right { AreOver circuit.old right.now }
    requires width { length right.now ≡ length left.now }
    requires narrow { length left.now ≤ 64 }
    requires op { is_arithmetic op ≡ true }
    ensures grows { OnOk result (Grows circuit.old circuit.new) }
    ensures word { IfOk result (IsArithmetic circuit.new op left.now right.now) }
{
    match op {
        Op::BvAnd => zip(alloc, circuit, BitFunction::And, left, right),
        Op::BvOr => zip(alloc, circuit, BitFunction::Or, left, right),
        Op::BvXor => zip(alloc, circuit, BitFunction::Xor, left, right),
        Op::BvAdd => Ok(sum(alloc, circuit, left, right, Signal::Constant(false))?.0),
        Op::BvSub => difference(alloc, circuit, left, right),
        Op::BvMul => product(alloc, circuit, left, right),
        Op::BvUdiv => Ok(division(alloc, circuit, left, right)?.0),
        Op::BvUrem => Ok(division(alloc, circuit, left, right)?.1),
        _ => unreachable!(),
    }
}

/// The second word where the first one is true, and else the third.
pub(crate) fn of_three(
    alloc: Global,
    circuit: &mut Circuit,
    op: Op,
    condition: &[Signal],
    chosen: &[Signal],
    otherwise: &[Signal],
) -> Result<Seq<Signal>, AllocError>
    requires netlist { IsNetlist circuit.old }
    requires condition { AreOver circuit.old condition.now }
    requires chosen { AreOver circuit.old chosen.now }
    requires otherwise { AreOver circuit.old otherwise.now }
    requires stands { MayStand op (condition.now ∷ chosen.now ∷ otherwise.now ∷ []) }
    ensures grows { OnOk result (Grows circuit.old circuit.new) }
    ensures word { IfOk result (IsOpWord circuit.new op (condition.now ∷ chosen.now ∷ otherwise.now ∷ [])) }
{
    match op {
        Op::Ite => select(alloc, circuit, condition[0], chosen, otherwise),
        _ => unreachable!(),
    }
}
