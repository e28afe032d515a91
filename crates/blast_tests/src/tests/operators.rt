//! Each operator at 1 to 4 bits, at all arguments: with the arguments and the result fixed, a model exists exactly
//! where the result is the operator's value.

ghost use Rattle.std.specs.Prelude.{◌≤◌, ◌<◌, length, All, IfOk};

use super::models::has_model_at;
use super::values::{value_of_one, value_of_truths, value_of_two};
use bit_blast::{Blasted, blast, is_formula};
use bv_terms::{Op, Sort, TermId, Terms};
use std::alloc::{AllocError, Global};
use std::test::Fail;

/// An input, or what an operation gives over nodes. An `Err` is out of memory, or that it may not stand over them.
pub(crate) fn made(terms: &mut Terms, op: Op, args: &[TermId]) -> Result<TermId, AllocError>
    requires { All (λ at. at.0 < length terms.old.nodes) args.now }
    ensures there { IfOk result (λ at. at.0 < length terms.new.nodes) }
    ensures longer { length terms.old.nodes ≤ length terms.new.nodes }
{
    match terms.make(op, args) {
        Ok(at) => Ok(at),
        Err(_) => Err(AllocError),
    }
}

/// The number of the input that is the result.
const RESULT: u32 = 3;

/// What an operation gives over inputs of these sorts, numbered from 0.
fn over_inputs(
    alloc: Global,
    terms: &mut Terms,
    op: Op,
    sorts: &[Sort],
) -> Result<TermId, AllocError>
    requires { length sorts.now ≤ 3 }
    ensures { IfOk result (λ at. at.0 < length terms.new.nodes) }
{
    let mut args = Vec::new(alloc);
    for place in 0..sorts.len() {
        let number = place as u32;
        let sort = sorts[place];
        args.push(made(terms, Op::Input { number, sort }, &[])?)?;
    }
    made(terms, op, &args)
}

/// The clauses of an equation: the last input is what an operation gives over inputs of these sorts.
fn equation(alloc: Global, op: Op, sorts: &[Sort], sort: Sort) -> Result<Blasted, AllocError>
    requires { length sorts.now ≤ 3 }
{
    let mut terms = Terms::new(alloc, 64);
    let at = over_inputs(alloc, &mut terms, op, sorts)?;
    let last = made(
        &mut terms,
        Op::Input {
            number: RESULT,
            sort,
        },
        &[],
    )?;
    let formula = made(&mut terms, Op::Eq, &[last, at])?;
    if !is_formula(alloc, &terms, formula)? {
        return Err(AllocError);
    }
    blast(alloc, &terms, formula)
}

/// Whether a model exists for the value in the place of the result, and none where one bit of it is turned.
fn is_value(
    alloc: Global,
    blasted: &Blasted,
    arguments: [u64; 3],
    value: u64,
    width: u8,
) -> Result<bool, AllocError> {
    let [first, second, third] = arguments;
    if !has_model_at(alloc, blasted, &[first, second, third, value])? {
        return Ok(false);
    }
    for place in 0..width.min(63) {
        if has_model_at(
            alloc,
            blasted,
            &[first, second, third, value ^ (1 << place)],
        )? {
            return Ok(false);
        }
    }
    Ok(true)
}

/// Whether an operation over two words has its values alone, at all words of that width.
fn is_right(alloc: Global, op: Op, width: u8) -> Result<bool, AllocError> {
    let word = Sort::Bits(width);
    let found = match op {
        Op::BvUlt | Op::BvUle | Op::BvSlt | Op::BvSle | Op::Eq => Sort::Bool,
        Op::Concat => Sort::Bits(width.saturating_mul(2)),
        _ => word,
    };
    let blasted = equation(alloc, op, &[word, word], found)?;
    let count = 1_u64 << width.min(8);
    for number in 0..count * count {
        let (left, right) = (number / count, number % count);
        let value = value_of_two(op, width, left, right);
        if !is_value(alloc, &blasted, [left, right, 0], value, found.width())? {
            return Ok(false);
        }
    }
    Ok(true)
}

/// Whether it has its values alone at all words of 1 to 4 bits.
fn is_right_at_all(alloc: Global, op: Op) -> bool {
    for width in 1..5 {
        if is_right(alloc, op, width) != Ok(true) {
            return false;
        }
    }
    true
}

/// Whether an operation over one word has its values alone, at all words of that width.
fn is_right_on_one(alloc: Global, op: Op, width: u8) -> Result<bool, AllocError> {
    let found = match op {
        Op::Extract { high, low } => high.saturating_sub(low).saturating_add(1),
        Op::ZeroExtend { by } | Op::SignExtend { by } => width.saturating_add(by),
        _ => width,
    };
    let blasted = equation(alloc, op, &[Sort::Bits(width)], Sort::Bits(found))?;
    for number in 0..1_u64 << width.min(8) {
        let value = value_of_one(op, width, number);
        if !is_value(alloc, &blasted, [number, 0, 0], value, found)? {
            return Ok(false);
        }
    }
    Ok(true)
}

/// Whether an operation over two truth values has its values alone.
fn is_right_on_truths(alloc: Global, op: Op) -> Result<bool, AllocError> {
    let blasted = equation(alloc, op, &[Sort::Bool, Sort::Bool], Sort::Bool)?;
    for number in 0..4_u64 {
        let (left, right) = (number / 2, number % 2);
        let value = u64::from(value_of_truths(op, left == 1, right == 1));
        if !is_value(alloc, &blasted, [left, right, 0], value, 1)? {
            return Ok(false);
        }
    }
    Ok(true)
}

/// Whether a choice between two words of two bits has its values alone.
fn is_choice_right(alloc: Global) -> Result<bool, AllocError> {
    let word = Sort::Bits(2);
    let blasted = equation(alloc, Op::Ite, &[Sort::Bool, word, word], word)?;
    for number in 0..32_u64 {
        let (condition, then, otherwise) = (number / 16, number / 4 % 4, number % 4);
        let value = if condition == 1 { then } else { otherwise };
        if !is_value(alloc, &blasted, [condition, then, otherwise], value, 2)? {
            return Ok(false);
        }
    }
    Ok(true)
}

/// Whether a constant has its value alone.
fn is_constant_right(alloc: Global, op: Op, sort: Sort, value: u64) -> Result<bool, AllocError> {
    let blasted = equation(alloc, op, &[], sort)?;
    is_value(alloc, &blasted, [0, 0, 0], value, sort.width())
}

/// Operators over two words of one width.
const PAIRS: [Op; 12] = [
    Op::BvAnd,
    Op::BvOr,
    Op::BvXor,
    Op::BvAdd,
    Op::BvSub,
    Op::BvUlt,
    Op::BvUle,
    Op::BvSlt,
    Op::BvSle,
    Op::Eq,
    Op::Concat,
    Op::BvMul,
];

/// Shifts of one word by another, quotients and remainders.
const SHIFTS: [Op; 5] = [Op::BvShl, Op::BvLshr, Op::BvAshr, Op::BvUdiv, Op::BvUrem];

/// Operators over one word of four bits.
const SINGLES: [Op; 7] = [
    Op::BvNot,
    Op::BvNeg,
    Op::Extract { high: 3, low: 0 },
    Op::Extract { high: 2, low: 1 },
    Op::Extract { high: 3, low: 3 },
    Op::ZeroExtend { by: 2 },
    Op::SignExtend { by: 2 },
];

/// Operators over two truth values.
const TRUTHS: [Op; 5] = [Op::And, Op::Or, Op::Xor, Op::Implies, Op::Eq];

#[test]
fn operators_over_two_words(rt: HostRuntime) -> Result<(), Fail> {
    for op in PAIRS {
        assert!(rt; is_right_at_all(rt.alloc(), op), "{op:?}");
    }
    Ok(())
}

#[test]
fn shifts_and_quotients(rt: HostRuntime) -> Result<(), Fail> {
    for op in SHIFTS {
        assert!(rt; is_right_at_all(rt.alloc(), op), "{op:?}");
    }
    Ok(())
}

#[test]
fn operators_over_one_word(rt: HostRuntime) -> Result<(), Fail> {
    for op in SINGLES {
        assert!(rt; is_right_on_one(rt.alloc(), op, 4) == Ok(true), "{op:?}");
    }
    Ok(())
}

#[test]
fn operators_over_truth_values(rt: HostRuntime) -> Result<(), Fail> {
    for op in TRUTHS {
        assert!(rt; is_right_on_truths(rt.alloc(), op) == Ok(true), "{op:?}");
    }
    Ok(())
}

#[test]
fn choices_and_constants(rt: HostRuntime) {
    assert!(rt; is_choice_right(rt.alloc()) == Ok(true));
    let number = Op::Bits {
        width: 4,
        number: 10,
    };
    assert!(rt; is_constant_right(rt.alloc(), number, Sort::Bits(4), 10) == Ok(true));
    assert!(rt; is_constant_right(rt.alloc(), Op::Bool { value: true }, Sort::Bool, 1) == Ok(true));
}
