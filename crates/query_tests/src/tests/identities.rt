//! Each operator by others: the identity holds, and one that fails at one value of input 0 is refuted there.

use super::answers::{Found, answer_to};
use super::programs::Step::{Do, High, Lower, Number, P, Q, Rest, Upper, Widen, WidenSigned, X, Y};
use super::programs::{Step, built, made, mask};
use bv_terms::{Op, Sort, TermId, Terms, Value};
use std::alloc::{AllocError, Global};

/// More units than these questions take.
const UNITS: u64 = 1 << 20;

/// The value of input 0 at which the changed identities fail, modulo 2^width.
const SPECIAL: u64 = 0x9D3A_5C71_E6B2_48A5;

/// How many identities over words there are.
const WORDS: usize = 19;

/// The two sides of an identity over words, by its number.
fn of_words(number: usize) -> &'static [Step] {
    match number {
        0 => &[X, Do(Op::BvNot), X, Do(Op::BvNeg), Number(1), Do(Op::BvSub)],
        1 => &[X, Do(Op::BvNeg), X, Do(Op::BvNot), Number(1), Do(Op::BvAdd)],
        2 => &[
            X,
            Y,
            Do(Op::BvAnd),
            X,
            Do(Op::BvNot),
            Y,
            Do(Op::BvNot),
            Do(Op::BvOr),
            Do(Op::BvNot),
        ],
        3 => &[
            X,
            Y,
            Do(Op::BvOr),
            X,
            Do(Op::BvNot),
            Y,
            Do(Op::BvNot),
            Do(Op::BvAnd),
            Do(Op::BvNot),
        ],
        4 => &[
            X,
            Y,
            Do(Op::BvXor),
            X,
            Y,
            Do(Op::BvOr),
            X,
            Y,
            Do(Op::BvAnd),
            Do(Op::BvSub),
        ],
        5 => &[X, Y, Do(Op::BvAdd), X, Y, Do(Op::BvNeg), Do(Op::BvSub)],
        6 => &[
            X,
            Y,
            Do(Op::BvSub),
            X,
            Y,
            Do(Op::BvNot),
            Do(Op::BvAdd),
            Number(1),
            Do(Op::BvAdd),
        ],
        7 => &[
            X,
            Number(3),
            Do(Op::BvMul),
            X,
            X,
            X,
            Do(Op::BvAdd),
            Do(Op::BvAdd),
        ],
        8 => &[X, Number(1), Do(Op::BvUdiv), X],
        9 => &[X, Number(0), Do(Op::BvUrem), X],
        10 => &[X, Number(1), Do(Op::BvShl), X, X, Do(Op::BvAdd)],
        11 => &[
            X,
            Rest,
            Do(Op::BvShl),
            Rest,
            Do(Op::BvLshr),
            X,
            Lower,
            Widen,
        ],
        12 => &[
            X,
            Rest,
            Do(Op::BvShl),
            Rest,
            Do(Op::BvAshr),
            X,
            Lower,
            WidenSigned,
        ],
        13 => &[X, Y, Do(Op::BvUlt), Y, X, Do(Op::BvUle), Do(Op::Not)],
        14 => &[
            X,
            Y,
            Do(Op::BvUle),
            X,
            Y,
            Do(Op::BvUlt),
            X,
            Y,
            Do(Op::Eq),
            Do(Op::Or),
        ],
        15 => &[
            X,
            Y,
            Do(Op::BvSlt),
            X,
            High,
            Do(Op::BvXor),
            Y,
            High,
            Do(Op::BvXor),
            Do(Op::BvUlt),
        ],
        16 => &[X, Y, Do(Op::BvSle), Y, X, Do(Op::BvSlt), Do(Op::Not)],
        17 => &[
            X,
            Y,
            Do(Op::Eq),
            X,
            Y,
            Do(Op::BvXor),
            Number(0),
            Do(Op::BvUle),
        ],
        _ => &[P, X, Y, Do(Op::Ite), P, Do(Op::Not), Y, X, Do(Op::Ite)],
    }
}

/// How many identities over truth values there are.
const TRUTHS: usize = 5;

/// The two sides of an identity over truth values, by its number.
fn of_truths(number: usize) -> &'static [Step] {
    match number {
        0 => &[
            P,
            Q,
            Do(Op::And),
            P,
            Do(Op::Not),
            Q,
            Do(Op::Not),
            Do(Op::Or),
            Do(Op::Not),
        ],
        1 => &[P, Q, Do(Op::Or), P, Do(Op::Not), Q, Do(Op::Implies)],
        2 => &[P, Q, Do(Op::Xor), P, Q, Do(Op::Eq), Do(Op::Not)],
        3 => &[P, Q, Do(Op::Implies), P, Do(Op::Not), Q, Do(Op::Or)],
        _ => &[P, Do(Op::Not), P, P, Do(Op::Xor), P, Do(Op::Eq)],
    }
}

/// The node with all bits inverted, where input 0 has the special value.
fn nearly(terms: &mut Terms, at: TermId, width: u8) -> Result<TermId, AllocError> {
    if at.0 >= terms.len() {
        return Err(AllocError);
    }
    let opposite = match terms.sort(at) {
        Sort::Bool => Op::Not,
        _ => Op::BvNot,
    };
    let turned = made(terms, opposite, &[at])?;
    let sort = Sort::Bits(width);
    let input = made(terms, Op::Input { number: 0, sort }, &[])?;
    let number = SPECIAL & mask(width);
    let special = made(terms, Op::Bits { width, number }, &[])?;
    let is_special = made(terms, Op::Eq, &[input, special])?;
    made(terms, Op::Ite, &[is_special, turned, at])
}

/// That two sides differ.
fn differ(terms: &mut Terms, left: TermId, right: TermId) -> Result<TermId, AllocError> {
    let equal = made(terms, Op::Eq, &[left, right])?;
    made(terms, Op::Not, &[equal])
}

/// What is answered to whether the two sides that a program leaves differ.
fn holds(alloc: Global, steps: &[Step], width: u8) -> Result<bool, AllocError> {
    let mut terms = Terms::new(alloc, 64);
    let stack = built(alloc, &mut terms, steps, width)?;
    let [left, right] = *stack.as_slice() else {
        return Ok(false);
    };
    let formula = differ(&mut terms, left, right)?;
    Ok(matches!(answer_to(alloc, &terms, formula, UNITS)?, Found::No(_)))
}

/// The same, where the right side is changed at the special value of input 0.
fn fails(alloc: Global, steps: &[Step], width: u8) -> Result<bool, AllocError> {
    let mut terms = Terms::new(alloc, 64);
    let stack = built(alloc, &mut terms, steps, width)?;
    let [left, right] = *stack.as_slice() else {
        return Ok(false);
    };
    let near = nearly(&mut terms, right, width)?;
    let formula = differ(&mut terms, left, near)?;
    let number = SPECIAL & mask(width);
    Ok(answer_to(alloc, &terms, formula, UNITS)? == Found::Yes(Value::Bits { width, number }))
}

/// Whether the identity holds at a width, and the changed one fails.
fn is_right(alloc: Global, steps: &[Step], width: u8) -> bool {
    holds(alloc, steps, width) == Ok(true) && fails(alloc, steps, width) == Ok(true)
}

#[test]
fn operators_over_words(rt: HostRuntime) {
    for width in [1, 8, 32, 64] {
        for number in 0..WORDS {
            assert!(rt;
                is_right(rt.alloc(), of_words(number), width),
                "{number} at {width}"
            );
        }
    }
}

#[test]
fn operators_over_truth_values(rt: HostRuntime) {
    for number in 0..TRUTHS {
        assert!(rt; is_right(rt.alloc(), of_truths(number), 8), "{number}");
    }
}

#[test]
fn halves_joined(rt: HostRuntime) {
    for width in [8, 32, 64] {
        assert!(rt;
            is_right(rt.alloc(), &[X, Upper, X, Lower, Do(Op::Concat), X], width),
            "{width}"
        );
    }
}
