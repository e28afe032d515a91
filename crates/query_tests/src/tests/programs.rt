//! Terms by short programs for a stack.

ghost use Rattle.std.specs.Prelude.{◌<◌, ◌≤◌, length, IfOk};

use bv_terms::{Op, Sort, TermId, Terms};
use std::alloc::{AllocError, Global};

/// What a step puts on the stack, for words of a width.
#[derive(Clone, Copy)]
pub(crate) enum Step {
    /// The words that are input 0, 1 and 2.
    X,
    Y,
    Z,
    /// The truth values that are input 3 and 4.
    P,
    Q,
    /// The word of a number, modulo 2^width.
    Number(u64),
    /// The word whose highest bit alone is 1.
    High,
    /// The word of the width without its low half.
    Rest,
    /// An operation over as many as it takes from the stack.
    Do(Op),
    /// The low half and the high half of a word, and a low half with bits in front.
    Lower,
    Upper,
    Widen,
    WidenSigned,
}

/// The ones of a word.
pub(crate) fn mask(width: u8) -> u64 {
    u64::MAX
        .checked_shr(u32::from(64_u8.saturating_sub(width)))
        .unwrap_or(0)
}

/// Half the width, rounded down, but at least 1.
fn half(width: u8) -> u8
    ensures { 1 ≤ result }
{
    (width / 2).max(1)
}

/// What an operation gives over nodes. An `Err` is out of memory, or that it may not stand over them.
pub(crate) fn made(terms: &mut Terms, op: Op, args: &[TermId]) -> Result<TermId, AllocError>
    ensures { IfOk result (λ at. at.0 < length terms.new.nodes) }
{
    let len = terms.len();
    if !args.iter().all(|at| at.0 < len) {
        return Err(AllocError);
    }
    match terms.make(op, args) {
        Ok(at) => Ok(at),
        Err(_) => Err(AllocError),
    }
}

/// The operation of a step.
fn operation(step: Step, width: u8) -> Op {
    let (low, rest) = (half(width), width.saturating_sub(half(width)));
    let sort = Sort::Bits(width);
    let word = |number: u64| Op::Bits {
        width,
        number: number & mask(width),
    };
    match step {
        Step::X => Op::Input { number: 0, sort },
        Step::Y => Op::Input { number: 1, sort },
        Step::Z => Op::Input { number: 2, sort },
        Step::P => Op::Input {
            number: 3,
            sort: Sort::Bool,
        },
        Step::Q => Op::Input {
            number: 4,
            sort: Sort::Bool,
        },
        Step::Number(number) => word(number),
        Step::High => word(mask(width) ^ (mask(width) >> 1)),
        Step::Rest => word(u64::from(rest)),
        Step::Do(op) => op,
        Step::Lower => Op::Extract {
            high: low - 1,
            low: 0,
        },
        Step::Upper => Op::Extract {
            high: width.saturating_sub(1),
            low,
        },
        Step::Widen => Op::ZeroExtend { by: rest },
        Step::WidenSigned => Op::SignExtend { by: rest },
    }
}

/// Puts what an operation gives over the last nodes of a stack in their place.
fn apply(terms: &mut Terms, stack: &mut Vec<TermId>, op: Op) -> Result<(), AllocError> {
    let from = stack.len().saturating_sub(op.arity());
    let at = made(terms, op, &stack[from..])?;
    stack.truncate(from);
    stack.push(at)?;
    Ok(())
}

/// What a program leaves on the stack, for words of a width.
pub(crate) fn built(
    alloc: Global,
    terms: &mut Terms,
    steps: &[Step],
    width: u8,
) -> Result<Vec<TermId>, AllocError> {
    let mut stack = Vec::new(alloc);
    for step in steps {
        apply(terms, &mut stack, operation(*step, width))?;
    }
    Ok(stack)
}
