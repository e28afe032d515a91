//! Tests: what operators of one argument give at all numbers of three bits, and over which sorts operators may stand.

use crate::tests::operators::number_of;
use crate::tests::terms::{env_of, value_of};
use bv_terms::*;
use std::alloc::Global;
use std::test::Fail;
use term_text::*;

/// An operator over one argument of three bits, and its values at 0 to 7.
const SINGLES: [(Operator, u8, &str); 6] = [
    (Operator::RotateLeft { by: 4 }, 3, "02461357"),
    (Operator::RotateRight { by: 1 }, 3, "04152637"),
    (Operator::RotateLeft { by: 3 }, 3, "01234567"),
    (Operator::Extract { high: 2, low: 1 }, 2, "00112233"),
    (Operator::ZeroExtend { by: 2 }, 5, "01234567"),
    (Operator::Repeat { by: 1 }, 3, "01234567"),
];

/// An operator over arguments of these sorts, where a pointer has 32 bits, and its sort or the first fault.
const JUDGED: [(Operator, &[Sort], Result<Sort, OperatorFault>); 9] = [
    (
        Operator::Left(LeftAssociative::BvAdd),
        &[Sort::Bits(8), Sort::Bits(8), Sort::Bits(8)],
        Ok(Sort::Bits(8)),
    ),
    (
        Operator::Left(LeftAssociative::BvAdd),
        &[Sort::Bits(8)],
        Err(OperatorFault::Arity),
    ),
    (
        Operator::Left(LeftAssociative::BvAdd),
        &[Sort::Bits(8), Sort::Bits(8), Sort::Bits(9), Sort::Bool],
        Err(OperatorFault::Sorts { place: 2 }),
    ),
    (
        Operator::Equal,
        &[Sort::Mem, Sort::Mem],
        Err(OperatorFault::Sorts { place: 0 }),
    ),
    (
        Operator::Extract { high: 8, low: 0 },
        &[Sort::Bits(8)],
        Err(OperatorFault::Index),
    ),
    (
        Operator::Repeat { by: 0 },
        &[Sort::Bits(8)],
        Err(OperatorFault::Index),
    ),
    (
        Operator::Repeat { by: 9 },
        &[Sort::Bits(8)],
        Err(OperatorFault::Width),
    ),
    (
        Operator::ZeroExtend { by: 4_294_967_295 },
        &[Sort::Bits(8)],
        Err(OperatorFault::Width),
    ),
    (
        Operator::Left(LeftAssociative::Concat),
        &[Sort::Bits(32), Sort::Bits(16), Sort::Bits(16)],
        Ok(Sort::Bits(64)),
    ),
];

#[test]
fn operators_are_judged_by_their_arguments(rt: HostRuntime) -> Result<(), Fail> {
    for (operator, sorts, judgement) in JUDGED {
        assert!(rt; operator.judge(32, sorts) == judgement);
    }
    Ok(())
}

/// The node of an operator over one node or two of the table, where it may stand over them.
fn write_out(terms: &mut Terms, operator: Operator, args: &[TermId]) -> Option<TermId> {
    let len = terms.len();
    let pointer = terms.pointer();
    match *args {
        [first, second] if first.0 < len && second.0 < len => {
            let sorts = [terms.sort(first), terms.sort(second)];
            operator.judge(pointer, &sorts).ok()?;
            operator.write_out(terms, args).ok()
        }
        [only] if only.0 < len => {
            operator.judge(pointer, &[terms.sort(only)]).ok()?;
            operator.write_out(terms, args).ok()
        }
        _ => None,
    }
}

/// The number that an operator gives over its first arguments of three bits.
fn written_value(
    alloc: Global,
    operator: Operator,
    count: usize,
    numbers: [u64; 2],
    width: u8,
) -> Option<u64> {
    let mut terms = Terms::new(alloc, 32);
    let sort = Sort::Bits(3);
    let first = terms.make(Op::Input { number: 0, sort }, &[]).ok()?;
    let second = terms.make(Op::Input { number: 1, sort }, &[]).ok()?;
    let args = [first, second];
    let at = write_out(&mut terms, operator, &args[..count.min(2)])?;
    let env = env_of(alloc, 3, numbers).ok()?;
    number_of(value_of(&terms, at, &env)?, width)
}

#[test]
fn operators_of_one_argument_have_their_values(rt: HostRuntime) -> Result<(), Fail> {
    for (operator, width, digits) in SINGLES {
        for (argument, digit) in digits.as_bytes().iter().enumerate() {
            let number = u64::from(digit.wrapping_sub(b'0'));
            let numbers = [argument as u64 % 8, 0];
            assert!(rt; written_value(rt.alloc(), operator, 1, numbers, width) == Some(number));
        }
    }
    Ok(())
}

#[test]
fn words_name_their_operators(rt: HostRuntime) -> Result<(), Fail> {
    assert!(rt; operator_named(b"bvuge") == Some(Operator::Exchanged(Order::BvUle)));
    assert!(rt; operator_named(b"=>") == Some(Operator::Implies));
    assert!(rt; operator_named(b"bvfoo").is_none());
    Ok(())
}
