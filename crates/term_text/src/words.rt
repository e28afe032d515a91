//! The words of the operators that have no index.

ghost use Rattle.std.specs.Prelude.{◌≡◌};
ghost use Rattle.term_text.specs.Words.{core_named, arithmetic_named, division_named, order_named, other_named};
ghost use Rattle.term_text.specs.Words.{operator_named};

use crate::operator::{Bitwise, Division, LeftAssociative, Operator, Order};
use bv_terms::Op;

/// The operator of this word, where it has no index; `_` before a word and its numbers is no part of it.
pub fn operator_named(word: &[u8]) -> Option<Operator>
    ensures { result ≡ operator_named word.now }
{
    core_named(word)
        .or(arithmetic_named(word))
        .or(division_named(word))
        .or(order_named(word))
        .or(other_named(word))
}

/// The operators of the theory Core.
fn core_named(word: &[u8]) -> Option<Operator>
    ensures { result ≡ core_named word.now }
{
    if word == b"not".as_slice() {
        Some(Operator::Operation(Op::Not))
    } else if word == b"and".as_slice() {
        Some(Operator::Left(LeftAssociative::And))
    } else if word == b"or".as_slice() {
        Some(Operator::Left(LeftAssociative::Or))
    } else if word == b"xor".as_slice() {
        Some(Operator::Left(LeftAssociative::Xor))
    } else if word == b"=>".as_slice() {
        Some(Operator::Implies)
    } else if word == b"=".as_slice() {
        Some(Operator::Equal)
    } else if word == b"distinct".as_slice() {
        Some(Operator::Distinct)
    } else if word == b"ite".as_slice() {
        Some(Operator::Operation(Op::Ite))
    } else {
        None
    }
}

/// Those that give a bit-vector of their arguments' width, bit by bit or as numbers.
fn arithmetic_named(word: &[u8]) -> Option<Operator>
    ensures { result ≡ arithmetic_named word.now }
{
    if word == b"bvnot".as_slice() {
        Some(Operator::Operation(Op::BvNot))
    } else if word == b"bvand".as_slice() {
        Some(Operator::Left(LeftAssociative::BvAnd))
    } else if word == b"bvor".as_slice() {
        Some(Operator::Left(LeftAssociative::BvOr))
    } else if word == b"bvxor".as_slice() {
        Some(Operator::Left(LeftAssociative::BvXor))
    } else if word == b"bvneg".as_slice() {
        Some(Operator::Operation(Op::BvNeg))
    } else if word == b"bvadd".as_slice() {
        Some(Operator::Left(LeftAssociative::BvAdd))
    } else if word == b"bvsub".as_slice() {
        Some(Operator::Operation(Op::BvSub))
    } else if word == b"bvmul".as_slice() {
        Some(Operator::Left(LeftAssociative::BvMul))
    } else {
        None
    }
}

/// Divisions and shifts.
fn division_named(word: &[u8]) -> Option<Operator>
    ensures { result ≡ division_named word.now }
{
    if word == b"bvudiv".as_slice() {
        Some(Operator::Operation(Op::BvUdiv))
    } else if word == b"bvurem".as_slice() {
        Some(Operator::Operation(Op::BvUrem))
    } else if word == b"bvsdiv".as_slice() {
        Some(Operator::Signed(Division::Quotient))
    } else if word == b"bvsrem".as_slice() {
        Some(Operator::Signed(Division::Remainder))
    } else if word == b"bvsmod".as_slice() {
        Some(Operator::Signed(Division::Modulo))
    } else if word == b"bvshl".as_slice() {
        Some(Operator::Operation(Op::BvShl))
    } else if word == b"bvlshr".as_slice() {
        Some(Operator::Operation(Op::BvLshr))
    } else if word == b"bvashr".as_slice() {
        Some(Operator::Operation(Op::BvAshr))
    } else {
        None
    }
}

/// Orders.
fn order_named(word: &[u8]) -> Option<Operator>
    ensures { result ≡ order_named word.now }
{
    if word == b"bvult".as_slice() {
        Some(Operator::Operation(Op::BvUlt))
    } else if word == b"bvule".as_slice() {
        Some(Operator::Operation(Op::BvUle))
    } else if word == b"bvslt".as_slice() {
        Some(Operator::Operation(Op::BvSlt))
    } else if word == b"bvsle".as_slice() {
        Some(Operator::Operation(Op::BvSle))
    } else if word == b"bvugt".as_slice() {
        Some(Operator::Exchanged(Order::BvUlt))
    } else if word == b"bvuge".as_slice() {
        Some(Operator::Exchanged(Order::BvUle))
    } else if word == b"bvsgt".as_slice() {
        Some(Operator::Exchanged(Order::BvSlt))
    } else if word == b"bvsge".as_slice() {
        Some(Operator::Exchanged(Order::BvSle))
    } else {
        None
    }
}

/// The remaining ones.
fn other_named(word: &[u8]) -> Option<Operator>
    ensures { result ≡ other_named word.now }
{
    if word == b"bvnand".as_slice() {
        Some(Operator::Inverted(Bitwise::BvAnd))
    } else if word == b"bvnor".as_slice() {
        Some(Operator::Inverted(Bitwise::BvOr))
    } else if word == b"bvxnor".as_slice() {
        Some(Operator::Inverted(Bitwise::BvXor))
    } else if word == b"bvcomp".as_slice() {
        Some(Operator::BvComp)
    } else if word == b"concat".as_slice() {
        Some(Operator::Left(LeftAssociative::Concat))
    } else {
        None
    }
}
