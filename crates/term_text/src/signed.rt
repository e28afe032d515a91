//! The divisions of two's complement numbers, written out in unsigned divisions of their arguments or of these negated,
//! by the signs of both. Each function makes the node of one term, and keeps the nodes of the table.

ghost use Rattle.std.specs.Prelude.{◌≡◌, ◌<◌, ◌∷◌, [], length};
ghost use Rattle.bv_terms.specs.declared.op.Op.TheVariants.{BvAdd, BvUrem};
ghost use Rattle.bv_terms.specs.Signature.{width_at};
ghost use Rattle.bv_terms.specs.Table.{term_at};
ghost use Rattle.term_text.specs.declared.operator.Division.TheVariants.{Modulo};
ghost use Rattle.term_text.specs.Written.{first_term, second_term, on_two, negated, is_negative, if_negative, absolute};
ghost use Rattle.term_text.specs.Written.{equation, constant, signed_as_divisor, modulo_of, signed, perhaps_negated};
ghost use Rattle.term_text.specs.Written.{by_second, by_both};
ghost use Rattle.term_text.specs.Build.{AreNodes, terms_at, sorts_at, IsWellSorted, Builds};

use crate::build::make_fitting;
use crate::operator::Division;
use bv_terms::{Op, TermId, Terms};
use std::alloc::AllocError;

/// The division of the first argument by the second.
pub(crate) fn divided(
    terms: &mut Terms,
    division: Division,
    args: &[TermId],
) -> Result<TermId, AllocError>
    requires two { length args.now ≡ 2 }
    requires nodes { AreNodes terms.old args.now }
    requires sorted { IsWellSorted terms.old
        (signed division (width_at (sorts_at terms.old args.now) 0)
        (first_term (terms_at terms.old args.now)) (second_term (terms_at terms.old args.now))) }
    ensures { Builds terms.old terms.new result
        (signed division (width_at (sorts_at terms.old args.now) 0)
        (first_term (terms_at terms.old args.now)) (second_term (terms_at terms.old args.now))) }
{
    let width = terms.sort(args[0]).width();
    divided_by(terms, division, width, args[0], args[1])
}

/// The same of two nodes of a width.
fn divided_by(
    terms: &mut Terms,
    division: Division,
    width: u8,
    first: TermId,
    second: TermId,
) -> Result<TermId, AllocError>
    requires first { first.0 < length terms.old.nodes }
    requires second { second.0 < length terms.old.nodes }
    requires sorted { IsWellSorted terms.old
        (signed division width (term_at terms.old first) (term_at terms.old second)) }
    ensures { Builds terms.old terms.new result
        (signed division width (term_at terms.old first) (term_at terms.old second)) }
{
    match division {
        Division::Quotient => by_both(terms, width, Op::BvUdiv, true, first, second),
        Division::Remainder => by_both(terms, width, Op::BvUrem, false, first, second),
        Division::Modulo => modulo(terms, width, first, second),
    }
}

/// The unsigned division of the absolute values, with the sign that a quotient has, or with that of the first.
fn by_both(
    terms: &mut Terms,
    width: u8,
    op: Op,
    quotient: bool,
    first: TermId,
    second: TermId,
) -> Result<TermId, AllocError>
    requires first { first.0 < length terms.old.nodes }
    requires second { second.0 < length terms.old.nodes }
    requires sorted { IsWellSorted terms.old
        (by_both width op quotient (term_at terms.old first) (term_at terms.old second)) }
    ensures { Builds terms.old terms.new result
        (by_both width op quotient (term_at terms.old first) (term_at terms.old second)) }
{
    let opposite = negated(terms, first)?;
    let below = by_second(terms, width, op, !quotient, true, opposite, second)?;
    let above = by_second(terms, width, op, quotient, false, first, second)?;
    if_negative(terms, width, first, below, above)
}

/// The operation on the first and on the absolute value of the second; what it gives may be negated where the second
/// is negative, and where it is not.
fn by_second(
    terms: &mut Terms,
    width: u8,
    op: Op,
    negates_below: bool,
    negates_above: bool,
    first: TermId,
    second: TermId,
) -> Result<TermId, AllocError>
    requires first { first.0 < length terms.old.nodes }
    requires second { second.0 < length terms.old.nodes }
    requires sorted { IsWellSorted terms.old
        (by_second width op negates_below negates_above (term_at terms.old first) (term_at terms.old second)) }
    ensures { Builds terms.old terms.new result
        (by_second width op negates_below negates_above (term_at terms.old first) (term_at terms.old second)) }
{
    let opposite = negated(terms, second)?;
    let below = perhaps_negated(terms, negates_below, op, first, opposite)?;
    let above = perhaps_negated(terms, negates_above, op, first, second)?;
    if_negative(terms, width, second, below, above)
}

/// The operation on two terms, or what it gives negated.
fn perhaps_negated(
    terms: &mut Terms,
    negates: bool,
    op: Op,
    first: TermId,
    second: TermId,
) -> Result<TermId, AllocError>
    requires first { first.0 < length terms.old.nodes }
    requires second { second.0 < length terms.old.nodes }
    requires sorted { IsWellSorted terms.old
        (perhaps_negated negates op (term_at terms.old first) (term_at terms.old second)) }
    ensures { Builds terms.old terms.new result
        (perhaps_negated negates op (term_at terms.old first) (term_at terms.old second)) }
{
    if negates {
        return negated_of(terms, op, first, second);
    }
    make_fitting(terms, op, &[first, second])
}

/// What the operation on two terms gives, negated.
fn negated_of(
    terms: &mut Terms,
    op: Op,
    first: TermId,
    second: TermId,
) -> Result<TermId, AllocError>
    requires first { first.0 < length terms.old.nodes }
    requires second { second.0 < length terms.old.nodes }
    requires sorted { IsWellSorted terms.old
        (negated (on_two op (term_at terms.old first) (term_at terms.old second))) }
    ensures { Builds terms.old terms.new result
        (negated (on_two op (term_at terms.old first) (term_at terms.old second))) }
{
    let made = make_fitting(terms, op, &[first, second])?;
    negated(terms, made)
}

/// The remainder that has the sign of the divisor.
fn modulo(terms: &mut Terms, width: u8, first: TermId, second: TermId) -> Result<TermId, AllocError>
    requires first { first.0 < length terms.old.nodes }
    requires second { second.0 < length terms.old.nodes }
    requires sorted { IsWellSorted terms.old
        (signed Modulo width (term_at terms.old first) (term_at terms.old second)) }
    ensures { Builds terms.old terms.new result
        (signed Modulo width (term_at terms.old first) (term_at terms.old second)) }
{
    let rest = rest_of_absolutes(terms, width, first, second)?;
    modulo_of(terms, width, rest, first, second)
}

/// The remainder of the absolute values.
fn rest_of_absolutes(
    terms: &mut Terms,
    width: u8,
    first: TermId,
    second: TermId,
) -> Result<TermId, AllocError>
    requires first { first.0 < length terms.old.nodes }
    requires second { second.0 < length terms.old.nodes }
    requires sorted { IsWellSorted terms.old
        (on_two BvUrem (absolute width (term_at terms.old first)) (absolute width (term_at terms.old second))) }
    ensures { Builds terms.old terms.new result
        (on_two BvUrem (absolute width (term_at terms.old first)) (absolute width (term_at terms.old second))) }
{
    let dividend = absolute(terms, width, first)?;
    let divisor = absolute(terms, width, second)?;
    make_fitting(terms, Op::BvUrem, &[dividend, divisor])
}

/// The remainder of absolute values where it is 0, and with the sign of the divisor where it is not.
fn modulo_of(
    terms: &mut Terms,
    width: u8,
    rest: TermId,
    first: TermId,
    second: TermId,
) -> Result<TermId, AllocError>
    requires rest { rest.0 < length terms.old.nodes }
    requires first { first.0 < length terms.old.nodes }
    requires second { second.0 < length terms.old.nodes }
    requires sorted { IsWellSorted terms.old
        (modulo_of width (term_at terms.old rest) (term_at terms.old first) (term_at terms.old second)) }
    ensures { Builds terms.old terms.new result
        (modulo_of width (term_at terms.old rest) (term_at terms.old first) (term_at terms.old second)) }
{
    let none = is_zero(terms, width, rest)?;
    let signed = signed_as_divisor(terms, width, rest, first, second)?;
    make_fitting(terms, Op::Ite, &[none, rest, signed])
}

/// The remainder of absolute values with the sign of the divisor.
fn signed_as_divisor(
    terms: &mut Terms,
    width: u8,
    rest: TermId,
    first: TermId,
    second: TermId,
) -> Result<TermId, AllocError>
    requires rest { rest.0 < length terms.old.nodes }
    requires first { first.0 < length terms.old.nodes }
    requires second { second.0 < length terms.old.nodes }
    requires sorted { IsWellSorted terms.old
        (signed_as_divisor width (term_at terms.old rest) (term_at terms.old first) (term_at terms.old second)) }
    ensures { Builds terms.old terms.new result
        (signed_as_divisor width (term_at terms.old rest) (term_at terms.old first) (term_at terms.old second)) }
{
    let opposite = negated(terms, rest)?;
    let below = plus_where_positive(terms, width, opposite, second)?;
    let above = plus_where_negative(terms, width, rest, second)?;
    if_negative(terms, width, first, below, above)
}

/// A term where the other is negative, and their sum where it is not.
fn plus_where_positive(
    terms: &mut Terms,
    width: u8,
    at: TermId,
    other: TermId,
) -> Result<TermId, AllocError>
    requires at { at.0 < length terms.old.nodes }
    requires other { other.0 < length terms.old.nodes }
    requires sorted { IsWellSorted terms.old
        (if_negative width (term_at terms.old other) (term_at terms.old at)
        (on_two BvAdd (term_at terms.old at) (term_at terms.old other))) }
    ensures { Builds terms.old terms.new result
        (if_negative width (term_at terms.old other) (term_at terms.old at)
        (on_two BvAdd (term_at terms.old at) (term_at terms.old other))) }
{
    let sum = make_fitting(terms, Op::BvAdd, &[at, other])?;
    if_negative(terms, width, other, at, sum)
}

/// The sum of a term and the other where that is negative, and the term where it is not.
fn plus_where_negative(
    terms: &mut Terms,
    width: u8,
    at: TermId,
    other: TermId,
) -> Result<TermId, AllocError>
    requires at { at.0 < length terms.old.nodes }
    requires other { other.0 < length terms.old.nodes }
    requires sorted { IsWellSorted terms.old
        (if_negative width (term_at terms.old other)
        (on_two BvAdd (term_at terms.old at) (term_at terms.old other)) (term_at terms.old at)) }
    ensures { Builds terms.old terms.new result
        (if_negative width (term_at terms.old other)
        (on_two BvAdd (term_at terms.old at) (term_at terms.old other)) (term_at terms.old at)) }
{
    let sum = make_fitting(terms, Op::BvAdd, &[at, other])?;
    if_negative(terms, width, other, sum, at)
}

/// The absolute value, as an unsigned number.
fn absolute(terms: &mut Terms, width: u8, at: TermId) -> Result<TermId, AllocError>
    requires at { at.0 < length terms.old.nodes }
    requires sorted { IsWellSorted terms.old (absolute width (term_at terms.old at)) }
    ensures { Builds terms.old terms.new result (absolute width (term_at terms.old at)) }
{
    let opposite = negated(terms, at)?;
    if_negative(terms, width, at, opposite, at)
}

/// One term where a term is negative, and another where it is not.
fn if_negative(
    terms: &mut Terms,
    width: u8,
    at: TermId,
    below: TermId,
    above: TermId,
) -> Result<TermId, AllocError>
    requires at { at.0 < length terms.old.nodes }
    requires below { below.0 < length terms.old.nodes }
    requires above { above.0 < length terms.old.nodes }
    requires sorted { IsWellSorted terms.old
        (if_negative width (term_at terms.old at) (term_at terms.old below) (term_at terms.old above)) }
    ensures { Builds terms.old terms.new result
        (if_negative width (term_at terms.old at) (term_at terms.old below) (term_at terms.old above)) }
{
    let negative = is_negative(terms, width, at)?;
    make_fitting(terms, Op::Ite, &[negative, below, above])
}

/// Whether the sign bit is set.
fn is_negative(terms: &mut Terms, width: u8, at: TermId) -> Result<TermId, AllocError>
    requires at { at.0 < length terms.old.nodes }
    requires sorted { IsWellSorted terms.old (is_negative width (term_at terms.old at)) }
    ensures { Builds terms.old terms.new result (is_negative width (term_at terms.old at)) }
{
    let zero = make_fitting(terms, Op::Bits { width, number: 0 }, &[])?;
    make_fitting(terms, Op::BvSlt, &[at, zero])
}

/// Whether it is 0.
fn is_zero(terms: &mut Terms, width: u8, at: TermId) -> Result<TermId, AllocError>
    requires at { at.0 < length terms.old.nodes }
    requires sorted { IsWellSorted terms.old (equation (term_at terms.old at) (constant width 0)) }
    ensures { Builds terms.old terms.new result (equation (term_at terms.old at) (constant width 0)) }
{
    let zero = make_fitting(terms, Op::Bits { width, number: 0 }, &[])?;
    make_fitting(terms, Op::Eq, &[at, zero])
}

/// Two's complement.
fn negated(terms: &mut Terms, at: TermId) -> Result<TermId, AllocError>
    requires at { at.0 < length terms.old.nodes }
    requires sorted { IsWellSorted terms.old (negated (term_at terms.old at)) }
    ensures { Builds terms.old terms.new result (negated (term_at terms.old at)) }
{
    make_fitting(terms, Op::BvNeg, &[at])
}
