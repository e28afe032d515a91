//! The term that an operator over terms is, made in a table. It costs what is made.

ghost use Rattle.std.specs.Prelude.{Ok, Some, IfOk, ◌-◌, ◌%◌, replicate, ◌≡◌, ◌≤◌, map, ◌<◌, length, reverse, ◌∷◌};
ghost use Rattle.std.specs.Prelude.{[], IsOk};
ghost use Rattle.bv_terms.specs.declared.op.Op.TheVariants.{And, BvNot, Concat, Eq, Extract, Ite};
ghost use Rattle.bv_terms.specs.declared.op.Op.TheVariants.{SignExtend, ZeroExtend};
ghost use Rattle.bv_terms.specs.declared.value.Sort.{Sort};
ghost use Rattle.bv_terms.specs.WellSorted.{sort_of};
ghost use Rattle.bv_terms.specs.Table.{term_at, IsTable};
ghost use Rattle.bv_terms.specs.Signature.{width_at};
ghost use Rattle.term_text.specs.Operator.{judge};
ghost use Rattle.term_text.specs.Written.{applied, left_from, left, right, equations, inequation, inequations};
ghost use Rattle.term_text.specs.Written.{constant, written};
ghost use Rattle.term_text.specs.Written.{extracted, first_term, rotated};
ghost use Rattle.term_text.specs.Build.{AreNodes, terms_at, sorts_at, IsWellSorted, Builds};

use crate::build::make_fitting;
use crate::operator::Operator;
use crate::signed::divided;
use bv_terms::{Op, TermId, Terms};
use std::alloc::AllocError;

impl Operator {
    /// The node of the operator over these nodes, written out in operations. An `Err` is out of memory, also that of a
    /// table with as many nodes as it may have; the table keeps its nodes then too, and may have more.
    pub fn write_out(&self, terms: &mut Terms, args: &[TermId]) -> Result<TermId, AllocError>
        requires nodes { AreNodes terms.old args.now }
        requires fits { IsOk (judge terms.old.pointer self.now (sorts_at terms.old args.now)) }
        ensures written { Builds terms.old terms.new result
            (written self.now (sorts_at terms.old args.now) (terms_at terms.old args.now)) }
        ensures sort { (s : Sort) → judge terms.old.pointer self.now (sorts_at terms.old args.now) ≡ Ok s
            → IfOk result (λ at. sort_of terms.old.pointer (term_at terms.new at) ≡ Some s) }
    {
        // What the table keeps: each of its terms is well-sorted.
        let _ = terms.len();
        self.make_written(terms, args)
    }

    /// The same, where it is known that the term is well-sorted.
    fn make_written(&self, terms: &mut Terms, args: &[TermId]) -> Result<TermId, AllocError>
        requires table { IsTable terms.old }
        requires nodes { AreNodes terms.old args.now }
        requires fits { IsOk (judge terms.old.pointer self.now (sorts_at terms.old args.now)) }
        requires sorted { IsWellSorted terms.old
            (written self.now (sorts_at terms.old args.now) (terms_at terms.old args.now)) }
        ensures { Builds terms.old terms.new result
            (written self.now (sorts_at terms.old args.now) (terms_at terms.old args.now)) }
    {
        match *self {
            Operator::Operation(op) => make_fitting(terms, op, args),
            Operator::Left(op) => left(terms, op.operation(), args),
            Operator::Equal => chained(terms, args),
            Operator::Distinct => distinct(terms, args),
            Operator::Implies => right(terms, Op::Implies, args),
            Operator::Inverted(op) => inverted(terms, op.operation(), args),
            Operator::Exchanged(op) => exchanged(terms, op.operation(), args),
            Operator::BvComp => compared(terms, args),
            Operator::Signed(division) => divided(terms, division, args),
            Operator::Extract { high, low } => extracted(terms, high, low, args),
            Operator::ZeroExtend { by } => extended(terms, by, args),
            Operator::SignExtend { by } => sign_extended(terms, by, args),
            Operator::RotateLeft { by } => rotated_left(terms, by, args),
            Operator::RotateRight { by } => rotated_right(terms, by, args),
            Operator::Repeat { by } => repeated(terms, by, args),
        }
    }
}

/// The operation on the first two, then on that and the third, and so on.
fn left(terms: &mut Terms, op: Op, args: &[TermId]) -> Result<TermId, AllocError>
    requires some { 0 < length args.now }
    requires nodes { AreNodes terms.old args.now }
    requires sorted { IsWellSorted terms.old (left op (terms_at terms.old args.now)) }
    ensures { Builds terms.old terms.new result (left op (terms_at terms.old args.now)) }
{
    let mut joined = args[0];
    let (_, rest) = args.split_at(1);
    for next in rest {
        joined = make_fitting(terms, op, &[joined, *next])?;
    }
    Ok(joined)
}

/// The operation on the first and on what the further ones give.
fn right(terms: &mut Terms, op: Op, args: &[TermId]) -> Result<TermId, AllocError>
    requires some { 0 < length args.now }
    requires nodes { AreNodes terms.old args.now }
    requires sorted { IsWellSorted terms.old (right op (terms_at terms.old args.now)) }
    ensures { Builds terms.old terms.new result (right op (terms_at terms.old args.now)) }
{
    let last = args.len() - 1;
    let mut joined = args[last];
    for place in (0..last).rev() {
        joined = make_fitting(terms, op, &[args[place], joined])?;
    }
    Ok(joined)
}

/// `bvnot` of the operation.
fn inverted(terms: &mut Terms, op: Op, args: &[TermId]) -> Result<TermId, AllocError>
    requires nodes { AreNodes terms.old args.now }
    requires sorted { IsWellSorted terms.old (applied BvNot (applied op (terms_at terms.old args.now) ∷ [])) }
    ensures { Builds terms.old terms.new result (applied BvNot (applied op (terms_at terms.old args.now) ∷ [])) }
{
    let made = make_fitting(terms, op, args)?;
    make_fitting(terms, Op::BvNot, &[made])
}

/// The operation with its two arguments exchanged.
fn exchanged(terms: &mut Terms, op: Op, args: &[TermId]) -> Result<TermId, AllocError>
    requires two { length args.now ≡ 2 }
    requires nodes { AreNodes terms.old args.now }
    requires sorted { IsWellSorted terms.old (applied op (reverse (terms_at terms.old args.now))) }
    ensures { Builds terms.old terms.new result (applied op (reverse (terms_at terms.old args.now))) }
{
    make_fitting(terms, op, &[args[1], args[0]])
}

/// Each is equal to the next.
fn chained(terms: &mut Terms, args: &[TermId]) -> Result<TermId, AllocError>
    requires two { 2 ≤ length args.now }
    requires nodes { AreNodes terms.old args.now }
    requires sorted { IsWellSorted terms.old (left And (equations (terms_at terms.old args.now))) }
    ensures { Builds terms.old terms.new result (left And (equations (terms_at terms.old args.now))) }
{
    let mut all = make_fitting(terms, Op::Eq, &[args[0], args[1]])?;
    let mut last = args[1];
    let (_, rest) = args.split_at(2);
    for next in rest {
        let equal = make_fitting(terms, Op::Eq, &[last, *next])?;
        all = make_fitting(terms, Op::And, &[all, equal])?;
        last = *next;
    }
    Ok(all)
}

/// Each differs from each later one.
fn distinct(terms: &mut Terms, args: &[TermId]) -> Result<TermId, AllocError>
    requires two { 2 ≤ length args.now }
    requires nodes { AreNodes terms.old args.now }
    requires sorted { IsWellSorted terms.old (left And (inequations (terms_at terms.old args.now))) }
    ensures { Builds terms.old terms.new result (left And (inequations (terms_at terms.old args.now))) }
{
    let first = differing(terms, args[0], args[1])?;
    let (_, rest) = args.split_at(2);
    let mut all = and_differing(terms, first, args[0], rest)?;
    for place in 1..args.len() {
        let (_, later) = args.split_at(place + 1);
        all = and_differing(terms, all, args[place], later)?;
    }
    Ok(all)
}

/// What is given, and that a node's term differs from those of the later ones.
fn and_differing(
    terms: &mut Terms,
    given: TermId,
    at: TermId,
    later: &[TermId],
) -> Result<TermId, AllocError>
    requires given { given.0 < length terms.old.nodes }
    requires at { at.0 < length terms.old.nodes }
    requires nodes { AreNodes terms.old later.now }
    requires sorted { IsWellSorted terms.old
        (left_from And (term_at terms.old given)
        (map (inequation (term_at terms.old at)) (terms_at terms.old later.now))) }
    ensures { Builds terms.old terms.new result
        (left_from And (term_at terms.old given)
        (map (inequation (term_at terms.old at)) (terms_at terms.old later.now))) }
{
    let mut all = given;
    for other in later {
        let differs = differing(terms, at, *other)?;
        all = make_fitting(terms, Op::And, &[all, differs])?;
    }
    Ok(all)
}

/// That two terms differ.
fn differing(terms: &mut Terms, first: TermId, second: TermId) -> Result<TermId, AllocError>
    requires first { first.0 < length terms.old.nodes }
    requires second { second.0 < length terms.old.nodes }
    requires sorted { IsWellSorted terms.old (inequation (term_at terms.old first) (term_at terms.old second)) }
    ensures { Builds terms.old terms.new result (inequation (term_at terms.old first) (term_at terms.old second)) }
{
    let equal = make_fitting(terms, Op::Eq, &[first, second])?;
    make_fitting(terms, Op::Not, &[equal])
}

/// The bit that says whether two terms are equal.
fn compared(terms: &mut Terms, args: &[TermId]) -> Result<TermId, AllocError>
    requires nodes { AreNodes terms.old args.now }
    requires sorted { IsWellSorted terms.old
        (applied Ite (applied Eq (terms_at terms.old args.now) ∷ constant 1 1 ∷ constant 1 0 ∷ [])) }
    ensures { Builds terms.old terms.new result
        (applied Ite (applied Eq (terms_at terms.old args.now) ∷ constant 1 1 ∷ constant 1 0 ∷ [])) }
{
    let equal = make_fitting(terms, Op::Eq, args)?;
    let one = make_fitting(
        terms,
        Op::Bits {
            width: 1,
            number: 1,
        },
        &[],
    )?;
    let zero = make_fitting(
        terms,
        Op::Bits {
            width: 1,
            number: 0,
        },
        &[],
    )?;
    make_fitting(terms, Op::Ite, &[equal, one, zero])
}

/// The bits `high` down to `low`.
fn extracted(terms: &mut Terms, high: u32, low: u32, args: &[TermId]) -> Result<TermId, AllocError>
    requires high { high < 256 }
    requires low { low < 256 }
    requires nodes { AreNodes terms.old args.now }
    requires sorted { IsWellSorted terms.old (applied (Extract high low) (terms_at terms.old args.now)) }
    ensures { Builds terms.old terms.new result (applied (Extract high low) (terms_at terms.old args.now)) }
{
    let op = Op::Extract {
        high: high as u8,
        low: low as u8,
    };
    make_fitting(terms, op, args)
}

/// So many zeros in front.
fn extended(terms: &mut Terms, by: u32, args: &[TermId]) -> Result<TermId, AllocError>
    requires by { by < 256 }
    requires nodes { AreNodes terms.old args.now }
    requires sorted { IsWellSorted terms.old (applied (ZeroExtend by) (terms_at terms.old args.now)) }
    ensures { Builds terms.old terms.new result (applied (ZeroExtend by) (terms_at terms.old args.now)) }
{
    make_fitting(terms, Op::ZeroExtend { by: by as u8 }, args)
}

/// So many copies of the sign bit in front.
fn sign_extended(terms: &mut Terms, by: u32, args: &[TermId]) -> Result<TermId, AllocError>
    requires by { by < 256 }
    requires nodes { AreNodes terms.old args.now }
    requires sorted { IsWellSorted terms.old (applied (SignExtend by) (terms_at terms.old args.now)) }
    ensures { Builds terms.old terms.new result (applied (SignExtend by) (terms_at terms.old args.now)) }
{
    make_fitting(terms, Op::SignExtend { by: by as u8 }, args)
}

/// The bits turned to the left.
fn rotated_left(terms: &mut Terms, by: u32, args: &[TermId]) -> Result<TermId, AllocError>
    requires one { length args.now ≡ 1 }
    requires nodes { AreNodes terms.old args.now }
    requires wide { 1 ≤ width_at (sorts_at terms.old args.now) 0 }
    requires sorted { IsWellSorted terms.old (rotated (width_at (sorts_at terms.old args.now) 0)
        (by % width_at (sorts_at terms.old args.now) 0) (first_term (terms_at terms.old args.now))) }
    ensures { Builds terms.old terms.new result (rotated (width_at (sorts_at terms.old args.now) 0)
        (by % width_at (sorts_at terms.old args.now) 0) (first_term (terms_at terms.old args.now))) }
{
    let width = terms.sort(args[0]).width();
    let places = by % u32::from(width);
    rotated(terms, width, places as u8, args[0])
}

/// The bits turned to the right.
fn rotated_right(terms: &mut Terms, by: u32, args: &[TermId]) -> Result<TermId, AllocError>
    requires one { length args.now ≡ 1 }
    requires nodes { AreNodes terms.old args.now }
    requires wide { 1 ≤ width_at (sorts_at terms.old args.now) 0 }
    requires sorted { let w = width_at (sorts_at terms.old args.now) 0 in
        IsWellSorted terms.old (rotated w ((w - by % w) % w) (first_term (terms_at terms.old args.now))) }
    ensures { let w = width_at (sorts_at terms.old args.now) 0 in
        Builds terms.old terms.new result (rotated w ((w - by % w) % w) (first_term (terms_at terms.old args.now))) }
{
    let width = terms.sort(args[0]).width();
    let places = (u32::from(width) - by % u32::from(width)) % u32::from(width);
    rotated(terms, width, places as u8, args[0])
}

/// The bits turned to the left by fewer places than there are.
fn rotated(terms: &mut Terms, width: u8, places: u8, at: TermId) -> Result<TermId, AllocError>
    requires fewer { places < width }
    requires at { at.0 < length terms.old.nodes }
    requires sorted { IsWellSorted terms.old (rotated width places (term_at terms.old at)) }
    ensures { Builds terms.old terms.new result (rotated width places (term_at terms.old at)) }
{
    if places == 0 {
        return Ok(at);
    }
    turned(terms, width, places, at)
}

/// The bits turned to the left by fewer places than there are, and not by none.
fn turned(terms: &mut Terms, width: u8, places: u8, at: TermId) -> Result<TermId, AllocError>
    requires fewer { places < width }
    requires at { at.0 < length terms.old.nodes }
    requires sorted { IsWellSorted terms.old (applied Concat
        (extracted (width - places - 1) 0 (term_at terms.old at)
        ∷ extracted (width - 1) (width - places) (term_at terms.old at) ∷ [])) }
    ensures { Builds terms.old terms.new result (applied Concat
        (extracted (width - places - 1) 0 (term_at terms.old at)
        ∷ extracted (width - 1) (width - places) (term_at terms.old at) ∷ [])) }
{
    let stays = Op::Extract {
        high: width - places - 1,
        low: 0,
    };
    let leaves = Op::Extract {
        high: width - 1,
        low: width - places,
    };
    let front = make_fitting(terms, stays, &[at])?;
    let back = make_fitting(terms, leaves, &[at])?;
    make_fitting(terms, Op::Concat, &[front, back])
}

/// So many copies beside each other.
fn repeated(terms: &mut Terms, by: u32, args: &[TermId]) -> Result<TermId, AllocError>
    requires some { 1 ≤ by }
    requires one { length args.now ≡ 1 }
    requires nodes { AreNodes terms.old args.now }
    requires sorted { IsWellSorted terms.old
        (left Concat (replicate by (first_term (terms_at terms.old args.now)))) }
    ensures { Builds terms.old terms.new result
        (left Concat (replicate by (first_term (terms_at terms.old args.now)))) }
{
    let mut joined = args[0];
    for _copies in 1..by {
        joined = make_fitting(terms, Op::Concat, &[joined, args[0]])?;
    }
    Ok(joined)
}
