//! Over arguments of which sorts an operator may stand. The first fault counts: that of the number of arguments, then
//! that of their sorts, then that of an index, then that of the result's width.

ghost use Rattle.std.specs.Prelude.{◌≡◌, ◌<◌, Some, None, IfSome, not, nat_le, length, position, if◌then◌else◌};
ghost use Rattle.std.specs.List.{sum_by};
ghost use Rattle.bv_terms.specs.Signature.{fits, misfit, width_at};
ghost use Rattle.bv_terms.specs.Sorts.{width_of};
ghost use Rattle.term_text.specs.Operator.{slots, repeats, extended, takes, slots_over, index, has_index, joined_sort};
ghost use Rattle.term_text.specs.Operator.{left_sort, result_sort, judge};
ghost use Rattle.bv_terms.specs.declared.value.Sort.{Sort};

use crate::operator::{LeftAssociative, Operator};
use bv_terms::{IndexRule, Op, ResultRule, Slot, Sort, misfit};

/// Why an operator may not stand over arguments.
#[derive(Clone, Copy, Debug, PartialEq, Eq)]
pub enum OperatorFault {
    /// The number of arguments is wrong.
    Arity,
    /// The argument at that place, counted from 0, is the first whose sort does not fit.
    Sorts { place: usize },
    /// The operator's own numbers do not fit the sorts.
    Index,
    /// The result would be wider than 64 bits.
    Width,
}

impl Operator {
    /// The sort of the operator over arguments of these sorts, or why it may not stand over them, where a pointer has
    /// so many bits.
    pub fn judge(&self, pointer: u8, sorts: &[Sort]) -> Result<Sort, OperatorFault>
        ensures { result ≡ judge pointer self.now sorts.now }
    {
        if !self.takes(sorts.len()) {
            return Err(OperatorFault::Arity);
        }
        if let Some(place) = self.misfit(pointer, sorts) {
            return Err(OperatorFault::Sorts { place });
        }
        if !self.has_index(pointer, sorts) {
            return Err(OperatorFault::Index);
        }
        self.result_sort(sorts).ok_or(OperatorFault::Width)
    }

    /// What the operator takes in the places of its arguments; the last one again where it takes more.
    fn slots(&self) -> &'static [Slot]
        ensures { result.now ≡ slots self.now }
    {
        match *self {
            Operator::Operation(op) => op.signature().slots,
            Operator::Left(op) => op.operation().signature().slots,
            Operator::Equal | Operator::Distinct => Op::Eq.signature().slots,
            Operator::Implies => Op::Implies.signature().slots,
            Operator::Inverted(op) => op.operation().signature().slots,
            Operator::Exchanged(op) => op.operation().signature().slots,
            Operator::BvComp | Operator::Signed(_) => &[Slot::Vector, Slot::SameAs(0)],
            Operator::Extract { .. }
            | Operator::ZeroExtend { .. }
            | Operator::SignExtend { .. }
            | Operator::RotateLeft { .. }
            | Operator::RotateRight { .. }
            | Operator::Repeat { .. } => &[Slot::Vector],
        }
    }

    /// Whether it takes any number of arguments, two or more.
    fn repeats(&self) -> bool
        ensures { result ≡ repeats self.now }
    {
        matches!(
            self,
            Operator::Left(_) | Operator::Equal | Operator::Distinct | Operator::Implies
        )
    }

    /// Whether it takes so many arguments.
    fn takes(&self, count: usize) -> bool
        ensures { result ≡ takes self.now count }
    {
        if self.repeats() {
            self.slots().len() <= count
        } else {
            self.slots().len() == count
        }
    }

    /// What an operation of its own asks of its numbers.
    fn index(&self) -> IndexRule
        ensures { result ≡ index self.now }
    {
        match *self {
            Operator::Operation(op) => op.signature().index,
            _ => IndexRule::Free,
        }
    }

    /// The place of the first argument whose sort does not fit.
    fn misfit(&self, pointer: u8, sorts: &[Sort]) -> Option<usize>
        ensures { result ≡ misfit pointer (index self.now) (slots_over self.now (length sorts.now)) sorts.now }
    {
        let index = self.index();
        if self.repeats() {
            misfit_of_more(pointer, index, self.slots(), sorts)
        } else {
            misfit(pointer, index, self.slots(), sorts)
        }
    }

    /// Whether its own numbers fit the sorts.
    fn has_index(&self, pointer: u8, sorts: &[Sort]) -> bool
        ensures { result ≡ has_index pointer self.now sorts.now }
    {
        match *self {
            Operator::Operation(op) => op.signature().index.is_met(pointer, sorts),
            Operator::Extract { high, low } => low <= high && u64::from(high) < first_width(sorts),
            Operator::Repeat { by } => 1 <= by,
            _ => true,
        }
    }

    /// The sort of its result, where it has at most 64 bits.
    fn result_sort(&self, sorts: &[Sort]) -> Option<Sort>
        ensures { result ≡ if nat_le (width_of (result_sort self.now sorts.now)) 64
            then Some (result_sort self.now sorts.now) else None }
    {
        match *self {
            Operator::Operation(op) => op.signature().result.sort(sorts),
            Operator::Left(op) => left_sort(op, sorts),
            Operator::Equal | Operator::Distinct | Operator::Implies => Some(Sort::Bool),
            Operator::Inverted(_) | Operator::Signed(_) => ResultRule::SameAs(0).sort(sorts),
            Operator::Exchanged(_) => Some(Sort::Bool),
            Operator::BvComp => Some(Sort::Bits(1)),
            Operator::Extract { high, low } => bits(u64::from(high.saturating_sub(low)) + 1),
            Operator::ZeroExtend { by } | Operator::SignExtend { by } => {
                bits(first_width(sorts) + u64::from(by))
            }
            Operator::RotateLeft { .. } | Operator::RotateRight { .. } => {
                ResultRule::SameAs(0).sort(sorts)
            }
            Operator::Repeat { by } => bits(u64::from(by) * first_width(sorts)),
        }
    }
}

/// The place of the first argument that does not fit, where the last slot is that of all further arguments.
fn misfit_of_more(pointer: u8, index: IndexRule, slots: &[Slot], sorts: &[Sort]) -> Option<usize>
    ensures { result ≡ misfit pointer index (extended slots.now (length sorts.now)) sorts.now }
{
    if let Some(place) = misfit(pointer, index, slots, sorts) {
        return Some(place);
    }
    let Some(last) = slots.last() else {
        return None;
    };
    if sorts.len() < slots.len() {
        return None;
    }
    let (_, further) = sorts.split_at(slots.len());
    let place = misfit_of_one(pointer, index, last, sorts, further)?;
    Some(slots.len() + place)
}

/// The place of the first of the further arguments that does not fit the slot, counted from the first of them.
fn misfit_of_one(
    pointer: u8,
    index: IndexRule,
    slot: &Slot,
    sorts: &[Sort],
    further: &[Sort],
) -> Option<usize>
    ensures place { result ≡ position (λ s. not (fits pointer index sorts.now slot.now s)) further.now }
    ensures within { IfSome result (λ place. place < length further.now) }
{
    further
        .iter()
        .position(|sort| !slot.fits(pointer, index, sorts, *sort))
}

/// The width of the first argument.
fn first_width(sorts: &[Sort]) -> u64
    ensures value { result ≡ width_at sorts.now 0 }
    ensures bounded { result < 256 }
{
    match sorts.first() {
        Some(sort) => u64::from(sort.width()),
        None => 0,
    }
}

/// The sort of bit-vectors of a width, where that is at most 64.
fn bits(width: u64) -> Option<Sort>
    ensures { result ≡ if nat_le width 64 then Some (Sort.Bits width) else None }
{
    if width <= 64 {
        Some(Sort::Bits(width as u8))
    } else {
        None
    }
}

/// The sort of a left-associative operator's result, where it has at most 64 bits.
fn left_sort(operator: LeftAssociative, sorts: &[Sort]) -> Option<Sort>
    ensures { result ≡ if nat_le (width_of (left_sort operator sorts.now)) 64
        then Some (left_sort operator sorts.now) else None }
{
    match operator {
        LeftAssociative::And | LeftAssociative::Or | LeftAssociative::Xor => Some(Sort::Bool),
        LeftAssociative::BvAnd
        | LeftAssociative::BvOr
        | LeftAssociative::BvXor
        | LeftAssociative::BvAdd
        | LeftAssociative::BvMul => ResultRule::SameAs(0).sort(sorts),
        LeftAssociative::Concat => joined_sort(sorts),
    }
}

/// The sort of a bit-vector as wide as these together, where it has at most 64 bits.
fn joined_sort(sorts: &[Sort]) -> Option<Sort>
    ensures { result ≡ if nat_le (sum_by width_of sorts.now) 64 then Some (joined_sort sorts.now) else None }
{
    let mut width: u16 = 0;
    for sort in sorts {
        width += u16::from(sort.width());
        if width > 64 {
            return None;
        }
    }
    Some(Sort::Bits(width as u8))
}
