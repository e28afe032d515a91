//! Terms that are true where earlier ones are and one condition more holds: a choice is made, an attribute is a number.

ghost use Rattle.std.specs.Prelude.{◌≡◌, ◌<◌, IfOk, All, length};
ghost use Rattle.bv_terms.specs.Table.{Extends};
ghost use Rattle.bv_terms.specs.declared.value.Sort.TheVariants as sort;
ghost use Rattle.pattern_core.specs.Claim.{Claim};
ghost use Rattle.loc_encode.specs.Slots.{IsSlot};
ghost use Rattle.loc_encode.specs.Matching.{IsSet, IsNumber};
ghost use Rattle.loc_encode.specs.Condition.{IsMade, IsBoth};

use crate::slots::Slot;
use bv_terms::{Op, Sort, TermId, Terms};
use std::alloc::AllocError;

/// The operation over these nodes. An `Err` is out of memory, of the heap or of the table.
pub(crate) fn made(op: Op, args: &[TermId], terms: &mut Terms) -> Result<TermId, AllocError>
    requires { All (λ a. a.0 < length terms.old.nodes) args.now }
    ensures extends { Extends terms.old terms.new }
    ensures made { IfOk result (IsMade terms.old op args.now terms.new) }
{
    match terms.make(op, args) {
        Ok(node) => Ok(node),
        Err(_) => Err(AllocError),
    }
}

/// The earlier term, and besides a choice that is made.
pub(crate) fn and_choice(
    choice: Slot,
    earlier: TermId,
    terms: &mut Terms,
) -> Result<TermId, AllocError>
    requires { earlier.0 < length terms.old.nodes }
    ensures extends { Extends terms.old terms.new }
    ensures there { IfOk result (λ at. at.0 < length terms.new.nodes) }
    ensures both { (c : Claim) → IsSlot c choice sort.Bool
        → IfOk result (λ at. IsBoth c terms.old earlier terms.new at (IsSet choice)) }
{
    let input = Op::Input {
        number: choice.number(),
        sort: Sort::Bool,
    };
    let chosen = made(input, &[], terms)?;
    made(Op::And, &[earlier, chosen], terms)
}

/// The earlier term, and besides an attribute of so many bits that is this number.
pub(crate) fn and_number(
    attribute: Slot,
    width: u8,
    number: u64,
    earlier: TermId,
    terms: &mut Terms,
) -> Result<TermId, AllocError>
    requires { earlier.0 < length terms.old.nodes }
    ensures extends { Extends terms.old terms.new }
    ensures there { IfOk result (λ at. at.0 < length terms.new.nodes) }
    ensures both { (c : Claim) → IsSlot c attribute (sort.Bits width)
        → IfOk result (λ at. IsBoth c terms.old earlier terms.new at (IsNumber attribute width number)) }
{
    let input = Op::Input {
        number: attribute.number(),
        sort: Sort::Bits(width),
    };
    let value = made(input, &[], terms)?;
    let constant = made(Op::Bits { width, number }, &[], terms)?;
    let equal = made(Op::Eq, &[value, constant], terms)?;
    made(Op::And, &[earlier, equal], terms)
}
