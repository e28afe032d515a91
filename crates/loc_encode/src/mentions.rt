//! Mentions of all slots of a claim in a formula, so that each is one of its inputs: also an attribute, of which no
//! condition speaks.

#![tactic(auto)]

ghost use Rattle.std.specs.Prelude.{◌≡◌, ◌<◌, length, nat_eq, IfOk};
ghost use Rattle.std.specs.List.{list_any};
ghost use Rattle.bv_terms.specs.Sorts.{IsSized};
ghost use Rattle.bv_terms.specs.Table.{Extends};
ghost use Rattle.pattern_core.specs.Claim.{Claim};
ghost use Rattle.loc_encode.specs.Slots.{IsSlot};
ghost use Rattle.loc_encode.specs.Mentions.{may_stand, truth_if, bits_if, slot_sort, HasSizedSlots, Mentions};
ghost use Rattle.loc_encode.specs.Mentions.{MentionsNumber, Keeps, MentionsBelow};
ghost use Rattle.loc_encode.specs.Layout.{attr_width};
ghost use Rattle.loc_encode.specs.Claimed.{claim_in};

use crate::layout::Layout;
use crate::slots::{SLOTS, Slot};
use crate::truths::{and, equal, input};
use bv_terms::{Sort, TermId, Terms};
use std::alloc::AllocError;

/// Whether the operation is one of these.
pub(crate) fn is_among(op: u16, ops: &[u16]) -> bool
    ensures { result ≡ list_any (nat_eq op) ops.now }
{
    for other in ops {
        if op == *other {
            return true;
        }
    }
    false
}

/// The sort of a truth value, where there is one.
fn truth_if(there: bool) -> Option<Sort>
    ensures { result ≡ truth_if there }
{
    if there { Some(Sort::Bool) } else { None }
}

/// The sort of a bit-vector, where there is one.
fn bits_if(there: bool, width: Option<u8>) -> Option<Sort>
    ensures { result ≡ bits_if there width }
{
    if !there {
        return None;
    }
    match width {
        Some(width) => Some(Sort::Bits(width)),
        None => None,
    }
}

/// The formula, with a mention of the slot that changes nothing of its value.
fn mention(terms: &mut Terms, all: TermId, slot: Slot, sort: Sort) -> Result<TermId, AllocError>
    requires { all.0 < length terms.old.nodes }
    ensures extends { Extends terms.old terms.new }
    ensures there { IfOk result (λ id. id.0 < length terms.new.nodes) }
    ensures keeps { (c : Claim) → IsSlot c slot sort → IsSized sort
        → IfOk result (λ id. Keeps c terms.old all terms.new id) }
    ensures mentions { IfOk result (λ id. Mentions terms.new id slot sort) }
{
    let value = input(terms, slot.number(), sort)?;
    let same = equal(terms, value, value)?;
    and(terms, all, same)
}

impl Layout<'_> {
    /// Whether the operation may stand at the line.
    fn may_stand(&self, line: u8, op: u16) -> bool
        ensures { result ≡ may_stand (claim_in self.now) line op }
    {
        line < self.size() && is_among(op, self.kinds())
    }

    /// The sort of the slot, where it is one of the claim.
    fn slot_sort(&self, slot: Slot) -> Option<Sort>
        ensures { result ≡ slot_sort (claim_in self.now) slot }
    {
        match slot {
            Slot::Kind { line, op } => truth_if(self.may_stand(line, op)),
            Slot::Attr { line, op, place } => bits_if(
                self.may_stand(line, op),
                self.attr_width(op, place),
            ),
            Slot::Arg {
                line,
                place,
                source,
            } => { truth_if(line < self.size() && self.may_name(line, place, source)) }
            Slot::Result { place, source } => truth_if(self.may_name(self.size(), place, source)),
        }
    }

    /// The formula, with a mention of the slot of the number, where it is one of the claim.
    fn mention_number(
        &self,
        terms: &mut Terms,
        all: TermId,
        number: u32,
    ) -> Result<TermId, AllocError>
        requires there { all.0 < length terms.old.nodes }
        requires number { number < 1746 }
        requires sized { HasSizedSlots (claim_in self.now) }
        ensures extends { Extends terms.old terms.new }
        ensures there { IfOk result (λ id. id.0 < length terms.new.nodes) }
        ensures keeps { IfOk result (λ id. Keeps (claim_in self.now) terms.old all terms.new id) }
        ensures mentions { IfOk result (λ id. MentionsNumber (claim_in self.now) terms.new id number) }
    {
        let slot = Slot::at(number);
        let Some(sort) = self.slot_sort(slot) else {
            return Ok(all);
        };
        mention(terms, all, slot, sort)
    }

    /// The formula, with a mention of each slot of the claim.
    pub(crate) fn mention_slots(
        &self,
        terms: &mut Terms,
        formula: TermId,
    ) -> Result<TermId, AllocError>
        requires there { formula.0 < length terms.old.nodes }
        requires sized { HasSizedSlots (claim_in self.now) }
        ensures extends { Extends terms.old terms.new }
        ensures mentions { IfOk result
            (λ id. MentionsBelow (claim_in self.now) terms.old formula terms.new id 1746) }
    {
        let mut all = formula;
        for number in 0..SLOTS {
            all = self.mention_number(terms, all, number)?;
        }
        Ok(all)
    }
}
