//! How many of some slots are chosen, as terms.

#![tactic(auto)]

ghost use Rattle.std.specs.Prelude.{◌≡◌, ◌≤◌, ◌<◌, ◌&&◌, ◌||◌, ℕ, length, All, IfOk, Bool};
ghost use Rattle.bv_terms.specs.declared.value.Sort.TheVariants as sort;
ghost use Rattle.bv_terms.specs.Table.{Extends};
ghost use Rattle.pattern_core.specs.Claim.{Claim};
ghost use Rattle.loc_encode.specs.declared.slots.Slot.{Slot};
ghost use Rattle.loc_encode.specs.Slots.{IsSlot};
ghost use Rattle.loc_encode.specs.Tests.{Test, IsTest};
ghost use Rattle.loc_encode.specs.Counts.{AreThere, AreCounts, one_more};
ghost use Rattle.loc_encode.specs.Shape.{are_chosen};
ghost use Rattle.loc_encode.specs.Claimed.{claim_in};

use crate::layout::Layout;
use crate::slots::Slot;
use crate::truths::{and, input, ite, not, or, truth};
use bv_terms::{Sort, TermId, Terms};
use std::alloc::AllocError;

/// The most lines.
const MOST: usize = 6;

/// The nodes that say for each number up to `most` whether so many are chosen, with one slot more than those of which
/// `counts` says so.
fn counted(
    terms: &mut Terms,
    slot: TermId,
    counts: [TermId; MOST + 1],
    most: usize,
) -> Result<[TermId; MOST + 1], AllocError>
    requires few { most ≤ 6 }
    requires slot { slot.0 < length terms.old.nodes }
    requires counts { AreThere terms.old counts }
    ensures extends { Extends terms.old terms.new }
    ensures there { IfOk result (λ more. AreThere terms.new more) }
    ensures counts { (c : Claim) (x : Test) (n : (Slot → Bool) → ℕ) → IsTest c terms.old slot x
        → AreCounts c terms.old counts most n → IfOk result (λ more. AreCounts c terms.new more most (one_more x n)) }
{
    let other = not(terms, slot)?;
    let none = and(terms, other, counts[0])?;
    let mut more = counts;
    more[0] = none;
    for count in 1..most + 1 {
        let id = ite(terms, slot, counts[count - 1], counts[count])?;
        more[count] = id;
    }
    Ok(more)
}

impl Layout<'_> {
    /// Whether the slot is chosen.
    pub(crate) fn slot(&self, terms: &mut Terms, slot: Slot) -> Result<TermId, AllocError>
        requires { IsSlot (claim_in self.now) slot sort.Bool }
        ensures extends { Extends terms.old terms.new }
        ensures test { IfOk result (λ id. IsTest (claim_in self.now) terms.new id (λ g. g slot)) }
    {
        let _ = self.goal;
        input(terms, slot.number(), Sort::Bool)
    }

    /// What was asked so far, or whether the slot is chosen, where it is one of those that are sought.
    pub(crate) fn or_slot_if(
        &self,
        terms: &mut Terms,
        any: TermId,
        is_sought: bool,
        slot: Slot,
    ) -> Result<TermId, AllocError>
        requires there { any.0 < length terms.old.nodes }
        requires slot { IsSlot (claim_in self.now) slot sort.Bool }
        ensures extends { Extends terms.old terms.new }
        ensures test { (f : Test) → IsTest (claim_in self.now) terms.old any f
            → IfOk result (λ id. IsTest (claim_in self.now) terms.new id (λ g. f g || (is_sought && g slot))) }
    {
        if is_sought {
            let chosen = self.slot(terms, slot)?;
            or(terms, any, chosen)
        } else {
            Ok(any)
        }
    }

    /// Whether so many of the slots are chosen.
    pub(crate) fn are_chosen(
        &self,
        terms: &mut Terms,
        slots: &[Slot],
        count: usize,
    ) -> Result<TermId, AllocError>
        requires few { count ≤ 6 }
        requires slots { All (λ x. IsSlot (claim_in self.now) x sort.Bool) slots.now }
        ensures extends { Extends terms.old terms.new }
        ensures test { IfOk result (λ id. IsTest (claim_in self.now) terms.new id (λ g. are_chosen g slots.now count)) }
    {
        let no = truth(terms, false)?;
        let yes = truth(terms, true)?;
        let mut counts = [no; MOST + 1];
        counts[0] = yes;
        for slot in slots {
            let chosen = self.slot(terms, *slot)?;
            counts = counted(terms, chosen, counts, count)?;
        }
        Ok(counts[count])
    }
}
