//! Conditions on the operations at the lines of a claim, as terms.

#![tactic(auto)]

ghost use Rattle.std.specs.Prelude.{◌≡◌, ◌≤◌, ◌<◌, length, map, nat_eq, count_by, IfOk};
ghost use Rattle.loc_encode.specs.declared.slots.Slot.TheVariants as slot;
ghost use Rattle.loc_encode.specs.Layout.{kinds, size};
ghost use Rattle.loc_encode.specs.Shape.{kind_slots, have_kinds, are_used_up};
ghost use Rattle.bv_terms.specs.Table.{Extends};
ghost use Rattle.loc_encode.specs.Tests.{IsTest};
ghost use Rattle.loc_encode.specs.Claimed.{claim_in};

use crate::layout::Layout;
use crate::slots::Slot;
use crate::truths::{and, truth};
use bv_terms::{TermId, Terms};
use std::alloc::{AllocError, Global};

/// How often the operation stands among these.
fn times(op: u16, ops: &[u16]) -> usize
    ensures times { result ≡ count_by (nat_eq op) ops.now }
    ensures most { result ≤ length ops.now }
{
    let mut times = 0;
    for other in ops {
        if op == *other {
            times += 1;
        }
    }
    times
}

impl Layout<'_> {
    /// The slots of the operations at a line.
    fn slots_of_line(&self, alloc: Global, line: u8) -> Result<Vec<Slot>, AllocError>
        ensures { IfOk result (λ found. found.items ≡ map (slot.Kind line) (kinds (claim_in self.now))) }
    {
        let kinds = self.kinds();
        let mut found = Vec::with_capacity(alloc, kinds.len())?;
        for op in kinds {
            found.push(Slot::Kind { line, op: *op })?;
        }
        Ok(found)
    }

    /// The slots of the lines at which the operation may stand.
    fn slots_of_kind(&self, alloc: Global, op: u16) -> Result<Vec<Slot>, AllocError>
        ensures { IfOk result (λ found. found.items ≡ kind_slots (claim_in self.now) op) }
    {
        let mut found = Vec::new(alloc);
        for line in 0..self.size() {
            found.push(Slot::Kind { line, op })?;
        }
        Ok(found)
    }

    /// Whether each line has one kind.
    pub(crate) fn have_kinds(&self, alloc: Global, terms: &mut Terms) -> Result<TermId, AllocError>
        ensures extends { Extends terms.old terms.new }
        ensures test { IfOk result (λ id. IsTest (claim_in self.now) terms.new id
            (λ g. have_kinds (claim_in self.now) g)) }
    {
        let mut all = truth(terms, true)?;
        for line in 0..self.size() {
            let slots = self.slots_of_line(alloc, line)?;
            let one = self.are_chosen(terms, &slots, 1)?;
            all = and(terms, all, one)?;
        }
        Ok(all)
    }

    /// Whether each operation stands at as many lines as it stands in the multiset.
    pub(crate) fn are_used_up(&self, alloc: Global, terms: &mut Terms) -> Result<TermId, AllocError>
        ensures extends { Extends terms.old terms.new }
        ensures test { IfOk result (λ id. IsTest (claim_in self.now) terms.new id
            (λ g. are_used_up (claim_in self.now) g)) }
    {
        let kinds = self.kinds();
        let mut all = truth(terms, true)?;
        for op in kinds {
            let slots = self.slots_of_kind(alloc, *op)?;
            let right = self.are_chosen(terms, &slots, times(*op, self.ops))?;
            all = and(terms, all, right)?;
        }
        Ok(all)
    }
}
