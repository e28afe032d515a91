//! Conditions on the sources that are named at the lines of a claim and in its results, as terms.

#![tactic(auto)]

ghost use Rattle.std.specs.Prelude.{◌≡◌, ◌≤◌, ◌<◌, ◌||◌, not, Contains, IfOk};
ghost use Rattle.loc_encode.specs.declared.slots.Slot.TheVariants as slot;
ghost use Rattle.pattern_core.specs.Walk.{IsBefore};
ghost use Rattle.loc_encode.specs.Layout.{size, kinds, arg_sort, slot_at, choices, row_slots};
ghost use Rattle.loc_encode.specs.Shape.{has_sort, have_sort, has_source, has_argument, is_filled, are_filled};
ghost use Rattle.loc_encode.specs.Shape.{is_row_filled};
ghost use Rattle.bv_terms.specs.Table.{Extends};
ghost use Rattle.loc_encode.specs.Tests.{IsTest};
ghost use Rattle.loc_encode.specs.Claimed.{claim_in};

use crate::layout::Layout;
use crate::slots::Slot;
use crate::sorts::is_sort;
use crate::truths::{and, not, or, truth};
use bv_terms::{Sort, TermId, Terms};
use pattern_core::Src;
use std::alloc::{AllocError, Global};

impl Layout<'_> {
    /// Whether the node has such a result of the sort.
    fn has_result_sort(
        &self,
        terms: &mut Terms,
        sort: Sort,
        node: u8,
        place: u8,
    ) -> Result<TermId, AllocError>
        requires { node < size (claim_in self.now) }
        ensures extends { Extends terms.old terms.new }
        ensures test { IfOk result (λ id. IsTest (claim_in self.now) terms.new id
            (λ g. has_sort (claim_in self.now) g sort (Src.Out node place))) }
    {
        let kinds = self.kinds();
        let mut any = truth(terms, false)?;
        for op in kinds {
            let kind = Slot::Kind {
                line: node,
                op: *op,
            };
            any = self.or_slot_if(terms, any, is_sort(self.out_sort(*op, place), sort), kind)?;
        }
        Ok(any)
    }

    /// Whether the source has the sort.
    fn has_sort(&self, terms: &mut Terms, sort: Sort, source: Src) -> Result<TermId, AllocError>
        requires { IsBefore (size (claim_in self.now)) source }
        ensures extends { Extends terms.old terms.new }
        ensures test { IfOk result (λ id. IsTest (claim_in self.now) terms.new id
            (λ g. has_sort (claim_in self.now) g sort source)) }
    {
        match source {
            Src::Input(input) => truth(terms, is_sort(self.input_sort(input), sort)),
            Src::Out { node, result } => self.has_result_sort(terms, sort, node, result),
        }
    }

    /// Whether the source that is chosen has the sort, where this is the one.
    fn has_sort_if_chosen(
        &self,
        terms: &mut Terms,
        row: u8,
        place: u8,
        sort: Sort,
        source: Src,
    ) -> Result<TermId, AllocError>
        requires row { row ≤ size (claim_in self.now) }
        requires source { Contains (choices (claim_in self.now) row place) source }
        ensures extends { Extends terms.old terms.new }
        ensures test { IfOk result (λ id. IsTest (claim_in self.now) terms.new id
            (λ g. not (g (slot_at (claim_in self.now) row place source))
            || has_sort (claim_in self.now) g sort source)) }
    {
        let chosen = self.slot(terms, self.slot_at(row, place, source))?;
        let other = not(terms, chosen)?;
        let sorted = self.has_sort(terms, sort, source)?;
        or(terms, other, sorted)
    }

    /// Whether the source that is chosen in that place of the row has the sort.
    fn have_sort(
        &self,
        terms: &mut Terms,
        row: u8,
        place: u8,
        sort: Sort,
        sources: &[Src],
    ) -> Result<TermId, AllocError>
        requires row { row ≤ size (claim_in self.now) }
        requires sources { sources.now ≡ choices (claim_in self.now) row place }
        ensures extends { Extends terms.old terms.new }
        ensures test { IfOk result (λ id. IsTest (claim_in self.now) terms.new id
            (λ g. have_sort (claim_in self.now) g row place sort)) }
    {
        let mut all = truth(terms, true)?;
        for source in sources {
            let right = self.has_sort_if_chosen(terms, row, place, sort, *source)?;
            all = and(terms, all, right)?;
        }
        Ok(all)
    }

    /// Whether there is one source of the sort in that place of the row, or where no sort is wanted none.
    fn has_source(
        &self,
        terms: &mut Terms,
        row: u8,
        place: u8,
        wanted: Option<Sort>,
        sources: &[Src],
        slots: &[Slot],
    ) -> Result<TermId, AllocError>
        requires row { row ≤ size (claim_in self.now) }
        requires sources { sources.now ≡ choices (claim_in self.now) row place }
        requires slots { slots.now ≡ row_slots (claim_in self.now) row place }
        ensures extends { Extends terms.old terms.new }
        ensures test { IfOk result (λ id. IsTest (claim_in self.now) terms.new id
            (λ g. has_source (claim_in self.now) g row place wanted)) }
    {
        let Some(sort) = wanted else {
            return self.are_chosen(terms, slots, 0);
        };
        let one = self.are_chosen(terms, slots, 1)?;
        let sorted = self.have_sort(terms, row, place, sort, sources)?;
        and(terms, one, sorted)
    }

    /// Whether the argument in that place is as the operation wants it, where the node at the line is of this one.
    fn has_source_if_kind(
        &self,
        terms: &mut Terms,
        line: u8,
        place: u8,
        op: u16,
        sources: &[Src],
        slots: &[Slot],
    ) -> Result<TermId, AllocError>
        requires line { line < size (claim_in self.now) }
        requires op { Contains (kinds (claim_in self.now)) op }
        requires sources { sources.now ≡ choices (claim_in self.now) line place }
        requires slots { slots.now ≡ row_slots (claim_in self.now) line place }
        ensures extends { Extends terms.old terms.new }
        ensures test { IfOk result (λ id. IsTest (claim_in self.now) terms.new id
            (λ g. not (g (slot.Kind line op))
            || has_source (claim_in self.now) g line place (arg_sort (claim_in self.now) op place))) }
    {
        let kind = self.slot(terms, Slot::Kind { line, op })?;
        let other = not(terms, kind)?;
        let wanted = self.arg_sort(op, place);
        let right = self.has_source(terms, line, place, wanted, sources, slots)?;
        or(terms, other, right)
    }

    /// Whether the argument in that place of the line is as its operation wants it.
    fn has_argument(
        &self,
        terms: &mut Terms,
        line: u8,
        place: u8,
        sources: &[Src],
        slots: &[Slot],
    ) -> Result<TermId, AllocError>
        requires line { line < size (claim_in self.now) }
        requires sources { sources.now ≡ choices (claim_in self.now) line place }
        requires slots { slots.now ≡ row_slots (claim_in self.now) line place }
        ensures extends { Extends terms.old terms.new }
        ensures test { IfOk result (λ id. IsTest (claim_in self.now) terms.new id
            (λ g. has_argument (claim_in self.now) g line place)) }
    {
        let kinds = self.kinds();
        let mut all = truth(terms, true)?;
        for op in kinds {
            let right = self.has_source_if_kind(terms, line, place, *op, sources, slots)?;
            all = and(terms, all, right)?;
        }
        Ok(all)
    }

    /// Whether that place of the row is filled as its operation, or the goal, wants it.
    fn is_filled(
        &self,
        alloc: Global,
        terms: &mut Terms,
        row: u8,
        place: u8,
    ) -> Result<TermId, AllocError>
        requires { row ≤ size (claim_in self.now) }
        ensures extends { Extends terms.old terms.new }
        ensures test { IfOk result (λ id. IsTest (claim_in self.now) terms.new id
            (λ g. is_filled (claim_in self.now) g row place)) }
    {
        let size = self.size();
        let sources = self.choices(alloc, row, place)?;
        let slots = self.slots_at(alloc, row, place, &sources)?;
        if row < size {
            self.has_argument(terms, row, place, &sources, &slots)
        } else {
            self.has_source(terms, row, place, self.wanted_sort(place), &sources, &slots)
        }
    }

    /// Whether each place of the row is.
    fn is_row_filled(&self, alloc: Global, terms: &mut Terms, row: u8) -> Result<TermId, AllocError>
        requires { row ≤ size (claim_in self.now) }
        ensures extends { Extends terms.old terms.new }
        ensures test { IfOk result (λ id. IsTest (claim_in self.now) terms.new id
            (λ g. is_row_filled (claim_in self.now) g row)) }
    {
        let mut all = truth(terms, true)?;
        for place in 0..4 {
            let filled = self.is_filled(alloc, terms, row, place)?;
            all = and(terms, all, filled)?;
        }
        Ok(all)
    }

    /// Whether each place of each row is.
    pub(crate) fn are_filled(&self, alloc: Global, terms: &mut Terms) -> Result<TermId, AllocError>
        ensures extends { Extends terms.old terms.new }
        ensures test { IfOk result (λ id. IsTest (claim_in self.now) terms.new id
            (λ g. are_filled (claim_in self.now) g)) }
    {
        let size = self.size();
        let mut all = truth(terms, true)?;
        for row in 0..size + 1 {
            let filled = self.is_row_filled(alloc, terms, row)?;
            all = and(terms, all, filled)?;
        }
        Ok(all)
    }
}
