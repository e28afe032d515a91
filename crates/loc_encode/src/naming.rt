//! Conditions on where nodes are named, as terms: each is, and nodes stand much in the order of a walk.

#![tactic(auto)]

ghost use Rattle.std.specs.Prelude.{◌≡◌, ◌≤◌, ◌<◌, ◌+◌, IfOk};
ghost use Rattle.loc_encode.specs.Layout.{size};
ghost use Rattle.loc_encode.specs.Shape.{names_source, names_node, row_names, is_used, are_used, names_from, goes_on};
ghost use Rattle.loc_encode.specs.Shape.{some_goes_on, is_followed, are_followed};
ghost use Rattle.bv_terms.specs.Table.{Extends};
ghost use Rattle.loc_encode.specs.Tests.{IsTest};
ghost use Rattle.loc_encode.specs.Claimed.{claim_in};

use crate::layout::Layout;
use crate::truths::{and, or, truth};
use bv_terms::{TermId, Terms};
use pattern_core::Src;
use std::alloc::AllocError;

impl Layout<'_> {
    /// Whether the source in that place of the row is this.
    fn names_source(
        &self,
        terms: &mut Terms,
        row: u8,
        place: u8,
        source: Src,
    ) -> Result<TermId, AllocError>
        requires { row ≤ size (claim_in self.now) }
        ensures extends { Extends terms.old terms.new }
        ensures test { IfOk result (λ id. IsTest (claim_in self.now) terms.new id
            (λ g. names_source (claim_in self.now) g row place source)) }
    {
        if self.may_name(row, place, source) {
            self.slot(terms, self.slot_at(row, place, source))
        } else {
            truth(terms, false)
        }
    }

    /// Whether the source in that place of the row is a result of the node.
    fn names_node(
        &self,
        terms: &mut Terms,
        node: u8,
        row: u8,
        place: u8,
    ) -> Result<TermId, AllocError>
        requires row { row ≤ size (claim_in self.now) }
        requires node { node < size (claim_in self.now) }
        ensures extends { Extends terms.old terms.new }
        ensures test { IfOk result (λ id. IsTest (claim_in self.now) terms.new id
            (λ g. names_node (claim_in self.now) g node row place)) }
    {
        let mut any = truth(terms, false)?;
        for result in 0..3 {
            let named = self.names_source(terms, row, place, Src::Out { node, result })?;
            any = or(terms, any, named)?;
        }
        Ok(any)
    }

    /// Whether the row names the node.
    fn row_names(&self, terms: &mut Terms, node: u8, row: u8) -> Result<TermId, AllocError>
        requires row { row ≤ size (claim_in self.now) }
        requires node { node < size (claim_in self.now) }
        ensures extends { Extends terms.old terms.new }
        ensures test { IfOk result (λ id. IsTest (claim_in self.now) terms.new id
            (λ g. row_names (claim_in self.now) g node row)) }
    {
        let mut any = truth(terms, false)?;
        for place in 0..4 {
            let named = self.names_node(terms, node, row, place)?;
            any = or(terms, any, named)?;
        }
        Ok(any)
    }

    /// Whether a later row names the node.
    fn is_used(&self, terms: &mut Terms, node: u8) -> Result<TermId, AllocError>
        requires { node < size (claim_in self.now) }
        ensures extends { Extends terms.old terms.new }
        ensures test { IfOk result (λ id. IsTest (claim_in self.now) terms.new id
            (λ g. is_used (claim_in self.now) g node)) }
    {
        let size = self.size();
        let mut any = truth(terms, false)?;
        for after in 0..size - node {
            let named = self.row_names(terms, node, node + 1 + after)?;
            any = or(terms, any, named)?;
        }
        Ok(any)
    }

    /// Whether each node is named in a later row.
    pub(crate) fn are_used(&self, terms: &mut Terms) -> Result<TermId, AllocError>
        ensures extends { Extends terms.old terms.new }
        ensures test { IfOk result (λ id. IsTest (claim_in self.now) terms.new id
            (λ g. are_used (claim_in self.now) g)) }
    {
        let size = self.size();
        let mut all = truth(terms, true)?;
        for node in 0..size {
            let used = self.is_used(terms, node)?;
            all = and(terms, all, used)?;
        }
        Ok(all)
    }

    /// Whether the source in that place of the row is a result of a node from this one on.
    fn names_from(
        &self,
        terms: &mut Terms,
        from: u8,
        row: u8,
        place: u8,
    ) -> Result<TermId, AllocError>
        requires row { row ≤ size (claim_in self.now) }
        requires from { from ≤ row }
        ensures extends { Extends terms.old terms.new }
        ensures test { IfOk result (λ id. IsTest (claim_in self.now) terms.new id
            (λ g. names_from (claim_in self.now) g from row place)) }
    {
        let mut any = truth(terms, false)?;
        for after in 0..row - from {
            let named = self.names_node(terms, from + after, row, place)?;
            any = or(terms, any, named)?;
        }
        Ok(any)
    }

    /// Whether the row names the node, and after it one that stands later.
    fn goes_on(&self, terms: &mut Terms, node: u8, row: u8) -> Result<TermId, AllocError>
        requires row { row ≤ size (claim_in self.now) }
        requires node { node < row }
        ensures extends { Extends terms.old terms.new }
        ensures test { IfOk result (λ id. IsTest (claim_in self.now) terms.new id
            (λ g. goes_on (claim_in self.now) g node row)) }
    {
        let mut any = truth(terms, false)?;
        let mut named = any;
        for place in 0..4 {
            let later = self.names_from(terms, node + 1, row, place)?;
            let both = and(terms, named, later)?;
            any = or(terms, any, both)?;
            let here = self.names_node(terms, node, row, place)?;
            named = or(terms, named, here)?;
        }
        Ok(any)
    }

    /// Whether some row from the second after the node on does.
    fn some_goes_on(&self, terms: &mut Terms, node: u8) -> Result<TermId, AllocError>
        requires { node + 1 < size (claim_in self.now) }
        ensures extends { Extends terms.old terms.new }
        ensures test { IfOk result (λ id. IsTest (claim_in self.now) terms.new id
            (λ g. some_goes_on (claim_in self.now) g node)) }
    {
        let size = self.size();
        let mut any = truth(terms, false)?;
        for after in 0..size - (node + 1) {
            let on = self.goes_on(terms, node, node + 2 + after)?;
            any = or(terms, any, on)?;
        }
        Ok(any)
    }

    /// Whether the next node is over this one, or some row names this one and after it one that stands later.
    fn is_followed(&self, terms: &mut Terms, node: u8) -> Result<TermId, AllocError>
        requires { node + 1 < size (claim_in self.now) }
        ensures extends { Extends terms.old terms.new }
        ensures test { IfOk result (λ id. IsTest (claim_in self.now) terms.new id
            (λ g. is_followed (claim_in self.now) g node)) }
    {
        let size = self.size();
        let next = self.row_names(terms, node, node + 1)?;
        let on = self.some_goes_on(terms, node)?;
        or(terms, next, on)
    }

    /// Whether that is so of each node but the last.
    pub(crate) fn are_followed(&self, terms: &mut Terms) -> Result<TermId, AllocError>
        ensures extends { Extends terms.old terms.new }
        ensures test { IfOk result (λ id. IsTest (claim_in self.now) terms.new id
            (λ g. are_followed (claim_in self.now) g)) }
    {
        let size = self.size();
        let mut all = truth(terms, true)?;
        if size == 0 {
            return Ok(all);
        }
        for node in 0..size - 1 {
            let followed = self.is_followed(terms, node)?;
            all = and(terms, all, followed)?;
        }
        Ok(all)
    }
}
