//! The shape: the term that is true of values that stand for a pattern of the goal with the operations.

#![tactic(auto)]

ghost use Rattle.std.specs.Prelude.{◌≡◌, IfOk};
ghost use Rattle.bv_terms.specs.Table.{Extends};
ghost use Rattle.pattern_core.specs.Claim.{Claim, IsClaim};
ghost use Rattle.loc_encode.specs.Given.{IsGiven};
ghost use Rattle.loc_encode.specs.Layout.{different};
ghost use Rattle.loc_encode.specs.Parts.{IsShape};
ghost use Rattle.loc_encode.specs.Tests.{IsTest};
ghost use Rattle.loc_encode.specs.Shape.{has_kinds, has_nodes, has_uses, has_shape};
ghost use Rattle.loc_encode.specs.Claimed.{claim_in};

use crate::layout::Layout;
use crate::mentions::is_among;
use crate::truths::and;
use bv_terms::{TermId, Terms};
use isel_spec::Spec;
use multiset_rank::Multi;
use std::alloc::{AllocError, Global};

/// The operations, each once; of equal ones the last one stays.
fn different(alloc: Global, ops: &[u16]) -> Result<Vec<u16>, AllocError>
    ensures { IfOk result (λ found. found.items ≡ different ops.now) }
{
    let mut found = Vec::with_capacity(alloc, ops.len())?;
    for place in 0..ops.len() {
        let op = ops[place];
        if !is_among(op, &ops[place + 1..]) {
            found.push(op)?;
        }
    }
    Ok(found)
}

impl Layout<'_> {
    /// Whether each line has one kind, and each operation stands as often as in the multiset.
    fn has_kinds(&self, alloc: Global, terms: &mut Terms) -> Result<TermId, AllocError>
        ensures extends { Extends terms.old terms.new }
        ensures test { IfOk result (λ id. IsTest (claim_in self.now) terms.new id
            (λ g. has_kinds (claim_in self.now) g)) }
    {
        let kinds = self.have_kinds(alloc, terms)?;
        let right = self.are_used_up(alloc, terms)?;
        and(terms, kinds, right)
    }

    /// Whether besides each place of each row is filled as it is wanted.
    fn has_nodes(&self, alloc: Global, terms: &mut Terms) -> Result<TermId, AllocError>
        ensures extends { Extends terms.old terms.new }
        ensures test { IfOk result (λ id. IsTest (claim_in self.now) terms.new id
            (λ g. has_nodes (claim_in self.now) g)) }
    {
        let kinds = self.has_kinds(alloc, terms)?;
        let right = self.are_filled(alloc, terms)?;
        and(terms, kinds, right)
    }

    /// Whether besides each node is named.
    fn has_uses(&self, alloc: Global, terms: &mut Terms) -> Result<TermId, AllocError>
        ensures extends { Extends terms.old terms.new }
        ensures test { IfOk result (λ id. IsTest (claim_in self.now) terms.new id
            (λ g. has_uses (claim_in self.now) g)) }
    {
        let nodes = self.has_nodes(alloc, terms)?;
        let right = self.are_used(terms)?;
        and(terms, nodes, right)
    }

    /// Whether besides nodes stand much in the order of a walk, so that all is as in a pattern of the claim.
    fn has_shape(&self, alloc: Global, terms: &mut Terms) -> Result<TermId, AllocError>
        ensures extends { Extends terms.old terms.new }
        ensures test { IfOk result (λ id. IsTest (claim_in self.now) terms.new id
            (λ g. has_shape (claim_in self.now) g)) }
    {
        let uses = self.has_uses(alloc, terms)?;
        let right = self.are_followed(terms)?;
        and(terms, uses, right)
    }
}

/// The term that is true of values that stand for a canonical pattern of the goal with these operations, and only of
/// values that stand for some pattern of them. An `Err` is out of memory; nodes may have been added then.
pub(crate) fn shape(
    alloc: Global,
    spec: &Spec,
    goal: u32,
    multi: &Multi,
    terms: &mut Terms,
) -> Result<TermId, AllocError>
    requires given { IsGiven spec.now goal multi.now }
    requires pointer { terms.old.pointer ≡ spec.now.pointer }
    ensures extends { Extends terms.old terms.new }
    ensures shape { (c : Claim) → IsClaim spec.now goal multi.now c → IfOk result (IsShape c terms.new) }
{
    // What is ensured of the number of nodes says that the file's terms are a table.
    let _ = spec.terms.len();
    let ops = multi.ops();
    let kinds = different(alloc, ops)?;
    let layout = Layout {
        spec,
        goal,
        ops,
        kinds: &kinds,
    };
    let formula = layout.has_shape(alloc, terms)?;
    layout.mention_slots(terms, formula)
}
