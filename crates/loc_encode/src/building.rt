//! Terms by which a pattern's choices become values: each function makes one term, and says which.

ghost use Rattle.std.specs.Prelude.{◌≡◌, ◌<◌, ◌≤◌, None, length, All, IfOk};
ghost use Rattle.bv_terms.specs.declared.op.TermId.{TermId};
ghost use Rattle.bv_terms.specs.Term.{Apply};
ghost use Rattle.bv_terms.specs.Sorts.{HasSort, IsSized};
ghost use Rattle.bv_terms.specs.Table.{operands, terms_of, term_at, make_refusal, Extends, IsTable};
ghost use Rattle.loc_encode.specs.Slots.{slot_number};
ghost use Rattle.loc_encode.specs.Building.{IsOneSort, choice_term, constant_term, input_term, equal_term};
ghost use Rattle.loc_encode.specs.Building.{both_term, AreTruths};

use crate::slots::Slot;
use bv_terms::{Op, Sort, TermId, Terms, Value};
use std::alloc::AllocError;

/// The node of an operation that may stand over these nodes.
fn made(terms: &mut Terms, op: Op, args: &[TermId]) -> Result<TermId, AllocError>
    requires args { All (λ (a : TermId). a.0 < length terms.old.nodes) args.now }
    requires allowed { make_refusal terms.old op args.now ≡ None }
    ensures term { IfOk result (λ id. term_at terms.new id ≡ Apply op (operands (terms_of terms.old) args.now)) }
    ensures within { IfOk result (λ id. id.0 < length terms.new.nodes) }
    ensures extends { Extends terms.old terms.new }
    ensures table { IsTable terms.new }
{
    match terms.make(op, args) {
        Ok(id) => Ok(id),
        Err(_) => Err(AllocError),
    }
}

/// A value as a term.
pub(crate) fn constant(terms: &mut Terms, value: Value) -> Result<TermId, AllocError>
    requires { (s : Sort) × HasSort s value × IsSized s }
    ensures term { IfOk result (λ id. term_at terms.new id ≡ constant_term value) }
    ensures within { IfOk result (λ id. id.0 < length terms.new.nodes) }
    ensures extends { Extends terms.old terms.new }
    ensures table { IsTable terms.new }
{
    match value {
        Value::Bool(value) => made(terms, Op::Bool { value }, &[]),
        Value::Bits { width, number } => made(terms, Op::Bits { width, number }, &[]),
    }
}

/// The input of a slot.
pub(crate) fn input(terms: &mut Terms, slot: Slot, sort: Sort) -> Result<TermId, AllocError>
    requires { IsSized sort }
    ensures term { IfOk result (λ id. term_at terms.new id ≡ input_term (slot_number slot) sort) }
    ensures within { IfOk result (λ id. id.0 < length terms.new.nodes) }
    ensures extends { Extends terms.old terms.new }
    ensures table { IsTable terms.new }
{
    let number = slot.number();
    made(terms, Op::Input { number, sort }, &[])
}

/// One term where the choice of a slot is made, and another where it is not.
pub(crate) fn choice(
    terms: &mut Terms,
    slot: Slot,
    chosen: TermId,
    other: TermId,
) -> Result<TermId, AllocError>
    requires table { IsTable terms.old }
    requires sort { IsOneSort terms.old chosen other }
    ensures term { IfOk result (λ id. term_at terms.new id
        ≡ choice_term (slot_number slot) (term_at terms.old chosen) (term_at terms.old other)) }
    ensures within { IfOk result (λ id. id.0 < length terms.new.nodes) }
    ensures extends { Extends terms.old terms.new }
    ensures table { IsTable terms.new }
{
    let truth = input(terms, slot, Sort::Bool)?;
    made(terms, Op::Ite, &[truth, chosen, other])
}

/// Whether two terms have the same value.
pub(crate) fn equal(terms: &mut Terms, left: TermId, right: TermId) -> Result<TermId, AllocError>
    requires table { IsTable terms.old }
    requires sort { IsOneSort terms.old left right }
    ensures term { IfOk result (λ id. term_at terms.new id
        ≡ equal_term (term_at terms.old left) (term_at terms.old right)) }
    ensures within { IfOk result (λ id. id.0 < length terms.new.nodes) }
    ensures extends { Extends terms.old terms.new }
    ensures table { IsTable terms.new }
{
    made(terms, Op::Eq, &[left, right])
}

/// Whether two terms are both true.
pub(crate) fn both(terms: &mut Terms, left: TermId, right: TermId) -> Result<TermId, AllocError>
    requires table { IsTable terms.old }
    requires sort { AreTruths terms.old left right }
    ensures term { IfOk result (λ id. term_at terms.new id
        ≡ both_term (term_at terms.old left) (term_at terms.old right)) }
    ensures within { IfOk result (λ id. id.0 < length terms.new.nodes) }
    ensures extends { Extends terms.old terms.new }
    ensures table { IsTable terms.new }
{
    made(terms, Op::And, &[left, right])
}
