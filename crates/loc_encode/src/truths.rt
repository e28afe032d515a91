//! Nodes of truth values, made one at a time. Each is added where it isn't there, so the old table is a prefix of the
//! new one, whether it was made or not. An `Err` is out of memory, where the arguments are of the sorts that the
//! operation takes.

ghost use Rattle.std.specs.Prelude.{◌≡◌, ◌<◌, length, All, IfOk};
ghost use Rattle.bv_terms.specs.Term.{Apply};
ghost use Rattle.bv_terms.specs.Table.{operands, terms_of, term_at, Extends};
ghost use Rattle.loc_encode.specs.Truths.{truth, input, negation, conjunction, disjunction, equality, choice};
ghost use Rattle.loc_encode.specs.Truths.{Denotes};

use bv_terms::{Op, Sort, TermId, Terms};
use std::alloc::AllocError;

/// The node of an operation over nodes.
pub(crate) fn apply(terms: &mut Terms, op: Op, args: &[TermId]) -> Result<TermId, AllocError>
    requires { All (λ a. a.0 < length terms.old.nodes) args.now }
    ensures extends { Extends terms.old terms.new }
    ensures made { IfOk result (λ id. Denotes terms.new id (Apply op (operands (terms_of terms.old) args.now))) }
{
    match terms.make(op, args) {
        Ok(id) => Ok(id),
        Err(_) => Err(AllocError),
    }
}

/// A truth value.
pub(crate) fn truth(terms: &mut Terms, value: bool) -> Result<TermId, AllocError>
    ensures extends { Extends terms.old terms.new }
    ensures made { IfOk result (λ id. Denotes terms.new id (truth value)) }
{
    apply(terms, Op::Bool { value }, &[])
}

/// The input of that number.
pub(crate) fn input(terms: &mut Terms, number: u32, sort: Sort) -> Result<TermId, AllocError>
    ensures extends { Extends terms.old terms.new }
    ensures made { IfOk result (λ id. Denotes terms.new id (input number sort)) }
{
    apply(terms, Op::Input { number, sort }, &[])
}

/// The opposite of a truth value.
pub(crate) fn not(terms: &mut Terms, of: TermId) -> Result<TermId, AllocError>
    requires { of.0 < length terms.old.nodes }
    ensures extends { Extends terms.old terms.new }
    ensures made { IfOk result (λ id. Denotes terms.new id (negation (term_at terms.old of))) }
{
    apply(terms, Op::Not, &[of])
}

/// Whether both are true.
pub(crate) fn and(terms: &mut Terms, left: TermId, right: TermId) -> Result<TermId, AllocError>
    requires left { left.0 < length terms.old.nodes }
    requires right { right.0 < length terms.old.nodes }
    ensures extends { Extends terms.old terms.new }
    ensures made { IfOk result
        (λ id. Denotes terms.new id (conjunction (term_at terms.old left) (term_at terms.old right))) }
{
    apply(terms, Op::And, &[left, right])
}

/// Whether one of both is true at least.
pub(crate) fn or(terms: &mut Terms, left: TermId, right: TermId) -> Result<TermId, AllocError>
    requires left { left.0 < length terms.old.nodes }
    requires right { right.0 < length terms.old.nodes }
    ensures extends { Extends terms.old terms.new }
    ensures made { IfOk result
        (λ id. Denotes terms.new id (disjunction (term_at terms.old left) (term_at terms.old right))) }
{
    apply(terms, Op::Or, &[left, right])
}

/// Whether both have the same value.
pub(crate) fn equal(terms: &mut Terms, left: TermId, right: TermId) -> Result<TermId, AllocError>
    requires left { left.0 < length terms.old.nodes }
    requires right { right.0 < length terms.old.nodes }
    ensures extends { Extends terms.old terms.new }
    ensures made { IfOk result
        (λ id. Denotes terms.new id (equality (term_at terms.old left) (term_at terms.old right))) }
{
    apply(terms, Op::Eq, &[left, right])
}

/// The first where the condition is true, else the second.
pub(crate) fn ite(
    terms: &mut Terms,
    condition: TermId,
    first: TermId,
    second: TermId,
) -> Result<TermId, AllocError>
    requires condition { condition.0 < length terms.old.nodes }
    requires first { first.0 < length terms.old.nodes }
    requires second { second.0 < length terms.old.nodes }
    ensures extends { Extends terms.old terms.new }
    ensures made { IfOk result (λ id. Denotes terms.new id
        (choice (term_at terms.old condition) (term_at terms.old first) (term_at terms.old second))) }
{
    apply(terms, Op::Ite, &[condition, first, second])
}
