//! Sources with their terms, and the term of what takes one of them.

ghost use Rattle.std.specs.Prelude.{◌≡◌, ◌<◌, length, map, IfOk, option_map};
ghost use Rattle.bv_terms.specs.declared.op.TermId.{TermId};
ghost use Rattle.bv_terms.specs.Table.{term_at, Extends, IsTable};
ghost use Rattle.loc_encode.specs.Lines.{sourced, slot_at, taken, some_value, taken_term, IsPlain, AreIn};
ghost use Rattle.loc_encode.specs.Taking.{CanTake};

use crate::building::{choice, constant};
use crate::slots::Slot;
use bv_terms::{Sort, TermId, Terms, Value};
use pattern_core::Src;
use std::alloc::AllocError;

/// A source, a sort, and a term with the value that the source has where it is of that sort.
#[derive(Clone, Copy, Debug)]
pub(crate) struct Named {
    pub(crate) source: Src,
    pub(crate) sort: Sort,
    pub(crate) term: TermId,
}

/// What takes a value from a source: an argument in a place of the node at a line, or a result in a place.
#[derive(Clone, Copy, Debug)]
pub(crate) enum Taker {
    Arg { line: u8, place: u8 },
    Result { place: u8 },
}

/// The slot that says whether a source is taken.
fn slot_at(taker: Taker, source: Src) -> Slot
    ensures { result ≡ slot_at taker source }
{
    match taker {
        Taker::Arg { line, place } => Slot::Arg {
            line,
            place,
            source,
        },
        Taker::Result { place } => Slot::Result { place, source },
    }
}

/// A value of a sort.
fn some_value(sort: Sort) -> Value
    ensures { result ≡ some_value sort }
{
    match sort {
        Sort::Bits(width) => Value::Bits { width, number: 0 },
        Sort::Bool | Sort::Mem => Value::Bool(false),
    }
}

/// The term with one more source: it is taken where its slot is true, and where there are no others.
fn with_source(
    terms: &mut Terms,
    taker: Taker,
    named: Named,
    others: Option<TermId>,
) -> Result<TermId, AllocError>
    requires table { IsTable terms.old }
    requires can { CanTake terms.old named others }
    ensures term { IfOk result (λ id. term_at terms.new id
        ≡ taken taker (option_map (term_at terms.old) others) (sourced terms.old named)) }
    ensures within { IfOk result (λ id. id.0 < length terms.new.nodes) }
    ensures extends { Extends terms.old terms.new }
    ensures table { IsTable terms.new }
{
    let Some(others) = others else {
        return Ok(named.term);
    };
    choice(terms, slot_at(taker, named.source), named.term, others)
}

/// The term of what takes one of these sources of the sort: a chain of choices, or some constant where there is none.
pub(crate) fn taken_term(
    terms: &mut Terms,
    taker: Taker,
    sort: Sort,
    sources: &[Named],
) -> Result<TermId, AllocError>
    requires table { IsTable terms.old }
    requires sources { AreIn terms.old sources.now }
    requires plain { IsPlain sort }
    ensures term { IfOk result (λ id. term_at terms.new id
        ≡ taken_term taker sort (map (sourced terms.old) sources.now)) }
    ensures within { IfOk result (λ id. id.0 < length terms.new.nodes) }
    ensures extends { Extends terms.old terms.new }
    ensures table { IsTable terms.new }
{
    let mut found = None;
    for named in sources {
        if named.sort.is_same(sort) {
            found = Some(with_source(terms, taker, *named, found)?);
        }
    }
    match found {
        Some(id) => Ok(id),
        None => constant(terms, some_value(sort)),
    }
}
