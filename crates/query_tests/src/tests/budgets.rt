//! Questions with little fuel.

ghost use Rattle.std.specs.Prelude.{◌≡◌, IfOk};
ghost use Rattle.bv_query.specs.Session.{IsRightSession};

use super::answers::{Found, answer_to, counted};
use super::programs::Step::{Do, X, Y};
use super::programs::built;
use super::sessions::{fresh, is_yes, with_formula};
use bv_terms::{Op, TermId, Terms};
use cnf_core::Fuel;
use std::alloc::{AllocError, Global};

/// That two words are each less than the other.
fn contradiction(alloc: Global, terms: &mut Terms) -> Result<TermId, AllocError> {
    let steps = [X, Y, Do(Op::BvUlt), Y, X, Do(Op::BvUlt), Do(Op::And)];
    match *built(alloc, terms, &steps, 16)?.as_slice() {
        [formula] => Ok(formula),
        _ => Err(AllocError),
    }
}

/// What is answered to a contradiction with so many units.
fn answered(alloc: Global, units: u64) -> Result<Found, AllocError> {
    let mut terms = Terms::new(alloc, 64);
    let formula = contradiction(alloc, &mut terms)?;
    answer_to(alloc, &terms, formula, units)
}

/// What a session is left with after a question with so many units: how many, and the answer with ample fuel.
fn goes_on(alloc: Global, units: u64) -> Result<(u64, Option<bool>), AllocError> {
    let mut terms = Terms::new(alloc, 64);
    let formula = contradiction(alloc, &mut terms)?;
    let session = fresh(alloc, &terms)?;
    let mut session = with_formula(alloc, session, &terms, formula)?;
    let mut fuel = Fuel::new(units);
    let decision = session.decide(alloc, &terms, &mut fuel)?;
    let _counted = counted(alloc, &decision)?;
    Ok((fuel.left(), is_yes(alloc, &mut session, &terms)?))
}

#[test]
fn a_question_is_given_up_where_no_unit_is_left(rt: HostRuntime) {
    for units in [0, 1] {
        assert!(rt; answered(rt.alloc(), units) == Ok(Found::Spent(units as usize)));
    }
}

#[test]
fn a_session_goes_on(rt: HostRuntime) {
    for units in [0, 1] {
        assert!(rt; goes_on(rt.alloc(), units) == Ok((0, Some(false))));
    }
}

#[test]
fn ample_fuel_decides(rt: HostRuntime) {
    assert!(rt; matches!(answered(rt.alloc(), 1 << 20), Ok(Found::No(_))));
}
