//! Formulas asserted one after the other, with questions between: each answer is that of a fresh session.

ghost use Rattle.std.specs.Prelude.{◌≡◌, ◌<◌, ◌++◌, ◌∷◌, [], length, All, IfOk};
ghost use Rattle.bv_query.specs.Session.{IsRightSession};

use super::programs::Step::{Do, Number, P, Q, X, Y, Z};
use super::programs::{Step, built, made};
use bv_query::{Decision, Session};
use bv_terms::{Op, TermId, Terms};
use cnf_core::Fuel;
use std::alloc::{AllocError, Global};

/// More units than these questions take.
const UNITS: u64 = 1 << 20;

/// A session without a formula.
pub(crate) fn fresh(alloc: Global, terms: &Terms) -> Result<Session, AllocError>
    ensures { IfOk result (λ s. IsRightSession s terms.now) }
{
    let _count = terms.len();
    let session = Session::new(alloc)?;
    Ok(session)
}

/// A session with one formula more.
pub(crate) fn with_formula(
    alloc: Global,
    session: Session,
    terms: &Terms,
    formula: TermId,
) -> Result<Session, AllocError>
    requires { IsRightSession session terms.now }
    ensures { IfOk result (λ s. IsRightSession s terms.now) }
{
    if formula.0 >= terms.len() || !session.admits(alloc, terms, formula)? {
        return Err(AllocError);
    }
    session.assert(alloc, terms, formula)
}

/// Whether values are found: none where the fuel is spent.
pub(crate) fn is_yes(
    alloc: Global,
    session: &mut Session,
    terms: &Terms,
) -> Result<Option<bool>, AllocError>
    requires { IsRightSession session.old terms.now }
    ensures { IsRightSession session.new terms.now }
{
    let mut fuel = Fuel::new(UNITS);
    match session.decide(alloc, terms, &mut fuel)? {
        Decision::Yes(_) => Ok(Some(true)),
        Decision::No(_) => Ok(Some(false)),
        Decision::Spent { .. } => Ok(None),
    }
}

/// What a fresh session answers to one formula.
fn is_yes_anew(alloc: Global, terms: &Terms, formula: TermId) -> Result<Option<bool>, AllocError> {
    let session = fresh(alloc, terms)?;
    let mut session = with_formula(alloc, session, terms, formula)?;
    is_yes(alloc, &mut session, terms)
}

/// The formulas that a program leaves on the stack, and the conjunction of the first two and of all three.
fn questions(alloc: Global, terms: &mut Terms, steps: &[Step]) -> Result<[TermId; 5], AllocError> {
    let stack = built(alloc, terms, steps, 8)?;
    let [first, second, third] = *stack.as_slice() else {
        return Err(AllocError);
    };
    let two = made(terms, Op::And, &[first, second])?;
    let all = made(terms, Op::And, &[two, third])?;
    Ok([first, second, third, two, all])
}

/// The answers after each of the three formulas that a program leaves; none where one is not a fresh session's.
fn answers(alloc: Global, steps: &[Step]) -> Result<[Option<bool>; 3], AllocError> {
    let mut terms = Terms::new(alloc, 64);
    let formulas = questions(alloc, &mut terms, steps)?;
    let session = fresh(alloc, &terms)?;
    let (session, one) = after(alloc, session, &terms, formulas[0], formulas[0])?;
    let (session, two) = after(alloc, session, &terms, formulas[1], formulas[3])?;
    let (_session, three) = after(alloc, session, &terms, formulas[2], formulas[4])?;
    Ok([one, two, three])
}

/// A session with one formula more, and its answer, where a fresh session has it for the conjunction.
fn after(
    alloc: Global,
    session: Session,
    terms: &Terms,
    formula: TermId,
    conjunction: TermId,
) -> Result<(Session, Option<bool>), AllocError>
    requires { IsRightSession session terms.now }
    ensures { IfOk result (λ r. IsRightSession r.0 terms.now) }
{
    let more = with_formula(alloc, session, terms, formula)?;
    asked(alloc, more, terms, conjunction)
}

/// The answer of a session, asked twice, where a fresh session has it for the formula too.
fn asked(
    alloc: Global,
    session: Session,
    terms: &Terms,
    formula: TermId,
) -> Result<(Session, Option<bool>), AllocError>
    requires { IsRightSession session terms.now }
    ensures { IfOk result (λ r. IsRightSession r.0 terms.now) }
{
    let mut session = session;
    let found = is_yes(alloc, &mut session, terms)?;
    let again = is_yes(alloc, &mut session, terms)?;
    let fresh = is_yes_anew(alloc, terms, formula)?;
    if found != again || found != fresh {
        return Ok((session, None));
    }
    Ok((session, found))
}

#[test]
fn an_order_goes_round(rt: HostRuntime) {
    let steps = [
        X,
        Y,
        Do(Op::BvUlt),
        Y,
        Z,
        Do(Op::BvUlt),
        Z,
        X,
        Do(Op::BvUlt),
    ];
    assert!(rt; answers(rt.alloc(), &steps) == Ok([Some(true), Some(true), Some(false)]));
}

#[test]
fn a_sum_is_fixed(rt: HostRuntime) {
    let steps = [
        X,
        Y,
        Do(Op::BvAdd),
        Number(7),
        Do(Op::Eq),
        X,
        Number(3),
        Do(Op::Eq),
        Y,
        Number(4),
        Do(Op::Eq),
    ];
    assert!(rt; answers(rt.alloc(), &steps) == Ok([Some(true), Some(true), Some(true)]));
}

#[test]
fn an_early_contradiction_stays(rt: HostRuntime) {
    let steps = [
        X,
        Number(0),
        Do(Op::BvUlt),
        P,
        Q,
        Do(Op::Or),
        P,
        Do(Op::Not),
    ];
    assert!(rt; answers(rt.alloc(), &steps) == Ok([Some(false), Some(false), Some(false)]));
}

#[test]
fn truth_values_and_words(rt: HostRuntime) {
    let steps = [
        P,
        Q,
        Do(Op::Implies),
        P,
        X,
        Y,
        Do(Op::Ite),
        X,
        Do(Op::Eq),
        Do(Op::Not),
        P,
        X,
        Y,
        Do(Op::Eq),
        Do(Op::Not),
        Do(Op::And),
    ];
    assert!(rt; answers(rt.alloc(), &steps) == Ok([Some(true), Some(true), Some(false)]));
}
