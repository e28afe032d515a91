//! The formulas by which the next candidate of a claim is found. What is new of them is asserted beside the old, so
//! that the solver keeps what it learnt.

ghost use Rattle.std.specs.Prelude.{◌≡◌, ◌++◌, ◌∷◌, [], All, IfOk};
ghost use Rattle.bv_query.specs.Session.{IsRightSession};
ghost use Rattle.bv_terms.specs.declared.op.TermId.{TermId};
ghost use Rattle.loc_encode.specs.Given.{IsGiven, IsExampleFor, IsPatternFor, IsRightFor};
ghost use Rattle.loc_encode.specs.Parts.{IsTruthOver};
ghost use Rattle.pattern_core.specs.Claim.{Claim, IsClaim};
ghost use Rattle.cegis_loop.specs.Finder.{IsFinder, IsDecidedFor, IsFoundFor};

use crate::answer::Tried;
use bv_query::{Decision, Session};
use bv_terms::{TermId, Terms};
use cnf_core::Fuel;
use collections::Seq;
use isel_spec::Spec;
use loc_encode::{
    Encoded, block, decode, encode, extend, has_one_claim, inputs_have_one_sort,
    patterns_have_values, stays_right, values_fit,
};
use multiset_rank::Multi;
use pattern_core::{Example, Pattern};
use std::alloc::{AllocError, Global};

/// A claim as a formula over a table of terms, and the session in which its parts are asserted.
#[derive(Drop)]
pub(crate) struct Finder {
    pub(crate) terms: Terms,
    pub(crate) encoded: Encoded,
    pub(crate) session: Session,
}

/// What a search for the next candidate found.
#[derive(Drop)]
pub(crate) enum Found {
    /// A pattern that agrees with the goal at all examples and isn't blocked.
    Candidate(Pattern),
    /// No such pattern is canonical.
    Nothing,
    /// No fuel is left: the call on which it was spent.
    Spent(Tried),
}

/// A session with one more formula, a truth value over the slots of a claim, as those before are.
fn with_formula(
    alloc: Global,
    spec: &Spec,
    goal: u32,
    multi: &Multi,
    terms: &Terms,
    session: Session,
    formula: TermId,
) -> Result<Session, AllocError>
    requires given { IsGiven spec.now goal multi.now }
    requires right { IsRightSession session terms.now }
    requires before { (c : Claim) → IsClaim spec.now goal multi.now c
        → All (λ (at : TermId). IsTruthOver c terms.now at) session.blast.formulas }
    requires over { (c : Claim) → IsClaim spec.now goal multi.now c → IsTruthOver c terms.now formula }
    ensures formulas { IfOk result (λ s. s.blast.formulas ≡ session.blast.formulas ++ formula ∷ []) }
    ensures right { IfOk result (λ s. IsRightSession s terms.now) }
{
    has_one_claim(spec, goal, multi);
    inputs_have_one_sort(spec, goal, multi);
    session.assert(alloc, terms, formula)
}

/// Without an example, and with nothing blocked. An `Err`, here and below, is out of memory.
pub(crate) fn start_finder(
    alloc: Global,
    spec: &Spec,
    goal: u32,
    multi: &Multi,
) -> Result<Finder, AllocError>
    requires given { IsGiven spec.now goal multi.now }
    ensures right { IfOk result (IsFinder spec.now goal multi.now) }
    ensures examples { IfOk result (λ n. n.encoded.examples ≡ []) }
    ensures blocked { IfOk result (λ n. n.encoded.blocked ≡ []) }
{
    // That the terms make a table, and how wide a pointer is, is known by this call.
    let _count = spec.terms.len();
    has_one_claim(spec, goal, multi);
    let mut terms = Terms::new(alloc, spec.terms.pointer());
    let (examples, blocked) = (Seq::new(alloc), Seq::new(alloc));
    let encoded = encode(alloc, spec, goal, multi, examples, blocked, &mut terms)?;
    let empty = Session::new(alloc)?;
    let session = with_formula(alloc, spec, goal, multi, &terms, empty, encoded.formula)?;
    Ok(Finder {
        terms,
        encoded,
        session,
    })
}

/// With one more formula asserted, which says what the claim's formula says besides the old one.
fn with_part(
    alloc: Global,
    spec: &Spec,
    terms: Terms,
    encoded: Encoded,
    session: Session,
    part: TermId,
) -> Result<Finder, AllocError>
    requires given { IsGiven spec.now encoded.goal encoded.multi }
    requires right { IsRightSession session terms }
    requires before { (c : Claim) → IsClaim spec.now encoded.goal encoded.multi c
        → All (λ (at : TermId). IsTruthOver c terms at) session.blast.formulas }
    requires over { (c : Claim) → IsClaim spec.now encoded.goal encoded.multi c → IsTruthOver c terms part }
    ensures terms { IfOk result (λ n. n.terms ≡ terms) }
    ensures encoded { IfOk result (λ n. n.encoded ≡ encoded) }
    ensures formulas { IfOk result (λ n. n.session.blast.formulas ≡ session.blast.formulas ++ part ∷ []) }
    ensures right { IfOk result (λ n. IsRightSession n.session terms) }
{
    let multi = encoded.multi;
    let session = with_formula(alloc, spec, encoded.goal, &multi, &terms, session, part)?;
    Ok(Finder {
        terms,
        encoded,
        session,
    })
}

/// With one more example.
pub(crate) fn with_example(
    alloc: Global,
    spec: &Spec,
    finder: Finder,
    example: Example,
) -> Result<Finder, AllocError>
    requires given { IsGiven spec.now finder.encoded.goal finder.encoded.multi }
    requires right { IsFinder spec.now finder.encoded.goal finder.encoded.multi finder }
    requires example { IsExampleFor spec.now finder.encoded.goal finder.encoded.multi example }
    ensures right { IfOk result (IsFinder spec.now finder.encoded.goal finder.encoded.multi) }
    ensures examples { IfOk result (λ n. n.encoded.examples ≡ finder.encoded.examples ++ example ∷ []) }
    ensures blocked { IfOk result (λ n. n.encoded.blocked ≡ finder.encoded.blocked) }
{
    stays_right();
    let Finder {
        mut terms,
        encoded,
        session,
    } = finder;
    let _asserted = session.formulas();
    let (more, part) = extend(alloc, spec, encoded, example, &mut terms)?;
    with_part(alloc, spec, terms, more, session, part)
}

/// With one more pattern blocked.
pub(crate) fn without_pattern(
    alloc: Global,
    spec: &Spec,
    finder: Finder,
    pattern: Pattern,
) -> Result<Finder, AllocError>
    requires given { IsGiven spec.now finder.encoded.goal finder.encoded.multi }
    requires right { IsFinder spec.now finder.encoded.goal finder.encoded.multi finder }
    requires pattern { IsPatternFor spec.now finder.encoded.goal finder.encoded.multi pattern }
    ensures right { IfOk result (IsFinder spec.now finder.encoded.goal finder.encoded.multi) }
    ensures examples { IfOk result (λ n. n.encoded.examples ≡ finder.encoded.examples) }
    ensures blocked { IfOk result (λ n. n.encoded.blocked ≡ finder.encoded.blocked ++ pattern ∷ []) }
{
    stays_right();
    let Finder {
        mut terms,
        encoded,
        session,
    } = finder;
    let _asserted = session.formulas();
    let (more, part) = block(spec, encoded, pattern, &mut terms)?;
    with_part(alloc, spec, terms, more, session, part)
}

/// What the solver's answer says, before which there were so many units.
fn concluded(
    alloc: Global,
    spec: &Spec,
    terms: &Terms,
    encoded: &Encoded,
    units: u64,
    decision: Decision,
) -> Result<Found, AllocError>
    requires given { IsGiven spec.now encoded.now.goal encoded.now.multi }
    requires right { IsRightFor spec.now encoded.now terms.now }
    requires decided { IsDecidedFor spec.now terms.now encoded.now units decision }
    ensures { IfOk result (λ found. (c : Claim) → IsClaim spec.now encoded.now.goal encoded.now.multi c
        → IsFoundFor c encoded.now units found) }
{
    match decision {
        Decision::Yes(env) => Ok(Found::Candidate(decode(alloc, spec, terms, encoded, &env)?)),
        Decision::No(_refutation) => Ok(Found::Nothing),
        Decision::Spent { blasted, log } => Ok(Found::Spent(Tried { blasted, log })),
    }
}

/// Asks the solver for the next candidate, with so many units of fuel. The finder is as before.
pub(crate) fn find(
    alloc: Global,
    spec: &Spec,
    finder: &mut Finder,
    units: u64,
) -> Result<Found, AllocError>
    requires given { IsGiven spec.now finder.old.encoded.goal finder.old.encoded.multi }
    requires right { IsFinder spec.now finder.old.encoded.goal finder.old.encoded.multi finder.old }
    ensures same { finder.new ≡ finder.old }
    ensures found { IfOk result (λ found. (c : Claim)
        → IsClaim spec.now finder.old.encoded.goal finder.old.encoded.multi c
        → IsFoundFor c finder.old.encoded units found) }
{
    let multi = finder.encoded.multi;
    values_fit();
    has_one_claim(spec, finder.encoded.goal, &multi);
    patterns_have_values(spec, finder.encoded.goal, &multi);
    let mut fuel = Fuel::new(units);
    let decision = finder.session.decide(alloc, &finder.terms, &mut fuel)?;
    concluded(alloc, spec, &finder.terms, &finder.encoded, units, decision)
}
