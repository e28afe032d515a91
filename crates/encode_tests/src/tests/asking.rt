//! Each pattern of a formula: a session finds one after the other, and what was found is blocked.

ghost use Rattle.std.specs.Prelude.{◌≡◌, ◌<◌, length, IfOk, IfSome};
ghost use Rattle.bv_query.specs.Session.{IsRightSession};
ghost use Rattle.pattern_core.specs.Claim.{Claim, IsClaim};
ghost use Rattle.loc_encode.specs.Encoded.{IsSought};
ghost use Rattle.loc_encode.specs.Given.{IsGiven, IsPatternFor, IsRightFor};

use super::given::{example, is_canonical_for, is_example, is_given, is_same};
use bv_query::{Decision, Session};
use bv_terms::Terms;
use cnf_core::Fuel;
use collections::Seq;
use isel_spec::Spec;
use loc_encode::{Encoded, assign, block, decode, encode, extend, has_one_claim};
use multiset_rank::Multi;
use pattern_core::{Pattern, is_well_formed};
use std::alloc::{AllocError, Global};

/// More units than these questions take.
const UNITS: u64 = 1 << 20;

/// More than any formula here has.
const MOST: usize = 400;

/// The session with the formula besides, and a pattern of it, if there is one.
fn next_pattern(
    alloc: Global,
    spec: &Spec,
    session: Session,
    encoded: &Encoded,
    terms: &Terms,
) -> Result<(Session, Option<Pattern>), AllocError>
    requires given { IsGiven spec.now encoded.now.goal encoded.now.multi }
    requires right { IsRightFor spec.now encoded.now terms.now }
    requires session { IsRightSession session terms.now }
    ensures session { IfOk result (λ r. IsRightSession r.0 terms.now) }
    ensures sought { (c : Claim) → IsClaim spec.now encoded.now.goal encoded.now.multi c
        → IfOk result (λ r. IfSome r.1 (IsSought c encoded.now)) }
{
    let formula = encoded.formula;
    if formula.0 >= terms.len() || !session.admits(alloc, terms, formula)? {
        return Err(AllocError);
    }
    let mut session = session.assert(alloc, terms, formula)?;
    let mut fuel = Fuel::new(UNITS);
    match session.decide(alloc, terms, &mut fuel)? {
        Decision::Yes(env) => {
            let pattern = decode(alloc, spec, terms, encoded, &env)?;
            Ok((session, Some(pattern)))
        }
        Decision::No(_) => Ok((session, None)),
        Decision::Spent { .. } => Err(AllocError),
    }
}

/// Whether the pattern is well-formed, and comes back from the values that stand for it, if it is canonical.
fn comes_back(
    alloc: Global,
    spec: &Spec,
    encoded: &Encoded,
    pattern: &Pattern,
    terms: &Terms,
) -> Result<bool, AllocError>
    requires given { IsGiven spec.now encoded.now.goal encoded.now.multi }
    requires right { IsRightFor spec.now encoded.now terms.now }
    requires sought { (c : Claim) → IsClaim spec.now encoded.now.goal encoded.now.multi c
        → IsSought c encoded.now pattern.now }
{
    if !is_well_formed(spec, encoded.goal, pattern) {
        return Ok(false);
    }
    if !is_canonical_for(spec, encoded.goal, pattern) {
        return Ok(true);
    }
    has_one_claim(spec, encoded.goal, &encoded.multi);
    let env = assign(alloc, spec, terms, encoded, pattern)?;
    let again = decode(alloc, spec, terms, encoded, &env)?;
    Ok(is_same(pattern, &again))
}

/// Each pattern of the formula, in the order in which they are found; `None` where one does not come back.
fn all_patterns(
    alloc: Global,
    spec: &Spec,
    encoded: Encoded,
    terms: &mut Terms,
) -> Result<Option<Seq<Pattern>>, AllocError>
    requires given { IsGiven spec.now encoded.goal encoded.multi }
    requires right { IsRightFor spec.now encoded terms.old }
{
    let mut session = Session::new(alloc)?;
    let mut rest = encoded;
    for _ in 0..MOST {
        let (next, found) = next_pattern(alloc, spec, session, &rest, terms)?;
        // What is right over a table is right over each that extends it.
        next.formulas();
        session = next;
        let Some(pattern) = found else {
            return Ok(Some(rest.blocked));
        };
        if !comes_back(alloc, spec, &rest, &pattern, terms)? {
            return Ok(None);
        }
        let (more, _) = block(spec, rest, pattern, terms)?;
        rest = more;
    }
    Err(AllocError)
}

/// The formula with an example of these numbers besides.
fn with_example(
    alloc: Global,
    spec: &Spec,
    encoded: Encoded,
    numbers: [u64; 2],
    terms: &mut Terms,
) -> Result<Encoded, AllocError>
    requires given { IsGiven spec.now encoded.goal encoded.multi }
    requires pointer { terms.old.pointer ≡ spec.now.pointer }
    requires right { IsRightFor spec.now encoded terms.old }
    ensures given { IfOk result (λ e. IsGiven spec.now e.goal e.multi) }
    ensures pointer { terms.new.pointer ≡ spec.now.pointer }
    ensures right { IfOk result (λ e. IsRightFor spec.now e terms.new) }
{
    if encoded.goal as usize >= spec.goals.len() {
        return Err(AllocError);
    }
    let example = example(alloc, spec, encoded.goal, numbers)?;
    if !is_example(spec, encoded.goal, &example) {
        return Err(AllocError);
    }
    let (more, _) = extend(alloc, spec, encoded, example, terms)?;
    Ok(more)
}

/// The patterns of the first goal with these operations that agree with it at examples of these numbers.
pub(crate) fn patterns_of(
    alloc: Global,
    spec: &Spec,
    multi: &Multi,
    examples: &[[u64; 2]],
) -> Result<Option<Seq<Pattern>>, AllocError> {
    if spec.pointer != 32 || !is_given(spec, 0, multi) {
        return Err(AllocError);
    }
    let mut terms = Terms::new(alloc, spec.pointer);
    let (none, unblocked) = (Seq::new(alloc), Seq::new(alloc));
    let mut encoded = encode(alloc, spec, 0, multi, none, unblocked, &mut terms)?;
    for numbers in examples {
        encoded = with_example(alloc, spec, encoded, *numbers, &mut terms)?;
    }
    all_patterns(alloc, spec, encoded, &mut terms)
}
