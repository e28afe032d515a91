//! What is answered to formulas.

ghost use Rattle.std.specs.Prelude.{◌≡◌, ◌<◌, ◌∷◌, [], length, map, All};
ghost use Rattle.bv_terms.specs.Table.{term_at};
ghost use Rattle.bv_query.specs.Decision.{OnYes, IsWitness};

use bit_blast::is_formula;
use bv_query::{Decision, decide, have_one_sort};
use bv_terms::{TermId, Terms, Value};
use cnf_core::Fuel;
use proof_check::{Verdict, check_log};
use std::alloc::{AllocError, Global};

/// An answer, as tests compare it: the value of input 0, or how many units were spent.
#[derive(Clone, Copy, Debug, PartialEq, Eq)]
pub(crate) enum Found {
    Yes(Value),
    No(usize),
    Spent(usize),
    /// Values that the evaluator finds to be none of a witness, or a log that the checker does not accept.
    Wrong,
}

/// Whether a formula is true at a witness's values, by the evaluator.
fn is_true(
    alloc: Global,
    terms: &Terms,
    formula: TermId,
    decision: &Decision,
) -> Result<Option<Value>, AllocError>
    requires there { formula.0 < length terms.now.nodes }
    requires fits { OnYes decision.now (IsWitness (term_at terms.now formula ∷ [])) }
{
    let Decision::Yes(env) = decision else {
        return Ok(None);
    };
    let mut room = vec![in alloc; Value::Bool(false); terms.len()]?;
    if terms.eval(formula, env, &mut room) != Value::Bool(true) {
        return Ok(None);
    }
    Ok(env.values.as_slice().first().copied())
}

/// The answer, looked at again.
pub(crate) fn answer_to(
    alloc: Global,
    terms: &Terms,
    formula: TermId,
    units: u64,
) -> Result<Found, AllocError> {
    if formula.0 >= terms.len() || !is_formula(alloc, terms, formula)? {
        return Err(AllocError);
    }
    if !have_one_sort(alloc, terms, &[formula])? {
        return Err(AllocError);
    }
    let mut fuel = Fuel::new(units);
    let decision = decide(alloc, terms, formula, &mut fuel)?;
    if let Some(value) = is_true(alloc, terms, formula, &decision)? {
        return Ok(Found::Yes(value));
    }
    counted(alloc, &decision)
}

/// How many units were spent without values.
pub(crate) fn counted(alloc: Global, decision: &Decision) -> Result<Found, AllocError> {
    match decision {
        Decision::Yes(_) => Ok(Found::Wrong),
        Decision::No(refutation) => {
            let (blasted, log) = (refutation.blasted(), refutation.log());
            if check_log(alloc, &blasted.cnf, log)? == Verdict::Refuted {
                Ok(Found::No(log.chains.len()))
            } else {
                Ok(Found::Wrong)
            }
        }
        Decision::Spent { log, .. } => Ok(Found::Spent(log.chains.len())),
    }
}
