//! Whether all rules of a claim are found, within a budget: candidates and counterexamples in turn.

ghost use Rattle.std.specs.Prelude.{◌≡◌, ◌≤◌, ◌<◌, ◌+◌, ◌∷◌, [], ℕ, length, All, IfOk, false};
ghost use Rattle.claim_outcome.specs.Outcome.{IsRuleOf, IsRight};
ghost use Rattle.claim_outcome.specs.Record.{IsRecord};
ghost use Rattle.claim_outcome.specs.Units.{units_of};
ghost use Rattle.claim_outcome.specs.declared.outcome.End.TheVariants as ended;
ghost use Rattle.loc_encode.specs.Given.{IsGiven};
ghost use Rattle.pattern_core.specs.Claim.{Claim, IsClaim};
ghost use Rattle.pattern_core.specs.Hopeless.{IsHopeless};
ghost use Rattle.pattern_core.specs.Order.{pattern_cmp, IsRising};
ghost use Rattle.cegis_loop.specs.Answer.{IsAnswer};
ghost use Rattle.cegis_loop.specs.Finder.{IsFindCall};
ghost use Rattle.cegis_loop.specs.Search.{IsSearching, IsCandidate, IsSettled, IsStep, is_skipped, asked_of};
ghost use Rattle.cegis_loop.specs.declared.answer.Confirm.TheVariants as confirm;

use crate::answer::{Confirm, Tried};
use crate::copies::copied_pattern;
use crate::finder::{Finder, Found, find};
use crate::search::{Search, confirmed, judged, refuted, start_search};
use claim_outcome::{Asked, End, Outcome, Question, Record};
use collections::Seq;
use isel_spec::Spec;
use loc_encode::{Encoded, has_one_claim};
use multiset_rank::Multi;
use pattern_core::{Pattern, hopeless, hopeless_has_no_pattern, rules_are_plain};
use plain_search::{search_multi, trials};
use std::alloc::{AllocError, Global};

/// What a step of the search leads to.
#[derive(Drop)]
enum Step {
    /// The search goes on.
    More(Search),
    /// It has ended.
    Done(Outcome),
}

/// The outcome where the budget is spent: all patterns are tried, if that takes no more trials than units.
fn ran_out(
    alloc: Global,
    spec: &Spec,
    goal: u32,
    multi: &Multi,
    budget: u64,
    found: Seq<Pattern>,
    kept: Record,
) -> Result<Outcome, AllocError>
    requires given { IsGiven spec.now goal multi.now }
    requires rules { (c : Claim) → IsClaim spec.now goal multi.now c → All (IsRuleOf c) found }
    requires rising { IsRising pattern_cmp found }
    requires kept { (c : Claim) → IsClaim spec.now goal multi.now c → IsRecord c found kept }
    requires units { units_of kept ≡ budget }
    ensures { IfOk result (IsSettled spec.now goal multi.now budget) }
{
    has_one_claim(spec, goal, multi);
    if let Some(count) = trials(spec, goal, multi) {
        if count <= budget {
            let rules = search_multi(alloc, spec, goal, multi)?;
            return Ok(Outcome {
                found: Seq::from_vec(rules),
                end: End::Decided,
            });
        }
    }
    Ok(Outcome {
        found,
        end: End::Spent(kept),
    })
}

/// A list of one call.
fn one_call(alloc: Global, question: Question, call: Tried) -> Result<Seq<Asked>, AllocError>
    ensures { IfOk result (λ calls. calls ≡ asked_of question call ∷ []) }
{
    let Tried { blasted, log } = call;
    let mut calls: Seq<Asked> = Seq::new(alloc);
    calls.push(Asked {
        question,
        blasted,
        log,
    })?;
    Ok(calls)
}

/// The outcome where there are as many candidates as units.
fn without_fuel(
    alloc: Global,
    spec: &Spec,
    goal: u32,
    multi: &Multi,
    budget: u64,
    search: Search,
) -> Result<Outcome, AllocError>
    requires given { IsGiven spec.now goal multi.now }
    requires searching { IsSearching spec.now goal multi.now search }
    requires all { length search.candidates ≡ budget }
    ensures { IfOk result (IsSettled spec.now goal multi.now budget) }
{
    let Search {
        finder,
        candidates,
        found,
        ..
    } = search;
    let Finder { encoded, .. } = finder;
    let Encoded { examples, .. } = encoded;
    has_one_claim(spec, goal, multi);
    let kept = Record {
        examples,
        candidates,
        calls: Seq::new(alloc),
    };
    ran_out(alloc, spec, goal, multi, budget, found, kept)
}

/// The outcome where the rest of the budget was spent on a call for the next candidate.
fn spent_on_find(
    alloc: Global,
    spec: &Spec,
    goal: u32,
    multi: &Multi,
    budget: u64,
    search: Search,
    call: Tried,
) -> Result<Outcome, AllocError>
    requires given { IsGiven spec.now goal multi.now }
    requires searching { IsSearching spec.now goal multi.now search }
    requires call { (c : Claim) (units : ℕ) → IsClaim spec.now goal multi.now c
        → length search.candidates + units ≡ budget → IsFindCall c search.finder.encoded units call }
    requires left { length search.candidates < budget }
    ensures { IfOk result (IsSettled spec.now goal multi.now budget) }
{
    let Search {
        finder,
        candidates,
        found,
        ..
    } = search;
    let Finder { encoded, .. } = finder;
    let Encoded { examples, .. } = encoded;
    has_one_claim(spec, goal, multi);
    let question = Question::Find {
        examples: examples.len(),
        candidates: candidates.len(),
    };
    let calls = one_call(alloc, question, call)?;
    let kept = Record {
        examples,
        candidates,
        calls,
    };
    ran_out(alloc, spec, goal, multi, budget, found, kept)
}

/// The call of a list of one.
fn only_call(calls: Seq<Tried>) -> Tried
    requires { length calls ≡ 1 }
    ensures { calls ≡ result ∷ [] }
{
    calls.into_vec().pop().unwrap()
}

/// The outcome where the rest of the budget was spent on the call whether this candidate is a rule.
fn spent_on_confirm(
    alloc: Global,
    spec: &Spec,
    goal: u32,
    multi: &Multi,
    budget: u64,
    search: Search,
    pattern: Pattern,
    calls: Seq<Tried>,
) -> Result<Outcome, AllocError>
    requires given { IsGiven spec.now goal multi.now }
    requires searching { IsSearching spec.now goal multi.now search }
    requires candidate { IsCandidate spec.now goal multi.now search pattern }
    requires left { length search.candidates < budget }
    requires calls { (c : Claim) (units : ℕ) → IsClaim spec.now goal multi.now c
        → length search.candidates + 1 + units ≡ budget → IsAnswer c pattern units 0 (confirm.Spent calls) }
    ensures { IfOk result (IsSettled spec.now goal multi.now budget) }
{
    let Search {
        finder,
        mut candidates,
        found,
        ..
    } = search;
    let Finder { encoded, .. } = finder;
    let Encoded { examples, .. } = encoded;
    has_one_claim(spec, goal, multi);
    let call = only_call(calls);
    let copy = copied_pattern(alloc, &pattern)?;
    let question = Question::Confirm { pattern: copy };
    let calls = one_call(alloc, question, call)?;
    candidates.push(pattern)?;
    let kept = Record {
        examples,
        candidates,
        calls,
    };
    ran_out(alloc, spec, goal, multi, budget, found, kept)
}

/// The step with this candidate.
fn tried(
    alloc: Global,
    spec: &Spec,
    goal: u32,
    multi: &Multi,
    budget: u64,
    search: Search,
    pattern: Pattern,
) -> Result<Step, AllocError>
    requires given { IsGiven spec.now goal multi.now }
    requires searching { IsSearching spec.now goal multi.now search }
    requires candidate { IsCandidate spec.now goal multi.now search pattern }
    requires left { length search.candidates < budget }
    ensures { IfOk result (IsStep spec.now goal multi.now budget (length search.candidates)) }
{
    has_one_claim(spec, goal, multi);
    let units = budget - search.candidates.len() as u64 - 1;
    let mut search = search;
    match judged(alloc, spec, goal, multi, &mut search.tests, &pattern, units)? {
        Confirm::Rule => Ok(Step::More(confirmed(alloc, spec, search, pattern)?)),
        Confirm::Differs(example) => {
            let next = refuted(alloc, spec, search, pattern, example)?;
            Ok(Step::More(next))
        }
        Confirm::Spent(calls) => {
            let outcome = spent_on_confirm(
                alloc, spec, goal, multi, budget, search, pattern, calls,
            )?;
            Ok(Step::Done(outcome))
        }
    }
}

/// The outcome where no canonical pattern is sought: all rules are found.
fn decided(search: Search) -> Outcome
    ensures { result ≡ record { found = search.found; end = ended.Decided } }
{
    Outcome {
        found: search.found,
        end: End::Decided,
    }
}

/// A step of the search, for which there is fuel left.
fn next_step(
    alloc: Global,
    spec: &Spec,
    goal: u32,
    multi: &Multi,
    budget: u64,
    search: Search,
) -> Result<Step, AllocError>
    requires given { IsGiven spec.now goal multi.now }
    requires searching { IsSearching spec.now goal multi.now search }
    requires left { length search.candidates < budget }
    ensures { IfOk result (IsStep spec.now goal multi.now budget (length search.candidates)) }
{
    has_one_claim(spec, goal, multi);
    rules_are_plain(spec, goal);
    let units = budget - search.candidates.len() as u64;
    let mut search = search;
    match find(alloc, spec, &mut search.finder, units)? {
        Found::Candidate(pattern) => tried(alloc, spec, goal, multi, budget, search, pattern),
        Found::Nothing => Ok(Step::Done(decided(search))),
        Found::Spent(call) => {
            let outcome = spent_on_find(alloc, spec, goal, multi, budget, search, call)?;
            Ok(Step::Done(outcome))
        }
    }
}

/// The outcome for a goal with a multiset of operations: each step has a candidate more, until the budget is spent.
fn searched(
    alloc: Global,
    spec: &Spec,
    goal: u32,
    multi: &Multi,
    budget: u64,
) -> Result<Outcome, AllocError>
    requires given { IsGiven spec.now goal multi.now }
    ensures { IfOk result (IsSettled spec.now goal multi.now budget) }
{
    let mut state = start_search(alloc, spec, goal, multi)?;
    for _done in 0..budget {
        match next_step(alloc, spec, goal, multi, budget, state)? {
            Step::More(next) => state = next,
            Step::Done(outcome) => return Ok(outcome),
        }
    }
    without_fuel(alloc, spec, goal, multi, budget, state)
}

/// The rules of a goal with a multiset of operations, where neither takes a memory: all of them, or those that were
/// found until the budget was spent. A unit of the budget is a candidate, or a conflict of the solver. Where the budget
/// is at least the number of trials that plain search takes, all are found. Out of memory, nothing is listed.
pub fn settle(alloc: Global, spec: &Spec, goal: u32, multi: &Multi, budget: u64) -> Outcome
    requires given { IsGiven spec.now goal multi.now }
    requires budget { 1 ≤ budget }
    ensures right { (c : Claim) → IsClaim spec.now goal multi.now c → IsRight c budget result }
    ensures searched { is_skipped result.end ≡ false }
    ensures hopeless { (c : Claim) → IsClaim spec.now goal multi.now c → IsHopeless c.file c.goal c.ops
        → (result.found ≡ []) × (result.end ≡ ended.Decided) }
{
    hopeless_has_no_pattern(spec, goal);
    has_one_claim(spec, goal, multi);
    if hopeless(spec, goal, multi) {
        return Outcome {
            found: Seq::new(alloc),
            end: End::Decided,
        };
    }
    match searched(alloc, spec, goal, multi, budget) {
        Ok(outcome) => outcome,
        Err(AllocError) => Outcome {
            found: Seq::new(alloc),
            end: End::NoMemory,
        },
    }
}
