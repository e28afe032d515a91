//! The library of a file: what became of each of its claims, the answers for its goals, and their text.

ghost use Rattle.std.specs.Prelude.{◌≡◌, ◌≤◌, IfOk, length};
ghost use Rattle.std.specs.List.{list_any};
ghost use Rattle.isel_spec.specs.Spec.{file};
ghost use Rattle.multiset_rank.specs.Claims.{claims};
ghost use Rattle.rule_library.specs.Book.{IsPlanOf, IsBook, AreRight};
ghost use Rattle.isel_cmd.specs.Refusal.{HasMemory};
ghost use Rattle.isel_cmd.specs.Program.{lists_open};
ghost use Rattle.isel_cmd.specs.Work.{IsTextOf};

use cegis_loop::settle;
use claim_outcome::Outcome;
use isel_spec::Spec;
use multiset_rank::ClaimPlan;
use pattern_core::GoalAnswer;
use pattern_text::write_library;
use rule_library::finish_book;
use std::alloc::{AllocError, Global};

/// The text of a library, and whether it lists a claim as undecided.
#[derive(Drop)]
pub(crate) struct Library {
    pub(crate) text: String,
    pub(crate) is_open: bool,
}

/// What became of each claim, by rising number, with so many units of work for each.
fn book_of(
    alloc: Global,
    spec: &Spec,
    plan: ClaimPlan,
    budget: u64,
) -> Result<Vec<(u64, Outcome)>, AllocError>
    requires plan { IsPlanOf (file spec.now) plan }
    requires memory { ¬ HasMemory (file spec.now) }
    requires budget { 1 ≤ budget }
    ensures book { IfOk result (λ book. IsBook (length (claims plan)) book.items) }
    ensures right { IfOk result (λ book. AreRight (file spec.now) plan budget book.items) }
{
    let mut book = Vec::new(alloc);
    for number in 0..plan.claims() {
        let (goal, multi) = plan.claim(number);
        book.push((number, settle(alloc, spec, goal, &multi, budget)))?;
    }
    Ok(book)
}

/// Whether an answer lists undecided claims.
fn lists_open(answer: &GoalAnswer) -> bool
    ensures { result ≡ lists_open answer.now }
{
    match answer {
        GoalAnswer::Complete { .. } => false,
        GoalAnswer::Partial { .. } => true,
        GoalAnswer::None => false,
        GoalAnswer::Stopped { .. } => true,
    }
}

/// Whether one of some answers does.
fn list_open(answers: &[GoalAnswer]) -> bool
    ensures { result ≡ list_any lists_open answers.now }
{
    for answer in answers {
        if lists_open(answer) {
            return true;
        }
    }
    false
}

/// The library of a file, with so many units of work for each claim.
pub(crate) fn library_of(
    alloc: Global,
    spec: &Spec,
    plan: ClaimPlan,
    budget: u64,
) -> Result<Library, AllocError>
    requires plan { IsPlanOf (file spec.now) plan }
    requires memory { ¬ HasMemory (file spec.now) }
    requires budget { 1 ≤ budget }
    ensures { IfOk result (IsTextOf (file spec.now) plan.bound budget) }
{
    let book = book_of(alloc, spec, plan, budget)?;
    let finished = finish_book(alloc, spec, plan, &book)?;
    let answers = finished.goals.as_slice();
    let text = write_library(alloc, spec, answers)?;
    Ok(Library {
        text,
        is_open: list_open(answers),
    })
}
