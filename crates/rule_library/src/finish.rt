//! The answers of a whole book.

ghost use Rattle.std.specs.Prelude.{◌≡◌, ℕ, IsErr, IfOk, length};
ghost use Rattle.isel_spec.specs.Spec.{file};
ghost use Rattle.multiset_rank.specs.Claims.{claims};
ghost use Rattle.pattern_core.specs.Pattern.{Pairwise};
ghost use Rattle.rule_library.specs.Answer.{AreAnswersOf};
ghost use Rattle.rule_library.specs.Book.{IsPlanOf, IsBook, AreRight, HasRunOut};
ghost use Rattle.rule_library.specs.Promise.{IsPromised};

use crate::ends::has_run_out;
use crate::index::Index;
use claim_outcome::Outcome;
use collections::Seq;
use isel_spec::Spec;
use multiset_rank::ClaimPlan;
use pattern_core::GoalAnswer;
use std::alloc::{AllocError, Global};

/// An answer for each goal of a file, in order.
#[derive(Debug, Drop)]
pub struct Finished {
    pub goals: Seq<GoalAnswer>,
}

/// The answers that a book of claims gives: for each goal the found patterns of the least size, and the open claims
/// that may have as small ones. An `Err` is out of memory, here or at a claim of the book.
///
/// Each claim of the plan stands in the book once, and each entry is right at one budget.
pub fn finish_book(
    alloc: Global,
    spec: &Spec,
    plan: ClaimPlan,
    book: &[(u64, Outcome)],
) -> Result<Finished, AllocError>
    requires plan { IsPlanOf (file spec.now) plan }
    requires book { IsBook (length (claims plan)) book.now }
    requires right { (budget : ℕ) × AreRight (file spec.now) plan budget book.now }
    ensures answers { IfOk result (λ finished. AreAnswersOf plan book.now finished.goals) }
    ensures memory { HasRunOut book.now → IsErr result }
    // What the answers say of the file's goals, for each budget at which the entries are right.
    ensures promise { IfOk result (λ finished. (budget : ℕ) → AreRight (file spec.now) plan budget book.now
        → Pairwise (IsPromised (file spec.now) plan.bound budget) (file spec.now).goals finished.goals) }
{
    if has_run_out(book) {
        return Err(AllocError);
    }
    // That the terms make a table, and so are well-sorted, is known from a call alone.
    spec.terms.len();
    let index = Index::of_book(alloc, plan, book)?;
    let mut goals = Vec::new(alloc);
    for goal in 0..plan.goals() {
        goals.push(index.answer(alloc, goal)?)?;
    }
    Ok(Finished {
        goals: Seq::from_vec(goals),
    })
}
