//! Tests: a book of the claims of a file that was read, each settled by an enumeration, and the answers that it gives.

ghost use Rattle.std.specs.Prelude.{◌≡◌, ℕ, ◌<◌, length, slice_get, Some, IfOk, IfSome};
ghost use Rattle.isel_spec.specs.File.{Goal};
ghost use Rattle.isel_spec.specs.Spec.{file};
ghost use Rattle.multiset_rank.specs.Claims.{claims};
ghost use Rattle.multiset_rank.specs.Multisets.{AreBelow};
ghost use Rattle.claim_outcome.specs.Outcome.{IsRight};
ghost use Rattle.rule_library.specs.Book.{IsPlanOf, IsBook, AreRight};

use claim_outcome::{End, Outcome};
use collections::Seq;
use isel_spec::Spec;
use multiset_rank::{ClaimPlan, Multi};
use pattern_core::GoalAnswer;
use plain_search::{has_no_memory, search_multi, trials};
use rule_library::finish_book;
use spec_reader::read_spec;
use std::alloc::{AllocError, Global};
use std::test::Fail;

/// What an enumeration makes of a claim; `None` where there are too many trials, or a memory.
fn outcome(
    alloc: Global,
    spec: &Spec,
    goal: u32,
    multi: &Multi,
) -> Result<Option<Outcome>, AllocError>
    requires there { goal < length spec.now.goals }
    requires ops { AreBelow (length spec.now.ops) multi.now }
    ensures { IfOk result (λ found. IfSome found (λ outcome. (g : Goal)
        → slice_get (file spec.now).goals goal ≡ Some g
        → IsRight (record { file = file spec.now; goal = g; ops = multi.now }) 0 outcome)) }
{
    if !has_no_memory(spec, goal) {
        return Ok(None);
    }
    let Some(_) = trials(spec, goal, multi) else {
        return Ok(None);
    };
    let found = search_multi(alloc, spec, goal, multi)?;
    Ok(Some(Outcome {
        found: Seq::from_vec(found),
        end: End::Decided,
    }))
}

/// The book of a plan's claims; `None` where one of them is not settled.
fn book_of(
    alloc: Global,
    spec: &Spec,
    plan: ClaimPlan,
) -> Result<Option<Vec<(u64, Outcome)>>, AllocError>
    requires plan { IsPlanOf (file spec.now) plan }
    ensures book { IfOk result (λ found. IfSome found (λ book. IsBook (length (claims plan)) book.items)) }
    ensures right { IfOk result (λ found. IfSome found (λ book. AreRight (file spec.now) plan 0 book.items)) }
{
    let mut book = Vec::new(alloc);
    for number in 0..plan.claims() {
        let (goal, multi) = plan.claim(number);
        let Some(outcome) = outcome(alloc, spec, goal, &multi)? else {
            return Ok(None);
        };
        book.push((number, outcome))?;
    }
    Ok(Some(book))
}

/// The plan of a file; `None` where there are too many goals, operations or claims.
fn plan_of(spec: &Spec, bound: u8) -> Option<ClaimPlan>
    ensures { IfSome result (λ plan. IsPlanOf (file spec.now) plan) }
{
    let goals = spec.goals.len();
    let kinds = spec.ops.len();
    if goals == 0 || goals > 256 {
        return None;
    }
    if kinds == 0 || kinds > 64 {
        return None;
    }
    if bound > 6 {
        return None;
    }
    ClaimPlan::new(goals as u32, kinds as u32, bound).ok()
}

/// The size and the number of the rules of an answer, and how many claims are open.
fn told(answer: &GoalAnswer) -> (Option<u8>, usize, usize) {
    match answer {
        GoalAnswer::Complete { size, rules } => (Some(*size), rules.len(), 0),
        GoalAnswer::Partial {
            size,
            rules,
            undecided,
        } => (Some(*size), rules.len(), undecided.len()),
        GoalAnswer::None => (None, 0, 0),
        GoalAnswer::Stopped { undecided } => (None, 0, undecided.len()),
    }
}

/// The same of the goal in a place of a text.
fn finished(
    alloc: Global,
    text: &str,
    bound: u8,
    place: usize,
) -> Result<Option<(Option<u8>, usize, usize)>, Fail> {
    let spec = read_spec(alloc, text.as_bytes()).ok().ok_or("a file")?;
    let Some(plan) = plan_of(&spec, bound) else {
        return Ok(None);
    };
    let Some(book) = book_of(alloc, &spec, plan)? else {
        return Ok(None);
    };
    let finished = finish_book(alloc, &spec, plan, &book)?;
    let Some(answer) = finished.goals.as_slice().get(place) else {
        return Ok(None);
    };
    Ok(Some(told(answer)))
}

/// Two goals: one that is an input, and one of two operations; none of the operations gives a product.
const FILE: &str = "(isel-spec 1 32) (op not2 ((a (_ BitVec 2))) () ((bvnot a))) \
    (op and2 ((a (_ BitVec 2)) (b (_ BitVec 2))) () ((bvand a b))) \
    (goal mov2 ((reg a (_ BitVec 2))) 1 (a)) \
    (goal andn2 ((reg a (_ BitVec 2)) (reg b (_ BitVec 2))) 1 ((bvand a (bvnot b)))) \
    (goal mul2 ((reg a (_ BitVec 2)) (reg b (_ BitVec 2))) 1 ((bvmul a b)))";

/// The bound, the goal's place, and the size and number of its rules.
const ANSWERS: [(u8, usize, Option<u8>, usize); 4] = [
    (2, 0, Some(0), 1),
    (2, 1, Some(2), 2),
    (2, 2, None, 0),
    (1, 1, None, 0),
];

#[test]
fn answers_of_a_book(rt: HostRuntime) -> Result<(), Fail> {
    for (bound, place, size, count) in ANSWERS {
        assert!(rt;
            finished(rt.alloc(), FILE, bound, place)? == Some((size, count, 0)),
            "{bound} {place}"
        );
    }
    Ok(())
}
