//! Where the entries of claims stand in a book, and what they tell of a goal.

ghost use Rattle.std.specs.Prelude.{◌≡◌, ◌+◌, ◌<◌, ◌≤◌, IfOk, OnOk, length};
ghost use Rattle.multiset_rank.specs.Claims.{claims, IsInPlan};
ghost use Rattle.rule_library.specs.Answer.{AreFound, AreOpen, IsAnswerOf};
ghost use Rattle.rule_library.specs.Book.{IsBook};
ghost use Rattle.rule_library.specs.Steps.{ArePlaces, StandsIn, AreSorted, IsIndex, IsMadeWith, IsMadeWithout, IsBelow};

use crate::copies::add_copies;
use crate::ends::note_open;
use claim_outcome::Outcome;
use collections::Seq;
use multiset_rank::{ClaimPlan, Multi, count, unrank};
use pattern_core::{GoalAnswer, Pattern};
use std::alloc::{AllocError, Global};

/// A book of a plan's claims, and the place of each claim there.
#[derive(Drop)]
pub(crate) struct Index<'a> {
    plan: ClaimPlan,
    book: &'a [(u64, Outcome)],
    places: Vec<usize>,
}

/// The places of the claims in a book.
fn places_of(alloc: Global, count: u64, book: &[(u64, Outcome)]) -> Result<Vec<usize>, AllocError>
    requires { IsBook count book.now }
    ensures { IfOk result (λ places. ArePlaces count book.now places.items) }
{
    let mut places = vec![in alloc; 0; count as usize]?;
    for place in 0..book.len() {
        places[book[place].0 as usize] = place;
    }
    Ok(places)
}

/// The answer with rules of that size.
fn with_rules(size: u8, rules: Vec<Pattern>, undecided: Vec<Multi>) -> GoalAnswer
    ensures { IsMadeWith size rules.items undecided.items result }
{
    if undecided.is_empty() {
        return GoalAnswer::Complete {
            size,
            rules: Seq::from_vec(rules),
        };
    }
    GoalAnswer::Partial {
        size,
        rules: Seq::from_vec(rules),
        undecided: Seq::from_vec(undecided),
    }
}

/// The answer without rules.
fn without_rules(undecided: Vec<Multi>) -> GoalAnswer
    ensures { IsMadeWithout undecided.items result }
{
    if undecided.is_empty() {
        return GoalAnswer::None;
    }
    GoalAnswer::Stopped {
        undecided: Seq::from_vec(undecided),
    }
}

impl<'a> Index<'a> {
    /// The index of a book.
    pub(crate) fn of_book(
        alloc: Global,
        plan: ClaimPlan,
        book: &'a [(u64, Outcome)],
    ) -> Result<Index<'a>, AllocError>
        requires book { IsBook (length (claims plan)) book.now }
        requires sorted { AreSorted plan book.now }
        ensures index { IfOk result IsIndex }
        ensures plan { IfOk result (λ index. index.plan ≡ plan) }
        ensures book { IfOk result (λ index. index.book.now ≡ book.now) }
    {
        let places = places_of(alloc, plan.claims(), book)?;
        Ok(Index { plan, book, places })
    }

    /// Where the entry of the claim of a goal with these operations stands in the book.
    fn place(&self, goal: u32, multi: &Multi) -> usize
        requires index { IsIndex self.now }
        requires in_plan { IsInPlan self.now.plan goal multi.now }
        ensures { StandsIn self.now.plan self.now.book.now goal multi.now result }
    {
        let number = self.plan.number(goal, multi);
        self.places[number as usize]
    }

    /// The patterns of one size that were found for a goal, in order. The open claims of that size are added to those
    /// of smaller ones.
    fn of_size(
        &self,
        alloc: Global,
        goal: u32,
        size: u8,
        undecided: &mut Vec<Multi>,
    ) -> Result<Vec<Pattern>, AllocError>
        requires index { IsIndex self.now }
        requires goal { goal < self.now.plan.goals }
        requires size { size ≤ self.now.plan.bound }
        requires before { AreOpen self.now.plan self.now.book.now goal (IsBelow size) undecided.old.items }
        ensures rules { IfOk result (λ rules. AreFound self.now.plan self.now.book.now goal size rules.items) }
        ensures after { OnOk result
            (AreOpen self.now.plan self.now.book.now goal (IsBelow (size + 1)) undecided.new.items) }
    {
        let kinds = self.plan.kinds();
        let mut rules = Vec::new(alloc);
        for number in 0..count(kinds, size) {
            let multi = unrank(kinds, size, number);
            let entry = &self.book[self.place(goal, &multi)];
            add_copies(alloc, &mut rules, entry.1.found.as_slice())?;
            note_open(undecided, multi, &entry.1.end)?;
        }
        Ok(rules)
    }

    /// The answer for a goal.
    pub(crate) fn answer(&self, alloc: Global, goal: u32) -> Result<GoalAnswer, AllocError>
        requires index { IsIndex self.now }
        requires goal { goal < self.now.plan.goals }
        ensures { IfOk result (IsAnswerOf self.now.plan self.now.book.now goal) }
    {
        let mut undecided = Vec::new(alloc);
        for size in 0..self.plan.bound() + 1 {
            let rules = self.of_size(alloc, goal, size, &mut undecided)?;
            if !rules.is_empty() {
                return Ok(with_rules(size, rules, undecided));
            }
        }
        Ok(without_rules(undecided))
    }
}
