//! What the items of a library claim of a file's goals.

ghost use Rattle.std.specs.Prelude.{◌≡◌, ◌<◌, ◌≤◌, ◌+◌, ◌==◌, ℕ, List, [], map, length, Ok, Err, IfOk, MatchResult};
ghost use Rattle.std.specs.List.{All, list_any};
ghost use Rattle.sexp_read.specs.Forest.{IsReading, tree_at};
ghost use Rattle.sexp_read.specs.Tree.{from_of};
ghost use Rattle.isel_spec.specs.Spec.{file};
ghost use Rattle.pattern_text.specs.declared.claimed.Claimed.{Claimed};
ghost use Rattle.pattern_text.specs.Rules.{goal_read, opens_read};
ghost use Rattle.pattern_text.specs.Reading.{size_of, rule_count, new_goal, claim_read, claimed, IsClaimOf, IsClaim};
ghost use Rattle.pattern_text.specs.Reading.{AreClaims};
ghost use Rattle.pattern_text.specs.Steps.{span_of, and_then, IsThat};
ghost use Rattle.pattern_text.specs.Small.{claim_view, IsWithin};
ghost use Rattle.pattern_text.specs.Outcomes.{IsOutcomeOr, IsListOr};

use crate::claimed::{Claimed, State};
use crate::fault::{LibFault, LibKind, fault_at};
use crate::items::{ClaimForm, claim_in};
use crate::names::goal_read;
use crate::opens::opens_read;
use crate::rules::{rules, span_of};
use collections::Seq;
use isel_spec::Spec;
use pattern_core::Pattern;
use sexp_read::Forest;
use std::alloc::{AllocError, Global};

/// Whether one of the claims is on a goal.
fn is_claimed(claims: &[Claimed], goal: u32) -> bool
    ensures { result ≡ list_any (λ c. c.goal == goal) claims.now }
{
    for claim in claims {
        if claim.goal == goal {
            return true;
        }
    }
    false
}

/// The goal that an item names, on which none of the claims is.
fn goal_of(
    spec: &Spec,
    bytes: &[u8],
    forest: &Forest,
    claims: &[Claimed],
    item: usize,
    name: usize,
) -> Result<u32, LibFault>
    requires reading { IsReading bytes.now forest.now }
    requires item_in { item < length forest.now.items }
    requires name_in { name < length forest.now.items }
    ensures read { result ≡ and_then (goal_read (file spec.now) (tree_at bytes.now forest.now.items name))
        (new_goal claims.now (span_of (tree_at bytes.now forest.now.items item))) }
    ensures within { IfOk result (λ place. place < length spec.now.goals) }
{
    let goal = match goal_read(spec, bytes, forest, name) {
        Ok(goal) => goal,
        Err(fault) => return Err(fault),
    };
    if is_claimed(claims, goal) {
        return Err(fault_at(LibKind::Twice, span_of(bytes, forest, item)));
    }
    Ok(goal)
}

/// The form of an item, and its goal, on which none of the claims before is.
fn claim_read<'a>(
    spec: &Spec,
    bytes: &[u8],
    forest: &'a Forest,
    claims: &[Claimed],
    item: usize,
) -> Result<(ClaimForm<'a>, u32), LibFault>
    requires reading { IsReading bytes.now forest.now }
    requires item_in { item < length forest.now.items }
    ensures read { MatchResult result
        (λ found. claim_read (file spec.now) claims.now (tree_at bytes.now forest.now.items item)
        ≡ Ok (claim_view (tree_at bytes.now forest.now.items) found.0, found.1))
        (λ fault. claim_read (file spec.now) claims.now (tree_at bytes.now forest.now.items item) ≡ Err fault) }
    ensures within { IfOk result (λ found. IsWithin (length forest.now.items) found.0) }
    ensures goal_within { IfOk result (λ found. found.1 < length spec.now.goals) }
{
    let Some(form) = claim_in(bytes, forest, item) else {
        return Err(fault_at(LibKind::Shape, span_of(bytes, forest, item)));
    };
    match goal_of(spec, bytes, forest, claims, item, form.name) {
        Ok(goal) => Ok((form, goal)),
        Err(fault) => Err(fault),
    }
}

/// The size that is claimed of all rules.
fn size_of(state: State) -> u8
    ensures { result ≡ size_of state }
{
    match state {
        State::Complete(size) => size,
        State::Partial(size) => size,
        State::None => 0,
        State::Stopped => 0,
    }
}

/// The place of an item's first byte.
fn place_of(bytes: &[u8], forest: &Forest, item: usize) -> usize
    requires reading { IsReading bytes.now forest.now }
    requires item_in { item < length forest.now.items }
    ensures { result ≡ from_of (tree_at bytes.now forest.now.items item) }
{
    let (from, _) = span_of(bytes, forest, item);
    from
}

/// The places of the items' first bytes.
fn places(
    alloc: Global,
    bytes: &[u8],
    forest: &Forest,
    items: &[usize],
) -> Result<Vec<usize>, AllocError>
    requires reading { IsReading bytes.now forest.now }
    requires items_in { All (λ item. item < length forest.now.items) items.now }
    ensures { IfOk result (λ places. places.items
        ≡ map from_of (map (tree_at bytes.now forest.now.items) items.now)) }
{
    let mut places = Vec::new(alloc);
    for item in items {
        places.push(place_of(bytes, forest, *item))?;
    }
    Ok(places)
}

/// What is claimed of a goal by the form of its item, with these rules.
fn claim_with(
    alloc: Global,
    spec: &Spec,
    bytes: &[u8],
    forest: &Forest,
    goal: u32,
    form: &ClaimForm,
    rules: Vec<Pattern>,
) -> Result<Claimed, LibFault>
    requires reading { IsReading bytes.now forest.now }
    requires form_in { IsWithin (length forest.now.items) form.now }
    ensures read { IsOutcomeOr (IsThat (and_then
        (opens_read (file spec.now) (map (tree_at bytes.now forest.now.items) form.now.opens.now))
        (λ undecided. Ok (claimed (claim_view (tree_at bytes.now forest.now.items) form.now) goal rules.items
        undecided)))) result }
    ensures same { IfOk result (λ claim. claim.rules ≡ rules.items) }
{
    let undecided = match opens_read(alloc, spec, bytes, forest, form.opens) {
        Ok(undecided) => undecided,
        Err(fault) => return Err(fault),
    };
    let places = places(alloc, bytes, forest, form.rules)?;
    Ok(Claimed {
        goal,
        state: form.state,
        rules: Seq::from_vec(rules),
        undecided: Seq::from_vec(undecided),
        places: Seq::from_vec(places),
    })
}

/// What is claimed of a goal by the form of its item, where so many rules come before.
fn claim_of(
    alloc: Global,
    spec: &Spec,
    bytes: &[u8],
    forest: &Forest,
    before: usize,
    goal: u32,
    form: &ClaimForm,
) -> Result<Claimed, LibFault>
    requires reading { IsReading bytes.now forest.now }
    requires form_in { IsWithin (length forest.now.items) form.now }
    requires goal_in { goal < length spec.now.goals }
    requires few { before ≤ 65536 }
    ensures read { (claims : List Claimed) → rule_count claims ≡ before
        → IsOutcomeOr (IsClaimOf (file spec.now) claims (claim_view (tree_at bytes.now forest.now.items) form.now)
        goal) result }
    ensures few { IfOk result (λ claim. before + length claim.rules ≤ 65536) }
{
    let size = size_of(form.state);
    match rules(alloc, spec, bytes, forest, goal, size, before, form.rules) {
        Ok(rules) => claim_with(alloc, spec, bytes, forest, goal, form, rules),
        Err(fault) => Err(fault),
    }
}

/// What an item claims after the claims before, which have so many rules.
fn claim(
    alloc: Global,
    spec: &Spec,
    bytes: &[u8],
    forest: &Forest,
    claims: &[Claimed],
    before: usize,
    item: usize,
) -> Result<Claimed, LibFault>
    requires reading { IsReading bytes.now forest.now }
    requires item_in { item < length forest.now.items }
    requires counted { rule_count claims.now ≡ before }
    requires few { before ≤ 65536 }
    ensures read { IsOutcomeOr (IsClaim (file spec.now) claims.now (tree_at bytes.now forest.now.items item)) result }
    ensures few { IfOk result (λ claim. before + length claim.rules ≤ 65536) }
{
    match claim_read(spec, bytes, forest, claims, item) {
        Ok((form, goal)) => claim_of(alloc, spec, bytes, forest, before, goal, &form),
        Err(fault) => Err(fault),
    }
}

/// What items claim, in order.
pub(crate) fn claims(
    alloc: Global,
    spec: &Spec,
    bytes: &[u8],
    forest: &Forest,
    items: &[usize],
) -> Result<Vec<Claimed>, LibFault>
    requires reading { IsReading bytes.now forest.now }
    requires items_in { All (λ item. item < length forest.now.items) items.now }
    ensures { IsListOr (AreClaims (file spec.now) [] (map (tree_at bytes.now forest.now.items) items.now)) result }
{
    let mut claims = Vec::new(alloc);
    let mut before = 0;
    for item in items {
        let earlier = claims.as_slice();
        let claim = match claim(alloc, spec, bytes, forest, earlier, before, *item) {
            Ok(claim) => claim,
            Err(fault) => return Err(fault),
        };
        before += claim.rules.len();
        claims.push(claim)?;
    }
    Ok(claims)
}
