//! Unit propagation by two watched literals of each clause: a clause is looked at where one of them became false.

ghost use Rattle.std.specs.Prelude.{◌≡◌, ◌+◌, ◌<◌, ◌≤◌, ◌++◌, ◌∷◌, [], false, true, if◌then◌else◌, IfOk, OnOk, IfSome};
ghost use Rattle.std.specs.Prelude.{IfNone, length, slice_get, slice_set, Some};
ghost use Rattle.cnf_core.specs.declared.clause.Lit.{Lit};
ghost use Rattle.cnf_core.specs.Clause.{same_lit, opposite, contains, IsOver};
ghost use Rattle.cdcl_base.specs.Codes.{code};
ghost use Rattle.cdcl_base.specs.Trail.{ExtendsTrail, ArePropagated, IsConflict, IsTrail};
ghost use Rattle.cdcl_watch.specs.Lists.{clause_number, is_short, watchers, watcher_at, list_without};
ghost use Rattle.cdcl_watch.specs.Watches.{IsWatching, IsVisiting, IsOther, AreOthersFalse};
ghost use Rattle.cdcl_watch.specs.Visit.{IsVisit, IsSettled};

use crate::lists::{Lists, Watcher};
use cdcl_base::{Clauses, PackedLit, Trail};
use std::alloc::{AllocError, Global};

/// The two literals that a clause watches.
#[derive(Clone, Copy)]
pub(crate) struct Pair {
    pub first: PackedLit,
    pub second: PackedLit,
}

/// What a look at a clause came to.
#[derive(Clone, Copy)]
pub(crate) enum Visit {
    /// It stays in the list.
    Kept,
    /// It watches another literal now.
    Moved,
    /// All its literals are false; its number.
    Falsified(usize),
}

/// A literal of a clause that is not false and is another than the watch; none where there is none.
fn other_watch(trail: &Trail, lits: &[PackedLit], watch: PackedLit) -> Option<PackedLit>
    requires { IsOver trail.now.variables lits.now }
    ensures some { IfSome result (λ l. IsOther trail.now.lits lits.now watch l) }
    ensures none { IfNone result (AreOthersFalse trail.now.lits lits.now watch) }
{
    for lit in lits {
        if *lit != watch {
            if !trail.is_false(*lit) {
                return Some(*lit);
            }
        }
    }
    None
}

/// The other one of two watches.
fn other_of(pair: &Pair, watch: PackedLit) -> PackedLit
    ensures { result ≡ (if same_lit pair.now.first watch then pair.now.second else pair.now.first) }
{
    if pair.first == watch {
        pair.second
    } else {
        pair.first
    }
}

/// Has the clause at the cursor of a list watch another literal in place of the one whose list it is. Its other watch
/// is its new blocker.
fn move_watch(
    pairs: &mut Vec<Pair>,
    lists: &mut Lists,
    list: &mut Vec<Watcher>,
    cursor: usize,
    first: PackedLit,
    second: PackedLit,
) -> Result<(), AllocError>
    requires cursor { cursor < length list.old.items }
    requires there { clause_number (watcher_at list.old.items cursor) < length pairs.old.items }
    requires list { code second < length lists.old }
    ensures list { list.new.items ≡ list_without list.old.items cursor }
    ensures pairs { OnOk result (pairs.new.items ≡ slice_set pairs.old.items
        (clause_number (watcher_at list.old.items cursor)) (record { first = first; second = second })) }
    ensures length { length lists.new ≡ length lists.old }
    ensures lists { OnOk result ((l : Lit) → watchers lists.new l ≡ (if same_lit l second
        then watchers lists.old l ++ (record {
          tag = (watcher_at list.old.items cursor).tag;
          blocker = first;
        }) ∷ [] else watchers lists.old l)) }
{
    let watcher = list.swap_remove(cursor);
    let number = watcher.number();
    lists.push(second, watcher.with_blocker(first))?;
    pairs[number] = Pair { first, second };
    Ok(())
}

/// Makes the one literal of a clause true that may be not false; the clause is falsified where it is false too.
pub(crate) fn settle(trail: &mut Trail, lit: PackedLit, number: usize) -> Result<Visit, AllocError>
    requires there { lit.variable < trail.old.variables }
    requires untrue { contains trail.old.lits lit ≡ false }
    requires trail { IsTrail trail.old }
    ensures trail { IsTrail trail.new }
    ensures settled { IfOk result (IsSettled trail.old trail.new lit number) }
{
    if trail.is_false(lit) {
        return Ok(Visit::Falsified(number));
    }
    trail.assign(lit, number)?;
    Ok(Visit::Kept)
}

/// Looks at the clause at the cursor of the list of a literal that is false by the literal at the head.
fn visit_watcher(
    trail: &mut Trail,
    clauses: &Clauses,
    pairs: &mut Vec<Pair>,
    lists: &mut Lists,
    list: &mut Vec<Watcher>,
    head: usize,
    untrue: PackedLit,
    cursor: usize,
) -> Result<Visit, AllocError>
    requires cursor { cursor < length list.old.items }
    requires visiting { IsVisiting clauses.now pairs.old.items lists.old trail.old head untrue list.old.items cursor }
    requires trail { IsTrail trail.old }
    ensures { IfOk result (IsVisit clauses.now pairs.new.items lists.new trail.old trail.new head untrue
        list.old.items list.new.items cursor) }
{
    let watcher = &list[cursor];
    let blocker = watcher.blocker;
    if trail.is_true(blocker) {
        return Ok(Visit::Kept);
    }
    if watcher.is_short() {
        return settle(trail, blocker, watcher.number());
    }
    visit_long(trail, clauses, pairs, lists, list, head, untrue, cursor)
}

/// The same for a clause whose blocker is not true, and that may have more than two literals.
fn visit_long(
    trail: &mut Trail,
    clauses: &Clauses,
    pairs: &mut Vec<Pair>,
    lists: &mut Lists,
    list: &mut Vec<Watcher>,
    head: usize,
    untrue: PackedLit,
    cursor: usize,
) -> Result<Visit, AllocError>
    requires cursor { cursor < length list.old.items }
    requires visiting { IsVisiting clauses.now pairs.old.items lists.old trail.old head untrue list.old.items cursor }
    requires trail { IsTrail trail.old }
    requires long { is_short (watcher_at list.old.items cursor) ≡ false }
    ensures { IfOk result (IsVisit clauses.now pairs.new.items lists.new trail.old trail.new head untrue
        list.old.items list.new.items cursor) }
{
    let number = list[cursor].number();
    let other = other_of(&pairs[number], untrue);
    if trail.is_true(other) {
        list[cursor].blocker = other;
        return Ok(Visit::Kept);
    }
    if let Some(lit) = other_watch(trail, clauses.lits(number), other) {
        move_watch(pairs, lists, list, cursor, other, lit)?;
        return Ok(Visit::Moved);
    }
    settle(trail, other, number)
}

/// Goes over the clauses that watch the opposite of the literal at the head; the number of one that is falsified.
fn propagate_head(
    alloc: Global,
    trail: &mut Trail,
    clauses: &Clauses,
    pairs: &mut Vec<Pair>,
    lists: &mut Lists,
    head: usize,
) -> Result<Option<usize>, AllocError>
    requires head { head < length trail.old.lits }
    requires watching { IsWatching clauses.now pairs.old.items lists.old trail.old head }
    ensures trail { OnOk result (IsTrail trail.new) }
    ensures extends { OnOk result (ExtendsTrail trail.old trail.new) }
    ensures none { IfOk result (λ found. IfNone found (
        IsWatching clauses.now pairs.new.items lists.new trail.new (head + 1))) }
    ensures some { IfOk result (λ found. IfSome found (λ _.
        IsWatching clauses.now pairs.new.items lists.new trail.new head)) }
    ensures conflict { IfOk result (λ found. IfSome found (λ k. IsConflict trail.new.lits clauses.now k)) }
{
    let untrue = trail.lits()[head].opposite();
    let mut list = lists.take(alloc, untrue);
    let mut cursor = 0;
    while cursor < list.len() {
        match visit_watcher(
            trail, clauses, pairs, lists, &mut list, head, untrue, cursor,
        )? {
            Visit::Kept => cursor += 1,
            Visit::Moved => {}
            Visit::Falsified(number) => {
                lists.put(untrue, list);
                return Ok(Some(number));
            }
        }
    }
    lists.put(untrue, list);
    Ok(None)
}

/// The number of a clause that unit propagation falsifies, from the literal at the head on; none where it comes to a
/// fixpoint, at the end of the trail.
pub(crate) fn propagate(
    alloc: Global,
    trail: &mut Trail,
    clauses: &Clauses,
    pairs: &mut Vec<Pair>,
    lists: &mut Lists,
    head: &mut usize,
) -> Result<Option<usize>, AllocError>
    requires watching { IsWatching clauses.now pairs.old.items lists.old trail.old head.old }
    requires trail { IsTrail trail.old }
    ensures trail { OnOk result (IsTrail trail.new) }
    ensures extends { OnOk result (ExtendsTrail trail.old trail.new) }
    ensures watching { OnOk result (IsWatching clauses.now pairs.new.items lists.new trail.new head.new) }
    ensures end { IfOk result (λ conflict. IfNone conflict (head.new ≡ length trail.new.lits)) }
    ensures conflict { IfOk result (λ conflict. IfSome conflict (λ k. IsConflict trail.new.lits clauses.now k)) }
{
    while *head < trail.lits().len() {
        let found = propagate_head(alloc, trail, clauses, pairs, lists, *head)?;
        if found.is_some() {
            return Ok(found);
        }
        *head += 1;
    }
    Ok(None)
}
