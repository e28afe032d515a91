//! Clauses that get their watches. A clause of one literal watches none: it makes its literal true.

ghost use Rattle.std.specs.Prelude.{◌≡◌, ◌≢◌, ◌+◌, ◌<◌, ◌≤◌, ◌++◌, ◌∷◌, [], List, All, length, slice_get, Some, OnOk};
ghost use Rattle.std.specs.Prelude.{IfOk};
ghost use Rattle.std.specs.Prelude.{IfSome, IfNone};
ghost use Rattle.cnf_core.specs.Resolution.{clause};
ghost use Rattle.cnf_core.specs.Clause.{IsOver};
ghost use Rattle.cnf_core.specs.declared.clause.Clause.{Clause};
ghost use Rattle.cdcl_base.specs.Codes.{code};
ghost use Rattle.cdcl_base.specs.Trail.{IsTrail};
ghost use Rattle.cdcl_watch.specs.Lists.{watchers};
ghost use Rattle.cdcl_watch.specs.Watches.{AreLists, IsPair, IsWatching};
ghost use Rattle.cdcl_watch.specs.Attach.{IsPairOf, IsNext, IsAttaching, IsRootConflict, learnt_pair};

use crate::lists::{Lists, Watcher};
use crate::propagation::Pair;
use cdcl_base::{Clauses, PackedLit, Trail};
use std::alloc::AllocError;

/// The most clauses: a watcher holds the number of its clause in 31 bits.
const MOST_CLAUSES: usize = 1 << 31;

/// Two literals of a clause that differ; its first literal twice, where it has no other.
fn pair_of(lits: &[PackedLit]) -> Pair
    requires { lits.now ≢ [] }
    ensures { IsPairOf lits.now result }
{
    let first = lits[0];
    for lit in lits {
        if *lit != first {
            return Pair {
                first,
                second: *lit,
            };
        }
    }
    Pair {
        first,
        second: first,
    }
}

/// Adds the pair of the next clause, two literals that differ, and a watcher to the list of each. The only error is out
/// of memory.
pub(crate) fn watch(
    pairs: &mut Vec<Pair>,
    lists: &mut Lists,
    first: PackedLit,
    second: PackedLit,
    short: bool,
) -> Result<(), AllocError>
    requires first { code first < length lists.old }
    requires second { code second < length lists.old }
    ensures pairs { OnOk result (pairs.new.items ≡
        pairs.old.items ++ (record { first = first; second = second }) ∷ []) }
    ensures length { length lists.new ≡ length lists.old }
    ensures lists { OnOk result ((cs : List Clause) →
        IsNext cs pairs.old.items (record { first = first; second = second }) short →
        AreLists cs pairs.old.items (watchers lists.old) → AreLists cs pairs.new.items (watchers lists.new)) }
{
    let number = pairs.len();
    if number >= MOST_CLAUSES {
        return Err(AllocError);
    }
    lists.push(first, Watcher::new(number, short, second))?;
    lists.push(second, Watcher::new(number, short, first))?;
    pairs.push(Pair { first, second })?;
    Ok(())
}

/// Has the next clause watch two literals, or makes its only literal true; the number of the clause, where that is
/// false.
fn attach_next(
    trail: &mut Trail,
    clauses: &Clauses,
    pairs: &mut Vec<Pair>,
    lists: &mut Lists,
) -> Result<Option<usize>, AllocError>
    requires filled { All (λ c. c.lits ≢ []) clauses.now }
    requires over { All (λ c. IsOver trail.old.variables c.lits) clauses.now }
    requires next { length pairs.old.items < length clauses.now }
    requires attaching { IsAttaching clauses.now pairs.old.items lists.old trail.old }
    ensures variables { OnOk result (trail.new.variables ≡ trail.old.variables) }
    ensures none { IfOk result (λ found. IfNone found (
        IsAttaching clauses.now pairs.new.items lists.new trail.new)) }
    ensures more { OnOk result (length pairs.new.items ≡ length pairs.old.items + 1) }
    ensures some { IfOk result (λ found. IfSome found (IsRootConflict clauses.now trail.new)) }
{
    let number = pairs.len();
    let lits = clauses.lits(number);
    let pair = pair_of(lits);
    let first = pair.first;
    let second = pair.second;
    if first != second {
        watch(pairs, lists, first, second, lits.len() == 2)?;
        return Ok(None);
    }
    pairs.push(Pair { first, second })?;
    if trail.is_true(first) {
        return Ok(None);
    }
    if trail.is_false(first) {
        return Ok(Some(number));
    }
    trail.assign(first, number)?;
    Ok(None)
}

/// Has each clause watch two literals, or makes its only literal true; the number of a clause whose only literal is
/// false, where there is one.
pub(crate) fn attach(
    trail: &mut Trail,
    clauses: &Clauses,
    pairs: &mut Vec<Pair>,
    lists: &mut Lists,
) -> Result<Option<usize>, AllocError>
    requires filled { All (λ c. c.lits ≢ []) clauses.now }
    requires over { All (λ c. IsOver trail.old.variables c.lits) clauses.now }
    requires few { length pairs.old.items ≤ length clauses.now }
    requires attaching { IsAttaching clauses.now pairs.old.items lists.old trail.old }
    ensures variables { OnOk result (trail.new.variables ≡ trail.old.variables) }
    ensures trail { OnOk result (IsTrail trail.new) }
    ensures none { IfOk result (λ found. IfNone found (
        IsWatching clauses.now pairs.new.items lists.new trail.new 0)) }
    ensures some { IfOk result (λ found. IfSome found (IsRootConflict clauses.now trail.new)) }
{
    while pairs.len() < clauses.len() {
        let found = attach_next(trail, clauses, pairs, lists)?;
        if found.is_some() {
            return Ok(found);
        }
    }
    Ok(None)
}

/// Gives the next clause, a learnt one, its pair: the literal that it forces, and the other one that became false last.
/// Where it has no other literal, `keep` is 0, and it watches none. The only error is out of memory.
pub(crate) fn attach_learnt(
    pairs: &mut Vec<Pair>,
    lists: &mut Lists,
    learnt: &[PackedLit],
    lit: PackedLit,
    last_false: PackedLit,
    keep: usize,
) -> Result<(), AllocError>
    requires lit { code lit < length lists.old }
    requires last_false { 0 < keep → code last_false < length lists.old }
    ensures length { length lists.new ≡ length lists.old }
    ensures pairs { OnOk result (pairs.new.items ≡ pairs.old.items ++ learnt_pair keep lit last_false ∷ []) }
    ensures lists { OnOk result ((cs : List Clause) → slice_get cs (length pairs.old.items) ≡ Some (clause learnt.now) →
        (0 < keep → IsPair learnt.now (learnt_pair keep lit last_false)) →
        AreLists cs pairs.old.items (watchers lists.old) → AreLists cs pairs.new.items (watchers lists.new)) }
{
    if keep == 0 {
        pairs.push(Pair {
            first: lit,
            second: lit,
        })?;
        return Ok(());
    }
    watch(pairs, lists, lit, last_false, learnt.len() == 2)
}
