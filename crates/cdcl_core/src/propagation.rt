//! Unit propagation by passes over all clauses. Each clause has a blocker, a literal that it contains
//! and that is looked at first: the one that was true when the whole clause was last looked at.

ghost use Rattle.std.specs.Prelude.{◌≡◌, true, None, All, IfOk, OnOk, IfSome, IfNone};
ghost use Rattle.cnf_core.specs.Clause.{contains, IsOver};
ghost use Rattle.cdcl_base.specs.Trail.{ArePropagated, AreReasons, ExtendsTrail, IsConflict};
ghost use Rattle.cdcl_core.specs.ClauseStatus.{IsStatus, clause_status};
ghost use Rattle.cdcl_core.specs.Propagation.{AreBlockers, IsProgress};

use cdcl_base::{Clauses, PackedLit, Trail};
use std::alloc::AllocError;

/// The status of a clause under the true literals.
#[derive(Clone, Copy)]
pub(crate) enum ClauseStatus {
    /// This literal is true.
    Satisfied(PackedLit),
    /// Two literals are not false.
    Unresolved,
    /// All literals but this one are false, and it has no value.
    Unit(PackedLit),
    /// All literals are false.
    Falsified,
}

/// The status of a clause.
pub(crate) fn status_of(trail: &Trail, lits: &[PackedLit]) -> ClauseStatus
    requires { IsOver trail.now.variables lits.now }
    ensures exact { result ≡ clause_status trail.now.lits lits.now None }
    ensures status { IsStatus trail.now.lits lits.now result }
{
    let mut only = None;
    for lit in lits {
        if trail.is_true(*lit) {
            return ClauseStatus::Satisfied(*lit);
        }
        if !trail.is_false(*lit) {
            if let Some(first) = only {
                if first != *lit {
                    return ClauseStatus::Unresolved;
                }
            }
            only = Some(*lit);
        }
    }
    match only {
        Some(lit) => ClauseStatus::Unit(lit),
        None => ClauseStatus::Falsified,
    }
}

/// The status of a clause, whose blocker is looked at first.
fn status_by_blocker(trail: &Trail, lits: &[PackedLit], blocker: PackedLit) -> ClauseStatus
    requires over { IsOver trail.now.variables lits.now }
    requires blocker { contains lits.now blocker ≡ true }
    ensures { IsStatus trail.now.lits lits.now result }
{
    if trail.is_true(blocker) {
        return ClauseStatus::Satisfied(blocker);
    }
    status_of(trail, lits)
}

/// What one pass over all clauses came to.
#[derive(Clone, Copy)]
enum Progress {
    /// The clause of that number is falsified.
    Conflict(usize),
    /// Some literal was assigned.
    Assigned,
    /// Nothing was assigned, and each clause is satisfied or unresolved.
    Fixpoint,
}

/// Makes one pass over the clauses, and assigns the literals of unit clauses.
fn propagate_once(
    trail: &mut Trail,
    clauses: &Clauses,
    blockers: &mut Vec<PackedLit>,
) -> Result<Progress, AllocError>
    requires over { All (λ c. IsOver trail.old.variables c.lits) clauses.now }
    requires reasons { AreReasons clauses.now trail.old }
    requires blockers { AreBlockers clauses.now blockers.old.items }
    ensures extends { OnOk result (ExtendsTrail trail.old trail.new) }
    ensures reasons { OnOk result (AreReasons clauses.now trail.new) }
    ensures blockers { OnOk result (AreBlockers clauses.now blockers.new.items) }
    ensures tells { IfOk result (λ progress. IsProgress clauses.now trail.old trail.new progress) }
{
    let mut changed = false;
    for number in 0..clauses.len() {
        match status_by_blocker(trail, clauses.lits(number), blockers[number]) {
            ClauseStatus::Satisfied(lit) => blockers[number] = lit,
            ClauseStatus::Unresolved => {}
            ClauseStatus::Unit(lit) => {
                trail.assign(lit, number)?;
                changed = true;
            }
            ClauseStatus::Falsified => return Ok(Progress::Conflict(number)),
        }
    }
    if changed {
        Ok(Progress::Assigned)
    } else {
        Ok(Progress::Fixpoint)
    }
}

/// The number of a clause that unit propagation falsifies; none where it comes to a fixpoint.
pub(crate) fn propagate(
    trail: &mut Trail,
    clauses: &Clauses,
    blockers: &mut Vec<PackedLit>,
) -> Result<Option<usize>, AllocError>
    requires over { All (λ c. IsOver trail.old.variables c.lits) clauses.now }
    requires reasons { AreReasons clauses.now trail.old }
    requires blockers { AreBlockers clauses.now blockers.old.items }
    ensures extends { OnOk result (ExtendsTrail trail.old trail.new) }
    ensures reasons { OnOk result (AreReasons clauses.now trail.new) }
    ensures blockers { OnOk result (AreBlockers clauses.now blockers.new.items) }
    ensures propagated { IfOk result (λ conflict. IfNone conflict (ArePropagated trail.new.lits clauses.now)) }
    ensures conflict { IfOk result (λ conflict. IfSome conflict (λ k. IsConflict trail.new.lits clauses.now k)) }
{
    loop {
        match propagate_once(trail, clauses, blockers)? {
            Progress::Conflict(number) => return Ok(Some(number)),
            Progress::Assigned => {}
            Progress::Fixpoint => return Ok(None),
        }
    }
}
