//! The named file, where it is not refused: its bytes are read, they are a file without memory, and there are not too
//! many claims.

ghost use Rattle.std.specs.Prelude.{◌≡◌, ◌≤◌, ◌<◌, ◌↔◌, ℕ, List, length, IsTrue, IsErrOf, MatchResult};
ghost use Rattle.std.specs.List.{list_all};
ghost use Rattle.isel_spec.specs.File.{sorts_in};
ghost use Rattle.isel_spec.specs.Spec.{file};
ghost use Rattle.multiset_rank.specs.Claims.{claim_count};
ghost use Rattle.plain_search.specs.Extent.{is_value, takes_values};
ghost use Rattle.spec_reader.specs.File.{IsFile};
ghost use Rattle.isel_base.specs.Outside.{Rose, ReadsOnly};
ghost use Rattle.isel_cmd.specs.Accepted.{IsAcceptedAs};
ghost use Rattle.isel_cmd.specs.Refusal.{HasMemory, most_bytes, most_claims, plan_of, goal_takes_values};
ghost use Rattle.isel_cmd.specs.Program.{HasBytes, IsCause, IsCauseIn};

use crate::refusal::{Failure, Reason, failure_of};
use bv_terms::Sort;
use isel_base::{Files, ReadAllFault, read_all};
use isel_spec::{Kind, Spec};
use multiset_rank::{ClaimPlan, TooMany};
use spec_reader::read_spec;
use std::alloc::Global;

/// A file that is not refused, and its claims.
#[derive(Drop)]
pub(crate) struct AcceptedFile {
    pub(crate) spec: Spec,
    pub(crate) plan: ClaimPlan,
}

/// Whether none of these sorts is a memory.
fn are_values(sorts: &[Sort]) -> bool
    ensures { result ≡ list_all is_value sorts.now }
{
    for sort in sorts {
        if sort.is_same(Sort::Mem) {
            return false;
        }
    }
    true
}

/// Whether none of a goal's inputs is a memory.
fn are_inputs_values(args: &[(Kind, Sort)]) -> bool
    ensures { result ≡ list_all is_value (sorts_in args.now) }
{
    for arg in args {
        if arg.1.is_same(Sort::Mem) {
            return false;
        }
    }
    true
}

/// Whether no operation takes a memory.
fn do_operations_take_values(spec: &Spec) -> bool
    ensures { result ≡ list_all takes_values (file spec.now).ops }
{
    for op in 0..spec.ops.len() {
        if !are_values(spec.op(op).args.as_slice()) {
            return false;
        }
    }
    true
}

/// Whether no goal takes a memory.
fn do_goals_take_values(spec: &Spec) -> bool
    ensures { result ≡ list_all goal_takes_values (file spec.now).goals }
{
    for goal in 0..spec.goals.len() as u32 {
        if !are_inputs_values(spec.goal(goal).args.as_slice()) {
            return false;
        }
    }
    true
}

/// Whether an operation or a goal takes a memory.
fn has_memory(spec: &Spec) -> bool
    ensures { IsTrue result ↔ HasMemory (file spec.now) }
{
    if !do_operations_take_values(spec) {
        return true;
    }
    !do_goals_take_values(spec)
}

/// The claims of a file; an `Err`, where there are too many.
fn planned(spec: &Spec, bound: u8) -> Result<ClaimPlan, TooMany>
    requires file { (bytes : List ℕ) × IsFile bytes (file spec.now) }
    requires bound { bound ≤ 6 }
    ensures { MatchResult result
        (λ plan. (plan ≡ plan_of (file spec.now) bound) × (claim_count (plan_of (file spec.now) bound) ≤ most_claims))
        (λ fault. most_claims < claim_count (plan_of (file spec.now) bound)) }
{
    ClaimPlan::new(spec.goals.len() as u32, spec.ops.len() as u32, bound)
}

/// The file that bytes are, where it is not refused.
fn accepted_in(alloc: Global, bytes: &[u8], bound: u8) -> Result<AcceptedFile, Failure>
    requires short { length bytes.now ≤ most_bytes }
    requires bound { bound ≤ 6 }
    ensures { MatchResult result (IsAcceptedAs bytes.now bound) (IsCauseIn bytes.now bound) }
{
    let spec = match read_spec(alloc, bytes) {
        Ok(spec) => spec,
        Err(fault) => return Err(failure_of(bytes, fault)),
    };
    if has_memory(&spec) {
        return Err(Failure::Refused(Reason::MemLater));
    }
    match planned(&spec, bound) {
        Ok(plan) => Ok(AcceptedFile { spec, plan }),
        Err(_) => Err(Failure::Refused(Reason::TooMany)),
    }
}

/// The bytes of the file of that name.
fn bytes_of<F: Files>(alloc: Global, files: &mut F, name: &str) -> Result<Vec<u8>, Failure>
    ensures bytes { (bound : ℕ) → MatchResult result
        (λ bytes. HasBytes (F.bytes files.old) name.now bytes.items × (length bytes.items ≤ most_bytes))
        (IsCause (F.bytes files.old) (λ other. Rose (F.faults files.old other) (F.faults files.new other)) name.now
        bound) }
    ensures only { ReadsOnly F.read_leaves name.now files.old files.new }
    ensures steady { IsTrue (F.never_fails files.old name.now) → ¬ IsErrOf result Failure.ReadFault }
    ensures counts { (other : List ℕ) → F.faults files.old other ≤ F.faults files.new other }
    ensures same { (other : List ℕ) → F.bytes files.new other ≡ F.bytes files.old other }
    ensures stays { (other : List ℕ) → IsTrue (F.never_fails files.old other) →
        IsTrue (F.never_fails files.new other) }
{
    match read_all(alloc, files, name) {
        Ok(bytes) => Ok(bytes),
        Err(ReadAllFault::ReadFault) => Err(Failure::ReadFault),
        Err(ReadAllFault::TooLong) => Err(Failure::Refused(Reason::TooLong)),
        Err(ReadAllFault::NoMemory) => Err(Failure::NoMemory),
    }
}

/// The file of that name, where it is not refused.
pub(crate) fn accepted<F: Files>(
    alloc: Global,
    files: &mut F,
    name: &str,
    bound: u8,
) -> Result<AcceptedFile, Failure>
    requires { bound ≤ 6 }
    ensures outcome { MatchResult result
        (λ a. (bytes : List ℕ) × HasBytes (F.bytes files.old) name.now bytes × IsAcceptedAs bytes bound a)
        (IsCause (F.bytes files.old) (λ other. Rose (F.faults files.old other) (F.faults files.new other)) name.now
        bound) }
    ensures only { ReadsOnly F.read_leaves name.now files.old files.new }
    ensures steady { IsTrue (F.never_fails files.old name.now) → ¬ IsErrOf result Failure.ReadFault }
    ensures counts { (other : List ℕ) → F.faults files.old other ≤ F.faults files.new other }
    ensures same { (other : List ℕ) → F.bytes files.new other ≡ F.bytes files.old other }
    ensures stays { (other : List ℕ) → IsTrue (F.never_fails files.old other) →
        IsTrue (F.never_fails files.new other) }
{
    let bytes = match bytes_of(alloc, files, name) {
        Ok(bytes) => bytes,
        Err(failure) => return Err(failure),
    };
    accepted_in(alloc, &bytes, bound)
}
