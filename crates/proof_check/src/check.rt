//! The check of a log, chain by chain. The clause so far of a chain is a set of marks, so a step costs the length of
//! the clause that it names and not that of the clause so far. The clause of a chain is kept without repeats.

ghost use Rattle.std.specs.Prelude.{◌≡◌, ◌++◌, List, [], length, slice_get, None, Some, All, Contains, IsTrue, ◌↔◌};
ghost use Rattle.std.specs.Prelude.{IfOk, IfSome, OnOk, MatchOption};
ghost use Rattle.cnf_core.specs.declared.clause.Lit.{Lit};
ghost use Rattle.cnf_core.specs.declared.clause.Clause.{Clause};
ghost use Rattle.cnf_core.specs.Clause.{contains, AreSame, HasNoModel, IsOver};
ghost use Rattle.cnf_core.specs.Resolution.{without, resolvent, after_steps, clause};
ghost use Rattle.proof_check.specs.declared.check.Verdict.{Verdict};
ghost use Rattle.proof_check.specs.Check.{Gives, IsClauseOf, AreOver, IsVerdict};

use crate::lit_set::LitSet;
use cnf_core::{Chain, Clause, Cnf, Lit, Log};
use std::alloc::{AllocError, Global};

/// What a log over a formula is found to be.
#[derive(Clone, Copy, Debug, PartialEq, Eq)]
pub enum Verdict {
    /// Each step of each chain resolves, and a clause of the formula or of a chain is empty, so the
    /// formula has no model.
    Refuted,
    /// The chain of this number, from 0, is the first that names a clause not before it or has a step that does not
    /// resolve.
    BadStep(u64),
    /// Each step of each chain resolves, and no clause of the formula or of a chain is empty.
    NotEmpty,
}

/// Whether a log refutes a formula. A chain that does not resolve counts even where there is an empty clause before or
/// after it. The only error is out of memory.
pub fn check_log(alloc: Global, cnf: &Cnf, log: &Log) -> Result<Verdict, AllocError>
    ensures verdict { IfOk result (IsVerdict cnf.now.clauses log.now.chains) }
    ensures only { IfOk result (λ v. (w : Verdict) → IsVerdict cnf.now.clauses log.now.chains w → w ≡ v) }
    ensures refuted { result ≡ Ok Verdict.Refuted → HasNoModel cnf.now.clauses }
{
    let clauses = cnf.clauses();
    let mut so_far = LitSet::new(alloc, cnf.variables())?;
    let mut derived = Vec::new(alloc);
    for (number, chain) in log.chains.as_slice().iter().enumerate() {
        let Some(clause) = derive(alloc, &mut so_far, clauses, derived.as_slice(), chain)? else {
            return Ok(Verdict::BadStep(number as u64));
        };
        derived.push(clause)?;
    }
    if is_any_empty(clauses, derived.as_slice()) {
        return Ok(Verdict::Refuted);
    }
    Ok(Verdict::NotEmpty)
}

/// Whether a clause of the formula or of a chain is empty.
fn is_any_empty(clauses: &[Clause], derived: &[Clause]) -> bool
    ensures { IsTrue result ↔ Contains (clauses.now ++ derived.now) (clause []) }
{
    has_empty(clauses) || has_empty(derived)
}

/// Whether one of the clauses is empty.
fn has_empty(clauses: &[Clause]) -> bool
    ensures { IsTrue result ↔ Contains clauses.now (clause []) }
{
    for clause in clauses {
        if clause.lits.is_empty() {
            return true;
        }
    }
    false
}

/// The clause of a chain over the clauses of the formula and those of the earlier chains; none where it does not
/// resolve. The set is empty before, and after a clause was found.
pub(crate) fn derive(
    alloc: Global,
    so_far: &mut LitSet,
    clauses: &[Clause],
    earlier: &[Clause],
    chain: &Chain,
) -> Result<Option<Clause>, AllocError>
    requires empty { so_far.old.lits ≡ [] }
    requires over { AreOver so_far.old.variables (clauses.now ++ earlier.now) }
    ensures variables { so_far.new.variables ≡ so_far.old.variables }
    ensures empty { IfOk result (λ o. IfSome o (λ _. so_far.new.lits ≡ [])) }
    ensures over { IfOk result (λ o. IfSome o (λ d. IsOver so_far.old.variables d.lits)) }
    ensures derived { IfOk result (IsClauseOf (clauses.now ++ earlier.now) chain.now) }
{
    let Some(lits) = clause_at(clauses, earlier, chain.first) else {
        return Ok(None);
    };
    add_all(so_far, lits)?;
    if !follow(so_far, clauses, earlier, chain.steps.as_slice())? {
        return Ok(None);
    }
    let clause = so_far.take(alloc)?;
    Ok(Some(clause))
}

/// Takes the steps of a chain one after another, and returns whether each resolves.
fn follow(
    so_far: &mut LitSet,
    clauses: &[Clause],
    earlier: &[Clause],
    steps: &[(Lit, usize)],
) -> Result<bool, AllocError>
    requires { AreOver so_far.old.variables (clauses.now ++ earlier.now) }
    ensures variables { so_far.new.variables ≡ so_far.old.variables }
    ensures steps { IfOk result (λ yes. (c : List Lit) → AreSame c so_far.old.lits →
        Gives (after_steps (clauses.now ++ earlier.now) c steps.now) yes so_far.new.lits) }
{
    for &(pivot, number) in steps {
        let Some(lits) = clause_at(clauses, earlier, number) else {
            return Ok(false);
        };
        if !resolve(so_far, pivot, lits)? {
            return Ok(false);
        }
    }
    Ok(true)
}

/// The clause of a number: those of the formula come first, and then those of the earlier chains.
fn clause_at<'a>(clauses: &'a [Clause], earlier: &'a [Clause], number: usize) -> Option<&'a [Lit]>
    ensures { MatchOption result (slice_get (clauses.now ++ earlier.now) number ≡ None)
        (λ lits. slice_get (clauses.now ++ earlier.now) number ≡ Some (clause lits.now)) }
{
    if number < clauses.len() {
        return Some(clauses[number].lits.as_slice());
    }
    let number = number - clauses.len();
    if number < earlier.len() {
        return Some(earlier[number].lits.as_slice());
    }
    None
}

/// Resolves the clause so far with another on a literal that the first contains and whose opposite the other contains,
/// and returns whether they do.
fn resolve(so_far: &mut LitSet, pivot: Lit, lits: &[Lit]) -> Result<bool, AllocError>
    requires { IsOver so_far.old.variables lits.now }
    ensures variables { so_far.new.variables ≡ so_far.old.variables }
    ensures resolvent { IfOk result (λ yes. (c : List Lit) → AreSame c so_far.old.lits →
        Gives (resolvent c pivot lits.now) yes so_far.new.lits) }
{
    let opposite = pivot.opposite();
    if !contains(lits, opposite) || !so_far.remove(pivot) {
        return Ok(false);
    }
    add_without(so_far, lits, opposite)?;
    Ok(true)
}

/// Whether a clause contains a literal.
fn contains(lits: &[Lit], lit: Lit) -> bool
    ensures { result ≡ contains lits.now lit }
{
    for other in lits {
        if *other == lit {
            return true;
        }
    }
    false
}

/// Adds the literals of a clause.
fn add_all(so_far: &mut LitSet, lits: &[Lit]) -> Result<(), AllocError>
    requires { IsOver so_far.old.variables lits.now }
    ensures variables { so_far.new.variables ≡ so_far.old.variables }
    ensures lits { OnOk result (AreSame (so_far.old.lits ++ lits.now) so_far.new.lits) }
{
    for lit in lits {
        so_far.insert(*lit)?;
    }
    Ok(())
}

/// Adds the literals of a clause but for one.
fn add_without(so_far: &mut LitSet, lits: &[Lit], except: Lit) -> Result<(), AllocError>
    requires { IsOver so_far.old.variables lits.now }
    ensures variables { so_far.new.variables ≡ so_far.old.variables }
    ensures lits { OnOk result (AreSame (so_far.old.lits ++ without except lits.now) so_far.new.lits) }
{
    for lit in lits {
        if *lit != except {
            so_far.insert(*lit)?;
        }
    }
    Ok(())
}
