//! The test that each chain of a log says something new. The clauses of the chains so far are those that they derive,
//! as sets.

ghost use Rattle.std.specs.Prelude.{◌++◌, IsTrue, ◌↔◌, IfOk};
ghost use Rattle.cnf_core.specs.Resolution.{IsNewClause, AreNewClauses};

use crate::check::derive;
use crate::lit_set::LitSet;
use cnf_core::{Clause, Cnf, Log, is_new_clause};
use std::alloc::{AllocError, Global};

/// Whether each chain of a log resolves, and its clause is no tautology and has neither a clause of the formula nor one
/// of an earlier chain as a subset. The only error is out of memory.
///
/// This is the plain program of that definition: each clause is compared with each earlier one. A solver's fuel is
/// counted in such chains.
pub fn are_new_clauses(alloc: Global, cnf: &Cnf, log: &Log) -> Result<bool, AllocError>
    ensures { IfOk result (λ yes. IsTrue yes ↔ AreNewClauses cnf.now.clauses log.now.chains) }
{
    let clauses = cnf.clauses();
    let mut so_far = LitSet::new(alloc, cnf.variables())?;
    let mut derived = Vec::new(alloc);
    for chain in log.chains.as_slice() {
        let Some(clause) = derive(alloc, &mut so_far, clauses, derived.as_slice(), chain)? else {
            return Ok(false);
        };
        if !is_new(clauses, derived.as_slice(), &clause) {
            return Ok(false);
        }
        derived.push(clause)?;
    }
    Ok(true)
}

/// Whether a clause is new beside those of the formula and those of the earlier chains.
fn is_new(clauses: &[Clause], earlier: &[Clause], clause: &Clause) -> bool
    ensures { IsTrue result ↔ IsNewClause (clauses.now ++ earlier.now) clause.now.lits }
{
    is_new_clause(clauses, clause) && is_new_clause(earlier, clause)
}
