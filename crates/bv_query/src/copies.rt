//! Copies of clauses.

ghost use Rattle.std.specs.Prelude.{◌≡◌, ◌++◌, ◌≤◌, List, IfOk, OnOk};
ghost use Rattle.cnf_core.specs.declared.clause.Clause.{Clause};

use bit_blast::Blasted;
use cdcl_watch::Solver;
use cnf_core::{Clause, Cnf};
use collections::Seq;
use std::alloc::{AllocError, Global};

/// More variables than a formula has that fits into memory.
const MAX_VARIABLES: usize = 1 << 40;

/// A copy of a clause.
fn copied_clause(alloc: Global, clause: &Clause) -> Result<Clause, AllocError>
    ensures { IfOk result (λ c. c ≡ clause.now) }
{
    let lits = Vec::from_slice(alloc, clause.lits.as_slice())?;
    Ok(Clause {
        lits: Seq::from_vec(lits),
    })
}

/// A copy of a formula.
pub(crate) fn copied_cnf(alloc: Global, cnf: &Cnf) -> Result<Cnf, AllocError>
    ensures { IfOk result (λ c. c ≡ cnf.now) }
{
    let mut copy = Cnf::new(alloc, cnf.variables());
    for clause in cnf.clauses() {
        let clause = copied_clause(alloc, clause)?;
        copy.push(clause)?;
    }
    Ok(copy)
}

/// A copy of clauses and of the variables of inputs' bits.
pub(crate) fn copied(alloc: Global, blasted: &Blasted) -> Result<Blasted, AllocError>
    ensures { IfOk result (λ b. b ≡ blasted.now) }
{
    let cnf = copied_cnf(alloc, &blasted.cnf)?;
    let bits = Vec::from_slice(alloc, blasted.bits.as_slice())?;
    Ok(Blasted {
        cnf,
        bits: Seq::from_vec(bits),
    })
}

/// Makes a solver's formula this one, of which it has the first clauses. Where there are more than 2^40 variables,
/// memory counts as used up.
pub(crate) fn hand_over(alloc: Global, solver: &mut Solver, cnf: &Cnf) -> Result<(), AllocError>
    requires variables { solver.old.variables ≤ cnf.now.variables }
    requires clauses { (more : List Clause) × (cnf.now.clauses ≡ solver.old.clauses ++ more) }
    ensures { OnOk result (solver.new ≡ cnf.now) }
{
    if cnf.variables() > MAX_VARIABLES {
        return Err(AllocError);
    }
    let known = solver.cnf().clauses().len();
    solver.grow(cnf.variables())?;
    let clauses = cnf.clauses();
    for number in known..clauses.len() {
        let clause = copied_clause(alloc, &clauses[number])?;
        solver.add(clause)?;
    }
    Ok(())
}
