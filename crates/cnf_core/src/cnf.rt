//! Formulas in conjunctive normal form. Each literal of a formula's clauses is over one of its variables.

ghost use Rattle.std.specs.Prelude.{◌≡◌, ◌+◌, ◌<◌, ◌≤◌, ◌++◌, ◌∷◌, [], ◌^◌, length, OnOk, OnErr};
ghost use Rattle.cnf_core.specs.Clause.{is_model, lit_true, clause_true, assigned, IsOver};
ghost use Rattle.cnf_core.specs.Formula.{IsFormula};

use crate::clause::{Clause, Lit};
use collections::Seq;
use std::alloc::{AllocError, Global};
use std::marker::Model;

/// A formula in conjunctive normal form: a number of variables, and clauses over them. Contracts see it as these two.
#[derive(Debug, Drop)]
pub struct Cnf {
    variables: usize,
    clauses: Seq<Clause>,
}

impl Model for Cnf {
    ghost use Rattle.cnf_core.specs.Formula.{Formula, IsFormula};

    ghost Value = { Formula };

    ghost view = { λ c. record { variables = c.variables; clauses = c.clauses } };

    ghost invariant = { λ c. IsFormula (record { variables = c.variables; clauses = c.clauses }) };
}

impl Cnf {
    /// The formula over n variables that has no clause.
    pub fn new(alloc: Global, variables: usize) -> Cnf
        ensures { result ≡ record { variables = variables; clauses = [] } }
    {
        Cnf {
            variables,
            clauses: Seq::new(alloc),
        }
    }

    /// The number of variables.
    pub fn variables(&self) -> usize
        ensures { result ≡ self.now.variables }
    {
        self.variables
    }

    /// The clauses, in the order in which they were pushed.
    pub fn clauses(&self) -> &[Clause]
        ensures clauses { result.now ≡ self.now.clauses }
        ensures formula { IsFormula self.now }
    {
        self.clauses.as_slice()
    }

    /// Adds a variable, and returns its number.
    pub fn variable(&mut self) -> usize
        requires { self.old.variables < 2 ^ 40 }
        ensures number { result ≡ self.old.variables }
        ensures formula { self.new ≡ record { variables = self.old.variables + 1; clauses = self.old.clauses } }
    {
        let number = self.variables;
        self.variables += 1;
        number
    }

    /// Makes the number of variables a greater one.
    pub fn grow(&mut self, variables: usize)
        requires more { self.old.variables ≤ variables }
        requires few { variables ≤ 2 ^ 40 }
        ensures { self.new ≡ record { variables = variables; clauses = self.old.clauses } }
    {
        self.variables = variables;
    }

    /// Adds a clause at the end. The only error is out of memory; it leaves the formula as it was.
    pub fn push(&mut self, clause: Clause) -> Result<(), AllocError>
        requires { IsOver self.old.variables clause.lits }
        ensures ok { OnOk result (self.new ≡
            record { variables = self.old.variables; clauses = self.old.clauses ++ clause ∷ [] }) }
        ensures err { OnErr result (self.new ≡ self.old) }
    {
        match self.clauses.push(clause) {
            Ok(()) => Ok(()),
            Err(_) => Err(AllocError),
        }
    }

    /// Whether an assignment makes every clause true. Its values are those of the variables in order.
    pub fn value(&self, assignment: &[bool]) -> bool
        requires { length assignment.now ≡ self.now.variables }
        ensures { result ≡ is_model (assigned assignment.now) self.now.clauses }
    {
        for clause in self.clauses.as_slice() {
            if !has_true_literal(clause.lits.as_slice(), assignment) {
                return false;
            }
        }
        true
    }
}

/// Whether an assignment makes a literal true.
fn is_true(lit: Lit, assignment: &[bool]) -> bool
    requires { lit.variable < length assignment.now }
    ensures { result ≡ lit_true (assigned assignment.now) lit }
{
    let value = assignment[lit.variable];
    if lit.positive { value } else { !value }
}

/// Whether an assignment makes some literal of a clause true.
fn has_true_literal(lits: &[Lit], assignment: &[bool]) -> bool
    requires { IsOver (length assignment.now) lits.now }
    ensures { result ≡ clause_true (assigned assignment.now) lits.now }
{
    for lit in lits {
        if is_true(*lit, assignment) {
            return true;
        }
    }
    false
}
