//! The solver: a formula that grows between questions, and the search for its models.

ghost use Rattle.std.specs.Prelude.{◌≡◌, ◌≢◌, ◌+◌, ◌^◌, ◌<◌, ◌≤◌, ◌++◌, ◌∷◌, [], true, length, All, Contains, IfOk};
ghost use Rattle.std.specs.Prelude.{OnOk};
ghost use Rattle.std.specs.Prelude.{OnErr};
ghost use Rattle.cnf_core.specs.Clause.{assigned, is_model, IsOver, HasNoModel};
ghost use Rattle.cnf_core.specs.Resolution.{clause, IsAccepted, AreNewClauses};
ghost use Rattle.cdcl_base.specs.Answer.{OnModel, OnRefuted, OnSpent, OnLog};

use crate::search::Search;
use cdcl_base::Answer;
use cnf_core::{Clause, Cnf, Fuel, Log};
use collections::Seq;
use std::alloc::{AllocError, Global};
use std::marker::Model;

/// A formula that gets clauses and variables, and is solved as often as is asked. Contracts see it as the formula.
///
/// What is learnt for one question is given up with it. The scores of the variables and the values that they had last
/// stay for the next one.
#[derive(Drop)]
pub struct Solver {
    alloc: Global,
    cnf: Cnf,
    search: Search,
}

impl Model for Solver {
    ghost use Rattle.cnf_core.specs.Formula.{Formula};

    ghost Value = { Formula };

    ghost view = { λ s. s.cnf };
}

/// Whether some clause is empty.
fn has_empty(clauses: &[Clause]) -> bool
    ensures yes { result ≡ true → Contains clauses.now (clause []) }
    ensures no { (result ≡ true → ⊥) → All (λ c. c.lits ≢ []) clauses.now }
{
    for clause in clauses {
        if clause.lits.is_empty() {
            return true;
        }
    }
    false
}

impl Solver {
    /// A solver for a formula. There is no memory for one over more than 2^31 variables.
    pub fn new(alloc: Global, cnf: Cnf) -> Result<Solver, AllocError>
        ensures { IfOk result (λ s. s ≡ cnf) }
    {
        let search = Search::new(alloc, cnf.variables())?;
        Ok(Solver { alloc, cnf, search })
    }

    /// The formula so far.
    pub fn cnf(&self) -> &Cnf
        ensures { result.now ≡ self.now }
    {
        &self.cnf
    }

    /// Adds a clause at the end. The only error is out of memory; it leaves the formula as it was.
    pub fn add(&mut self, clause: Clause) -> Result<(), AllocError>
        requires { IsOver self.old.variables clause.lits }
        ensures ok { OnOk result (self.new ≡
            record { variables = self.old.variables; clauses = self.old.clauses ++ clause ∷ [] }) }
        ensures err { OnErr result (self.new ≡ self.old) }
    {
        self.cnf.push(clause)
    }

    /// Makes the number of variables a greater one. There is no memory for more than 2^31. An error leaves the formula
    /// as it was.
    pub fn grow(&mut self, variables: usize) -> Result<(), AllocError>
        requires more { self.old.variables ≤ variables }
        requires few { variables ≤ 2 ^ 40 }
        ensures ok { OnOk result (self.new ≡ record { variables = variables; clauses = self.old.clauses }) }
        ensures err { OnErr result (self.new ≡ self.old) }
    {
        self.search.reserve(variables)?;
        self.cnf.grow(variables);
        Ok(())
    }

    /// Makes the value that a variable takes first when it is decided.
    pub fn set_phase(&mut self, variable: usize, value: bool)
        requires { variable < self.old.variables }
        ensures { self.new ≡ self.old }
    {
        self.search.set_phase(variable, value);
    }

    /// A model of the formula so far, or an accepted log that refutes it, or the log of the conflicts on which the fuel
    /// was spent. The formula stays, also after an error.
    ///
    /// Each conflict costs one unit of fuel and adds one chain to the log, whose clause says something new; so over v
    /// variables 3^v units always suffice. `Spent` comes at a conflict with no fuel left. A formula with an empty
    /// clause is refuted by the empty log. The only error is out of memory.
    pub fn solve(&mut self, fuel: &mut Fuel) -> Result<Answer, AllocError>
        ensures same { self.new ≡ self.old }

        // A model makes every clause true; a refutation is accepted, and then there is none.
        ensures model { IfOk result (λ a. OnModel a (λ values.
            (length values ≡ self.old.variables) × (is_model (assigned values) self.old.clauses ≡ true))) }
        ensures refuted { IfOk result (λ a. OnRefuted a (λ chains. IsAccepted self.old.clauses chains)) }
        ensures no_model { IfOk result (λ a. OnRefuted a (λ chains. HasNoModel self.old.clauses)) }
        ensures empty { Contains self.old.clauses (clause []) →
            IfOk result (λ a. a ≡ Answer.Refuted (record { chains = [] })) }

        // There is one chain for each unit that was spent, and each says something new.
        ensures new_clauses { IfOk result (λ a. OnLog a (AreNewClauses self.old.clauses)) }
        ensures count { IfOk result (λ a. OnLog a (λ chains. length chains + fuel.new ≡ fuel.old)) }
        ensures spent { IfOk result (λ a. OnSpent a (λ chains. fuel.new ≡ 0)) }
        ensures decided { 3 ^ self.old.variables ≤ fuel.old → IfOk result (λ a. OnSpent a (λ chains. ⊥)) }
        ensures fuel { fuel.new ≤ fuel.old }
    {
        if has_empty(self.cnf.clauses()) {
            return Ok(Answer::Refuted(Log {
                chains: Seq::new(self.alloc),
            }));
        }
        self.search.run(self.alloc, &self.cnf, fuel)
    }
}
