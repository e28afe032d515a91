//! Questions about formulas that are asserted one after the other. The blaster and the solver are kept: what is new
//! becomes clauses, and these alone are handed to the solver.

ghost use Rattle.std.specs.Prelude.{◌≡◌, ◌+◌, ◌^◌, ◌<◌, ◌≤◌, ◌∷◌, [], ◌++◌, ◌↔◌, true, All, IfOk, IsTrue};
ghost use Rattle.std.specs.Prelude.{length, map};
ghost use Rattle.bv_terms.specs.Table.{Table, Extends, term_at};
ghost use Rattle.cnf_core.specs.Clause.{assigned, is_model};
ghost use Rattle.cnf_core.specs.Resolution.{AreNewClauses, IsAccepted};
ghost use Rattle.bit_blast.specs.Clauses.{IsFormula, AreClausesFor};
ghost use Rattle.bit_blast.specs.Blast.{Continues};
ghost use Rattle.bv_query.specs.Inputs.{HaveOneSort};
ghost use Rattle.bv_query.specs.Session.{formulas_in, IsRightSession};
ghost use Rattle.bv_query.specs.Decision.{OnYes, OnNo, OnSpent, OnClauses, OnLog, IsWitness, HaveNoWitness};

use crate::copies::{copied, copied_cnf, hand_over};
use crate::decision::Decision;
use crate::inputs::{have_one_sort, inputs_of};
use crate::refutation::checked;
use crate::values::values_of;
use bit_blast::{Blasted, Blaster, is_formula};
use bv_terms::{Env, TermId, Terms};
use cdcl_base::Answer;
use cdcl_watch::Solver;
use cnf_core::Fuel;
use collections::Seq;
use std::alloc::{AllocError, Global};
use std::marker::Model;

/// Formulas over one table of terms, asserted one after the other, about which questions are asked. Contracts see it as
/// the formulas with their circuit, and the solver's clauses.
#[derive(Drop)]
pub struct Session {
    blaster: Blaster,
    solver: Solver,
}

impl Model for Session {
    ghost use Rattle.bv_query.specs.Session.{Asserted};

    ghost Value = { Asserted };

    ghost view = { λ s. record { blast = s.blaster; clauses = s.solver } };
}

impl Session {
    /// Without a formula: right over every table. An `Err`, here and below, is out of memory.
    pub fn new(alloc: Global) -> Result<Session, AllocError>
        ensures formulas { IfOk result (λ s. s.blast.formulas ≡ []) }
        ensures right { IfOk result (λ s. (table : Table) → IsRightSession s table) }
    {
        let blaster = Blaster::new(alloc)?;
        let cnf = copied_cnf(alloc, &blaster.blasted().cnf)?;
        let solver = Solver::new(alloc, cnf)?;
        Ok(Session { blaster, solver })
    }

    /// The formulas that were asserted, in order. What is right over a table is right over every table that extends it.
    pub fn formulas(&self) -> &[TermId]
        ensures formulas { result.now ≡ self.now.blast.formulas }
        ensures extends { (old new : Table) → Extends old new
            → IsRightSession self.now old → IsRightSession self.now new }
    {
        self.blaster.formulas()
    }

    /// The clauses of the formulas, and the variables of the inputs' bits.
    pub fn blasted(&self) -> &Blasted
        ensures cnf { result.now.cnf ≡ self.now.blast.netlist.formula }
        ensures bits { result.now.bits ≡ self.now.blast.netlist.bits }
        ensures clauses { (table : Table) → IsRightSession self.now table
            → AreClausesFor (formulas_in table self.now) result.now.cnf result.now.bits }
    {
        self.blaster.blasted()
    }

    /// Whether a formula can be asserted: a truth value without memories, and no two inputs in it and in the formulas
    /// before have one number and two sorts.
    pub fn admits(&self, alloc: Global, terms: &Terms, formula: TermId) -> Result<bool, AllocError>
        requires right { IsRightSession self.now terms.now }
        requires there { formula.0 < length terms.now.nodes }
        ensures { IfOk result (λ may. IsTrue may ↔ (IsFormula terms.now.pointer (term_at terms.now formula)
            × HaveOneSort (map (term_at terms.now) (self.now.blast.formulas ++ formula ∷ [])))) }
    {
        if !is_formula(alloc, terms, formula)? {
            return Ok(false);
        }
        let mut formulas = Vec::from_slice(alloc, self.blaster.formulas())?;
        formulas.push(formula)?;
        let one_sort = have_one_sort(alloc, terms, &formulas)?;
        Ok(one_sort)
    }

    /// Asserts a formula beside those before. What was visited before costs nothing again.
    pub fn assert(
        self,
        alloc: Global,
        terms: &Terms,
        formula: TermId,
    ) -> Result<Session, AllocError>
        requires right { IsRightSession self terms.now }
        requires there { formula.0 < length terms.now.nodes }
        requires truth { IsFormula terms.now.pointer (term_at terms.now formula) }
        requires one_sort { HaveOneSort (map (term_at terms.now) (self.blast.formulas ++ formula ∷ [])) }
        ensures formulas { IfOk result (λ s. s.blast.formulas ≡ self.blast.formulas ++ formula ∷ []) }
        ensures right { IfOk result (λ s. IsRightSession s terms.now) }
        ensures continues { IfOk result (λ s. Continues self.blast.netlist s.blast.netlist) }
    {
        let Session {
            blaster,
            mut solver,
        } = self;
        let listed = blaster.blasted().bits.len();
        let blaster = blaster.assert(alloc, terms, formula)?;
        let blasted = blaster.blasted();
        hand_over(alloc, &mut solver, &blasted.cnf)?;
        set_phases(&mut solver, blasted.bits.as_slice(), listed);
        Ok(Session { blaster, solver })
    }

    /// Whether values of the inputs make all formulas true. Each unit of fuel is a chain of the log. Whatever is
    /// answered, the session is as before.
    pub fn decide(
        &mut self,
        alloc: Global,
        terms: &Terms,
        fuel: &mut Fuel,
    ) -> Result<Decision, AllocError>
        requires { IsRightSession self.old terms.now }
        ensures yes { IfOk result (λ d. OnYes d (IsWitness (formulas_in terms.now self.old))) }
        ensures no { IfOk result (λ d. OnNo d (λ r. HaveNoWitness (formulas_in terms.now self.old))) }

        // The clauses are those of the formulas, and the log is accepted where it is a refutation's.
        ensures clauses { IfOk result (λ d. OnClauses d (AreClausesFor (formulas_in terms.now self.old))) }
        ensures accepted { IfOk result (λ d. OnNo d (λ r. IsAccepted r.formula.clauses r.chains)) }

        // There is one chain for each unit that was spent, and each says something new.
        ensures new_clauses { IfOk result (λ d. OnLog d (λ cnf chains. AreNewClauses cnf.clauses chains)) }
        ensures count { IfOk result (λ d. OnLog d (λ cnf chains. length chains + fuel.new ≡ fuel.old)) }
        ensures spent { IfOk result (λ d. OnSpent d (λ cnf. fuel.new ≡ 0)) }
        ensures few { IfOk result (λ d. OnSpent d (λ cnf. fuel.old < 3 ^ cnf.variables)) }
        ensures fuel { fuel.new ≤ fuel.old }

        ensures same { self.new ≡ self.old }
        ensures right { IsRightSession self.new terms.now }
    {
        match self.solver.solve(fuel)? {
            Answer::Model(model) => {
                let env = self.environment(alloc, terms, model.as_slice())?;
                Ok(Decision::Yes(env))
            }
            Answer::Refuted(log) => {
                let blasted = copied(alloc, self.blaster.blasted())?;
                let refutation = checked(alloc, blasted, log)?.unwrap();
                Ok(Decision::No(refutation))
            }
            Answer::Spent(log) => {
                let blasted = copied(alloc, self.blaster.blasted())?;
                Ok(Decision::Spent { blasted, log })
            }
        }
    }

    /// The values of the inputs that a model of the clauses gives.
    fn environment(&self, alloc: Global, terms: &Terms, model: &[bool]) -> Result<Env, AllocError>
        requires right { IsRightSession self.now terms.now }
        requires model { (length model.now ≡ self.now.clauses.variables)
            × (is_model (assigned model.now) self.now.clauses.clauses ≡ true) }
        ensures { IfOk result (λ env. IsWitness (formulas_in terms.now self.now) env.values) }
    {
        // What each table keeps is known by this call.
        let _count = terms.len();
        let inputs = inputs_of(alloc, terms, self.blaster.formulas())?;
        let bits = self.blaster.blasted().bits.as_slice();
        let values = values_of(alloc, &inputs, bits, model)?;
        Ok(Env {
            values: Seq::from_vec(values),
        })
    }
}

/// Gives the variables of the bits from a place on their first phases.
fn set_phases(solver: &mut Solver, bits: &[(u32, u8, usize)], from: usize)
    requires { All (λ b. b.2 < solver.old.variables) bits.now }
    ensures { solver.new ≡ solver.old }
{
    for place in from..bits.len() {
        let (_, _, variable) = bits[place];
        solver.set_phase(variable, first_phase(variable));
    }
}

/// A fixed pseudo-random bit of a variable: with all inputs 0 at first, questions that go on from one another creep
/// from one value to the next. The steps are two of the generator SplitMix64.
fn first_phase(variable: usize) -> bool {
    let spread = (variable as u64).wrapping_mul(0x9E37_79B9_7F4A_7C15);
    let mixed = (spread ^ (spread >> 30)).wrapping_mul(0xBF58_476D_1CE4_E5B9);
    mixed >> 63 == 1
}

/// Whether values of the inputs make a formula true: what a session that begins with it answers.
pub fn decide(
    alloc: Global,
    terms: &Terms,
    formula: TermId,
    fuel: &mut Fuel,
) -> Result<Decision, AllocError>
    requires there { formula.0 < length terms.now.nodes }
    requires truth { IsFormula terms.now.pointer (term_at terms.now formula) }
    requires one_sort { HaveOneSort (term_at terms.now formula ∷ []) }
    ensures yes { IfOk result (λ d. OnYes d (IsWitness (term_at terms.now formula ∷ []))) }
    ensures no { IfOk result (λ d. OnNo d (λ r. HaveNoWitness (term_at terms.now formula ∷ []))) }
    ensures clauses { IfOk result (λ d. OnClauses d (AreClausesFor (term_at terms.now formula ∷ []))) }
    ensures accepted { IfOk result (λ d. OnNo d (λ r. IsAccepted r.formula.clauses r.chains)) }
    ensures new_clauses { IfOk result (λ d. OnLog d (λ cnf chains. AreNewClauses cnf.clauses chains)) }
    ensures count { IfOk result (λ d. OnLog d (λ cnf chains. length chains + fuel.new ≡ fuel.old)) }
    ensures spent { IfOk result (λ d. OnSpent d (λ cnf. fuel.new ≡ 0)) }
    ensures few { IfOk result (λ d. OnSpent d (λ cnf. fuel.old < 3 ^ cnf.variables)) }
    ensures fuel { fuel.new ≤ fuel.old }
{
    let session = Session::new(alloc)?;
    let mut session = session.assert(alloc, terms, formula)?;
    session.decide(alloc, terms, fuel)
}
