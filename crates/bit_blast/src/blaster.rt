//! Formulas as clauses.

ghost use Rattle.std.specs.Prelude.{◌≡◌, ◌<◌, [], ◌∷◌, ◌++◌, length, map, IfOk};
ghost use Rattle.bv_terms.specs.Table.{Table, Extends, term_at};
ghost use Rattle.bit_blast.specs.Clauses.{IsFormula, AreClausesFor};
ghost use Rattle.bit_blast.specs.Blast.{IsRight, Continues};

use crate::assertions::assert_formula;
use crate::nodes::Nodes;
use bv_terms::{TermId, Terms};
pub use circuit::Blasted;
use circuit::Circuit;
use std::alloc::{AllocError, Global};
use std::marker::Model;

/// Formulas over one table of terms, asserted one after the other. Contracts see it as their nodes, the circuit, and
/// the words of nodes in it.
#[derive(Debug, Drop)]
pub struct Blaster {
    formulas: Vec<TermId>,
    circuit: Circuit,
    nodes: Nodes,
}

impl Model for Blaster {
    ghost use Rattle.bit_blast.specs.Blast.{Blast};

    ghost Value = { Blast };

    ghost view = { λ b. record { formulas = b.formulas.items; netlist = b.circuit; words = b.nodes } };
}

impl Blaster {
    /// Without a formula: right over every table. An `Err`, here and below, is out of memory.
    pub fn new(alloc: Global) -> Result<Blaster, AllocError>
        ensures formulas { IfOk result (λ b. b.formulas ≡ []) }
        ensures right { IfOk result (λ b. (table : Table) → IsRight b table) }
    {
        Ok(Blaster {
            formulas: Vec::new(alloc),
            circuit: Circuit::new(alloc),
            nodes: Nodes::new(alloc),
        })
    }

    /// The formulas that were asserted, in order.
    pub fn formulas(&self) -> &[TermId]
        ensures { result.now ≡ self.now.formulas }
    {
        &self.formulas
    }

    /// The clauses, and the variables of the inputs' bits. What is right over a table is right over every table that
    /// extends it.
    pub fn blasted(&self) -> &Blasted
        ensures cnf { result.now.cnf ≡ self.now.netlist.formula }
        ensures bits { result.now.bits ≡ self.now.netlist.bits }
        ensures clauses { (table : Table) → IsRight self.now table
            → AreClausesFor (map (term_at table) self.now.formulas) result.now.cnf result.now.bits }
        ensures extends { (old new : Table) → Extends old new → IsRight self.now old → IsRight self.now new }
    {
        self.circuit.blasted()
    }

    /// The clauses, and no more of the blaster.
    fn into_blasted(self) -> Blasted
        ensures { (table : Table) → IsRight self table
            → AreClausesFor (map (term_at table) self.formulas) result.cnf result.bits }
    {
        self.circuit.into_blasted()
    }

    /// Asserts a formula beside those before. What is visited before costs nothing again.
    pub fn assert(
        self,
        alloc: Global,
        terms: &Terms,
        formula: TermId,
    ) -> Result<Blaster, AllocError>
        requires right { IsRight self terms.now }
        requires there { formula.0 < length terms.now.nodes }
        requires truth { IsFormula terms.now.pointer (term_at terms.now formula) }
        ensures formulas { IfOk result (λ b. b.formulas ≡ self.formulas ++ formula ∷ []) }
        ensures right { IfOk result (λ b. IsRight b terms.now) }
        ensures continues { IfOk result (λ b. Continues self.netlist b.netlist) }
    {
        // What each table keeps is known by this call.
        let _count = terms.len();
        let Blaster {
            mut formulas,
            mut circuit,
            mut nodes,
        } = self;
        assert_formula(alloc, terms, &mut circuit, &mut nodes, formula)?;
        formulas.push(formula)?;
        Ok(Blaster {
            formulas,
            circuit,
            nodes,
        })
    }
}

/// The clauses of one formula, and the variables of its inputs' bits.
pub fn blast(alloc: Global, terms: &Terms, formula: TermId) -> Result<Blasted, AllocError>
    requires there { formula.0 < length terms.now.nodes }
    requires truth { IsFormula terms.now.pointer (term_at terms.now formula) }
    ensures { IfOk result (λ b. AreClausesFor (term_at terms.now formula ∷ []) b.cnf b.bits) }
{
    let blaster = Blaster::new(alloc)?;
    let blaster = blaster.assert(alloc, terms, formula)?;
    Ok(blaster.into_blasted())
}
