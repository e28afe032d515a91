//! The gates of a circuit and their clauses. Variable k is gate k: it has the gate's value in every model, and each
//! choice of the inputs' bits leads to exactly one value of each gate.

ghost use Rattle.std.specs.Prelude.{◌≡◌, ◌<◌, ℕ, ◌+◌, [], ◌∷◌, ◌++◌, length, Bool, ◌⊎◌, All, OnOk, OnErr, IfOk};
ghost use Rattle.std.specs.List.{list_any};
ghost use Rattle.circuit.specs.Signal.{signal_true, IsSignalOver};
ghost use Rattle.circuit.specs.Gate.{IsGateOver, IsNetlist, Grows, Lists, Asserts, IsVariableOf, IsRun};
ghost use Rattle.circuit.specs.Added.{AddsGate, IsFunction};
ghost use Rattle.circuit.specs.declared.gate.Gate.TheVariants.{Input};

use crate::clauses::define;
use crate::gate::Gate;
use crate::literals::variable;
use crate::signal::Signal;
use cnf_core::{Clause, Cnf, Lit};
use collections::Seq;
use indexmap::IndexSet;
use std::alloc::{AllocError, Global};
use std::marker::Model;

/// How many variables there may be.
const MAX_VARIABLES: usize = 1 << 40;

/// Clauses, and the variables of the inputs' bits: the number of an input, a bit of it, and its variable.
#[derive(Debug, Drop)]
pub struct Blasted {
    pub cnf: Cnf,
    pub bits: Seq<(u32, u8, usize)>,
}

/// Gates, each there once, with the clauses of each, and the clauses that were asserted. An `Err` of its calls is out
/// of memory. Where a call does not say otherwise, the circuit is of no use after it.
#[derive(Debug, Drop)]
pub struct Circuit {
    blasted: Blasted,
    gates: IndexSet<Gate>,
}

impl Model for Circuit {
    ghost use Rattle.circuit.specs.Gate.{Netlist};

    ghost Value = { Netlist };

    ghost view = { λ c. record { formula = c.blasted.cnf; gates = c.gates.keys; bits = c.blasted.bits } };
}

/// A new variable. Where there are 2^40 of them, memory counts as used up.
fn new_variable(cnf: &mut Cnf) -> Result<usize, AllocError>
    ensures number { IfOk result (λ number. number ≡ cnf.old.variables) }
    ensures formula { OnOk result
        (cnf.new ≡ record { variables = cnf.old.variables + 1; clauses = cnf.old.clauses }) }
{
    if cnf.variables() >= MAX_VARIABLES {
        return Err(AllocError);
    }
    Ok(cnf.variable())
}

/// Adds a variable that has the value of a gate over earlier variables.
fn add_gate(alloc: Global, cnf: &mut Cnf, gate: Gate) -> Result<usize, AllocError>
    requires { IsGateOver cnf.old.variables gate }
    ensures number { IfOk result (λ number. number ≡ cnf.old.variables) }
    ensures clauses { OnOk result (AddsGate cnf.old cnf.new gate) }
    ensures input { OnOk result (IsFunction gate ⊎ (cnf.new.clauses ≡ cnf.old.clauses)) }
{
    let number = new_variable(cnf)?;
    define(alloc, cnf, variable(number), gate)?;
    Ok(number)
}

impl Circuit {
    /// The circuit without gates.
    pub fn new(alloc: Global) -> Circuit
        ensures netlist { IsNetlist result }
        ensures gates { result.gates ≡ [] }
        ensures clauses { result.formula.clauses ≡ [] }
    {
        Circuit {
            blasted: Blasted {
                cnf: Cnf::new(alloc, 0),
                bits: Seq::new(alloc),
            },
            gates: IndexSet::new(alloc),
        }
    }

    /// The clauses so far, those of the gates and those that were asserted, and the inputs' bits so far.
    pub fn blasted(&self) -> &Blasted
        ensures cnf { result.now.cnf ≡ self.now.formula }
        ensures bits { result.now.bits ≡ self.now.bits }
    {
        &self.blasted
    }

    /// The same, and no more of the circuit.
    pub fn into_blasted(self) -> Blasted
        ensures cnf { result.cnf ≡ self.formula }
        ensures bits { result.bits ≡ self.bits }
    {
        self.blasted
    }

    /// The gates so far. Each choice of the inputs' bits gives each gate exactly one value.
    pub fn gates(&self) -> &IndexSet<Gate>
        ensures gates { result.now.keys ≡ self.now.gates }
        ensures some_value { IsNetlist self.now → (bit : ℕ → ℕ → Bool)
            → (v : ℕ → Bool) × IsRun self.now.gates bit v }
        ensures one_value { IsNetlist self.now → (bit : ℕ → ℕ → Bool) (u v : ℕ → Bool)
            → IsRun self.now.gates bit u → IsRun self.now.gates bit v
            → (k : ℕ) → k < length self.now.gates → u k ≡ v k }
    {
        &self.gates
    }

    /// The signal of a gate: its variable that is there, or a new one with the gate's clauses.
    pub(crate) fn gate(&mut self, alloc: Global, gate: Gate) -> Result<Signal, AllocError>
        requires netlist { IsNetlist self.old }
        requires function { IsFunction gate }
        requires gate { IsGateOver (length self.old.gates) gate }
        ensures grows { OnOk result (Grows self.old self.new) }
        ensures variable { IfOk result (IsVariableOf self.new gate) }
    {
        let (number, added) = self.gates.insert_full(gate)?;
        if !added {
            return Ok(Signal::Literal(variable(number)));
        }
        let number = add_gate(alloc, &mut self.blasted.cnf, gate)?;
        Ok(Signal::Literal(variable(number)))
    }

    /// A bit of an input, bit 0 the lowest.
    pub fn input(&mut self, alloc: Global, number: u32, bit: u8) -> Result<Signal, AllocError>
        requires netlist { IsNetlist self.old }
        ensures lists { OnOk result (Lists number bit self.old self.new) }
        ensures over { IfOk result (IsSignalOver (length self.new.gates)) }
        ensures variable { IfOk result (IsVariableOf self.new (Input number bit)) }
    {
        let gate = Gate::Input { number, bit };
        let (place, added) = self.gates.insert_full(gate)?;
        if !added {
            return Ok(Signal::Literal(variable(place)));
        }
        let place = add_gate(alloc, &mut self.blasted.cnf, gate)?;
        self.blasted.bits.push((number, bit, place))?;
        Ok(Signal::Literal(variable(place)))
    }

    /// Asserts that one of the signals holds: a clause of those that are not known to be false, where none is known to
    /// be true. An `Err` is out of memory, and leaves the circuit as it was.
    pub fn assert_any(&mut self, alloc: Global, signals: &[Signal]) -> Result<(), AllocError>
        requires netlist { IsNetlist self.old }
        requires signals { All (IsSignalOver (length self.old.gates)) signals.now }
        ensures asserts { OnOk result (Asserts self.old self.new (λ v. list_any (signal_true v) signals.now)) }
        ensures err { OnErr result (self.new ≡ self.old) }
    {
        let mut lits = Vec::new(alloc);
        for signal in signals {
            match *signal {
                Signal::Constant(value) => {
                    if value {
                        return Ok(());
                    }
                }
                Signal::Literal(lit) => lits.push(lit)?,
            }
        }
        self.blasted.cnf.push(Clause {
            lits: Seq::from_vec(lits),
        })
    }
}
