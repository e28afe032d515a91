//! Functions of two truth values. Constants are folded, and so are equal and opposite literals; equal functions share
//! a gate, in whichever order and with whichever signs their arguments come.

#![tactic(auto, using(crate::proofs::FunctionLemmas::circuits))]

ghost use Rattle.std.specs.Prelude.{◌≡◌, ◌<◌, ℕ, length, Bool, ◌&&◌, ◌||◌, OnOk, IfOk};
ghost use Rattle.cnf_core.specs.Clause.{lit_true};
ghost use Rattle.circuit.specs.Signal.{signal_true, IsSignalOver};
ghost use Rattle.circuit.specs.Gate.{xor, IsNetlist, Grows, IsSignalOf};

use crate::circuit::Circuit;
use crate::gate::Gate;
use crate::literals::{Pairing, ordered, pair, positive};
use crate::signal::Signal;
use cnf_core::Lit;
use std::alloc::{AllocError, Global};

impl Circuit {
    /// Both of two literals.
    pub(crate) fn and_lits(&mut self, alloc: Global, a: Lit, b: Lit) -> Result<Signal, AllocError>
        requires netlist { IsNetlist self.old }
        requires a { a.variable < length self.old.gates }
        requires b { b.variable < length self.old.gates }
        ensures grows { OnOk result (Grows self.old self.new) }
        ensures value { IfOk result (IsSignalOf self.new (λ v. lit_true v a && lit_true v b)) }
    {
        match pair(a, b) {
            Pairing::Equal => Ok(Signal::Literal(a)),
            Pairing::Opposite => Ok(Signal::Constant(false)),
            Pairing::Apart => {
                let (a, b) = ordered(a, b);
                self.gate(alloc, Gate::And(a, b))
            }
        }
    }

    /// Both of a literal and a signal.
    pub(crate) fn and_lit(&mut self, alloc: Global, a: Lit, b: Signal) -> Result<Signal, AllocError>
        requires netlist { IsNetlist self.old }
        requires a { a.variable < length self.old.gates }
        requires b { IsSignalOver (length self.old.gates) b }
        ensures grows { OnOk result (Grows self.old self.new) }
        ensures value { IfOk result (IsSignalOf self.new (λ v. lit_true v a && signal_true v b)) }
    {
        match b {
            Signal::Constant(true) => Ok(Signal::Literal(a)),
            Signal::Constant(false) => Ok(b),
            Signal::Literal(b) => self.and_lits(alloc, a, b),
        }
    }

    /// Both.
    pub fn and(&mut self, alloc: Global, a: Signal, b: Signal) -> Result<Signal, AllocError>
        requires netlist { IsNetlist self.old }
        requires a { IsSignalOver (length self.old.gates) a }
        requires b { IsSignalOver (length self.old.gates) b }
        ensures grows { OnOk result (Grows self.old self.new) }
        ensures value { IfOk result (IsSignalOf self.new (λ v. signal_true v a && signal_true v b)) }
    {
        match a {
            Signal::Constant(true) => Ok(b),
            Signal::Constant(false) => Ok(a),
            Signal::Literal(a) => self.and_lit(alloc, a, b),
        }
    }

    /// At least one of both.
    pub fn or(&mut self, alloc: Global, a: Signal, b: Signal) -> Result<Signal, AllocError>
        requires netlist { IsNetlist self.old }
        requires a { IsSignalOver (length self.old.gates) a }
        requires b { IsSignalOver (length self.old.gates) b }
        ensures grows { OnOk result (Grows self.old self.new) }
        ensures value { IfOk result (IsSignalOf self.new (λ v. signal_true v a || signal_true v b)) }
    {
        let neither = self.and(alloc, a.opposite(), b.opposite())?;
        Ok(neither.opposite())
    }

    /// Exactly one of literals of two variables. The gate has no negation: the result has both.
    fn xor_apart(&mut self, alloc: Global, a: Lit, b: Lit) -> Result<Signal, AllocError>
        requires netlist { IsNetlist self.old }
        requires a { a.variable < length self.old.gates }
        requires b { b.variable < length self.old.gates }
        ensures grows { OnOk result (Grows self.old self.new) }
        ensures value { IfOk result (IsSignalOf self.new (λ v. xor (lit_true v a) (lit_true v b))) }
    {
        let inverted = a.positive != b.positive;
        let (a, b) = ordered(positive(a), positive(b));
        let signal = self.gate(alloc, Gate::Xor(a, b))?;
        Ok(signal.inverted_if(inverted))
    }

    /// Exactly one of two literals.
    pub(crate) fn xor_lits(&mut self, alloc: Global, a: Lit, b: Lit) -> Result<Signal, AllocError>
        requires netlist { IsNetlist self.old }
        requires a { a.variable < length self.old.gates }
        requires b { b.variable < length self.old.gates }
        ensures grows { OnOk result (Grows self.old self.new) }
        ensures value { IfOk result (IsSignalOf self.new (λ v. xor (lit_true v a) (lit_true v b))) }
    {
        match pair(a, b) {
            Pairing::Equal => Ok(Signal::Constant(false)),
            Pairing::Opposite => Ok(Signal::Constant(true)),
            Pairing::Apart => self.xor_apart(alloc, a, b),
        }
    }

    /// Exactly one of both.
    pub fn xor(&mut self, alloc: Global, a: Signal, b: Signal) -> Result<Signal, AllocError>
        requires netlist { IsNetlist self.old }
        requires a { IsSignalOver (length self.old.gates) a }
        requires b { IsSignalOver (length self.old.gates) b }
        ensures grows { OnOk result (Grows self.old self.new) }
        ensures value { IfOk result (IsSignalOf self.new (λ v. xor (signal_true v a) (signal_true v b))) }
    {
        match (a, b) {
            (Signal::Constant(value), _) => Ok(b.inverted_if(value)),
            (_, Signal::Constant(value)) => Ok(a.inverted_if(value)),
            (Signal::Literal(a), Signal::Literal(b)) => self.xor_lits(alloc, a, b),
        }
    }
}
