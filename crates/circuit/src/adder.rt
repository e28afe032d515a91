//! The two functions of a full adder. Constants are folded, and so are literals of one variable; equal functions share
//! a gate, in whichever order and with whichever signs their arguments come.

#![tactic(auto, using(crate::proofs::FunctionLemmas::circuits))]

ghost use Rattle.std.specs.Prelude.{◌≡◌, ◌<◌, ℕ, length, Bool, OnOk, IfOk};
ghost use Rattle.cnf_core.specs.Clause.{lit_true};
ghost use Rattle.circuit.specs.Signal.{signal_true, IsSignalOver};
ghost use Rattle.circuit.specs.Gate.{majority, parity, IsNetlist, Grows, IsSignalOf};

use crate::circuit::Circuit;
use crate::gate::Gate;
use crate::literals::{Pairing, ordered_three, pair, positive};
use crate::signal::Signal;
use cnf_core::Lit;
use std::alloc::{AllocError, Global};

impl Circuit {
    /// At least two of literals of three variables. The first of the gate is not negated: the result is negated where
    /// it was.
    fn majority_signed(
        &mut self,
        alloc: Global,
        a: Lit,
        b: Lit,
        c: Lit,
    ) -> Result<Signal, AllocError>
        requires netlist { IsNetlist self.old }
        requires a { a.variable < length self.old.gates }
        requires b { b.variable < length self.old.gates }
        requires c { c.variable < length self.old.gates }
        ensures grows { OnOk result (Grows self.old self.new) }
        ensures value { IfOk result (IsSignalOf self.new
            (λ v. majority (lit_true v a) (lit_true v b) (lit_true v c))) }
    {
        if a.positive {
            return self.gate(alloc, Gate::Majority(a, b, c));
        }
        let opposite = self.gate(
            alloc,
            Gate::Majority(a.opposite(), b.opposite(), c.opposite()),
        )?;
        Ok(opposite.opposite())
    }

    /// At least two of three literals, of which the second and the third may be of one variable.
    fn majority_last(&mut self, alloc: Global, a: Lit, b: Lit, c: Lit) -> Result<Signal, AllocError>
        requires netlist { IsNetlist self.old }
        requires a { a.variable < length self.old.gates }
        requires b { b.variable < length self.old.gates }
        requires c { c.variable < length self.old.gates }
        ensures grows { OnOk result (Grows self.old self.new) }
        ensures value { IfOk result (IsSignalOf self.new
            (λ v. majority (lit_true v a) (lit_true v b) (lit_true v c))) }
    {
        match pair(b, c) {
            Pairing::Equal => Ok(Signal::Literal(b)),
            Pairing::Opposite => Ok(Signal::Literal(a)),
            Pairing::Apart => self.majority_signed(alloc, a, b, c),
        }
    }

    /// At least two of any three literals.
    fn majority_lits(&mut self, alloc: Global, a: Lit, b: Lit, c: Lit) -> Result<Signal, AllocError>
        requires netlist { IsNetlist self.old }
        requires a { a.variable < length self.old.gates }
        requires b { b.variable < length self.old.gates }
        requires c { c.variable < length self.old.gates }
        ensures grows { OnOk result (Grows self.old self.new) }
        ensures value { IfOk result (IsSignalOf self.new
            (λ v. majority (lit_true v a) (lit_true v b) (lit_true v c))) }
    {
        let (a, b, c) = ordered_three(a, b, c);
        match pair(a, b) {
            Pairing::Equal => Ok(Signal::Literal(a)),
            Pairing::Opposite => Ok(Signal::Literal(c)),
            Pairing::Apart => self.majority_last(alloc, a, b, c),
        }
    }

    /// At least two of a constant and two signals.
    fn majority_with(
        &mut self,
        alloc: Global,
        value: bool,
        a: Signal,
        b: Signal,
    ) -> Result<Signal, AllocError>
        requires netlist { IsNetlist self.old }
        requires a { IsSignalOver (length self.old.gates) a }
        requires b { IsSignalOver (length self.old.gates) b }
        ensures grows { OnOk result (Grows self.old self.new) }
        ensures value { IfOk result (IsSignalOf self.new (λ v. majority value (signal_true v a) (signal_true v b))) }
    {
        if value {
            self.or(alloc, a, b)
        } else {
            self.and(alloc, a, b)
        }
    }

    /// At least two of three: the carry of a full adder.
    pub fn majority(
        &mut self,
        alloc: Global,
        a: Signal,
        b: Signal,
        c: Signal,
    ) -> Result<Signal, AllocError>
        requires netlist { IsNetlist self.old }
        requires a { IsSignalOver (length self.old.gates) a }
        requires b { IsSignalOver (length self.old.gates) b }
        requires c { IsSignalOver (length self.old.gates) c }
        ensures grows { OnOk result (Grows self.old self.new) }
        ensures value { IfOk result (IsSignalOf self.new
            (λ v. majority (signal_true v a) (signal_true v b) (signal_true v c))) }
    {
        match (a, b, c) {
            (Signal::Constant(value), _, _) => self.majority_with(alloc, value, b, c),
            (_, Signal::Constant(value), _) => self.majority_with(alloc, value, a, c),
            (_, _, Signal::Constant(value)) => self.majority_with(alloc, value, a, b),
            (Signal::Literal(a), Signal::Literal(b), Signal::Literal(c)) => {
                self.majority_lits(alloc, a, b, c)
            }
        }
    }

    /// One or three of three literals, of which the second and the third may be of one variable.
    fn parity_last(&mut self, alloc: Global, a: Lit, b: Lit, c: Lit) -> Result<Signal, AllocError>
        requires netlist { IsNetlist self.old }
        requires a { a.variable < length self.old.gates }
        requires b { b.variable < length self.old.gates }
        requires c { c.variable < length self.old.gates }
        ensures grows { OnOk result (Grows self.old self.new) }
        ensures value { IfOk result (IsSignalOf self.new (λ v. parity (lit_true v a) (lit_true v b) (lit_true v c))) }
    {
        match pair(b, c) {
            Pairing::Equal => Ok(Signal::Literal(a)),
            Pairing::Opposite => Ok(Signal::Literal(a.opposite())),
            Pairing::Apart => self.gate(alloc, Gate::Parity(a, b, c)),
        }
    }

    /// One or three of three literals by rising variables.
    fn parity_sorted(&mut self, alloc: Global, a: Lit, b: Lit, c: Lit) -> Result<Signal, AllocError>
        requires netlist { IsNetlist self.old }
        requires a { a.variable < length self.old.gates }
        requires b { b.variable < length self.old.gates }
        requires c { c.variable < length self.old.gates }
        ensures grows { OnOk result (Grows self.old self.new) }
        ensures value { IfOk result (IsSignalOf self.new (λ v. parity (lit_true v a) (lit_true v b) (lit_true v c))) }
    {
        match pair(a, b) {
            Pairing::Equal => Ok(Signal::Literal(c)),
            Pairing::Opposite => Ok(Signal::Literal(c.opposite())),
            Pairing::Apart => self.parity_last(alloc, a, b, c),
        }
    }

    /// One or three of any three literals. The gate has no negation: the result has all of them.
    fn parity_lits(&mut self, alloc: Global, a: Lit, b: Lit, c: Lit) -> Result<Signal, AllocError>
        requires netlist { IsNetlist self.old }
        requires a { a.variable < length self.old.gates }
        requires b { b.variable < length self.old.gates }
        requires c { c.variable < length self.old.gates }
        ensures grows { OnOk result (Grows self.old self.new) }
        ensures value { IfOk result (IsSignalOf self.new (λ v. parity (lit_true v a) (lit_true v b) (lit_true v c))) }
    {
        let inverted = (a.positive == b.positive) != c.positive;
        let (a, b, c) = ordered_three(positive(a), positive(b), positive(c));
        let signal = self.parity_sorted(alloc, a, b, c)?;
        Ok(signal.inverted_if(inverted))
    }

    /// One or three of a constant and two signals.
    fn parity_with(
        &mut self,
        alloc: Global,
        value: bool,
        a: Signal,
        b: Signal,
    ) -> Result<Signal, AllocError>
        requires netlist { IsNetlist self.old }
        requires a { IsSignalOver (length self.old.gates) a }
        requires b { IsSignalOver (length self.old.gates) b }
        ensures grows { OnOk result (Grows self.old self.new) }
        ensures value { IfOk result (IsSignalOf self.new (λ v. parity value (signal_true v a) (signal_true v b))) }
    {
        let signal = self.xor(alloc, a, b)?;
        Ok(signal.inverted_if(value))
    }

    /// One or three of three: the sum of a full adder.
    pub fn parity(
        &mut self,
        alloc: Global,
        a: Signal,
        b: Signal,
        c: Signal,
    ) -> Result<Signal, AllocError>
        requires netlist { IsNetlist self.old }
        requires a { IsSignalOver (length self.old.gates) a }
        requires b { IsSignalOver (length self.old.gates) b }
        requires c { IsSignalOver (length self.old.gates) c }
        ensures grows { OnOk result (Grows self.old self.new) }
        ensures value { IfOk result (IsSignalOf self.new
            (λ v. parity (signal_true v a) (signal_true v b) (signal_true v c))) }
    {
        match (a, b, c) {
            (Signal::Constant(value), _, _) => self.parity_with(alloc, value, b, c),
            (_, Signal::Constant(value), _) => self.parity_with(alloc, value, a, c),
            (_, _, Signal::Constant(value)) => self.parity_with(alloc, value, a, b),
            (Signal::Literal(a), Signal::Literal(b), Signal::Literal(c)) => {
                self.parity_lits(alloc, a, b, c)
            }
        }
    }
}
