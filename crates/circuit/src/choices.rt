//! Choices between truth values. Constants are folded, and so are literals of one variable; equal choices share a gate,
//! whichever the signs of their condition and their second.

#![tactic(auto, using(crate::proofs::FunctionLemmas::circuits))]

ghost use Rattle.std.specs.Prelude.{◌≡◌, ◌<◌, ℕ, length, Bool, if◌then◌else◌, OnOk, IfOk};
ghost use Rattle.cnf_core.specs.Clause.{lit_true};
ghost use Rattle.circuit.specs.Signal.{signal_true, IsSignalOver};
ghost use Rattle.circuit.specs.Gate.{IsNetlist, Grows, IsSignalOf};

use crate::circuit::Circuit;
use crate::gate::Gate;
use crate::literals::{Pairing, pair};
use crate::signal::Signal;
use cnf_core::Lit;
use std::alloc::{AllocError, Global};

impl Circuit {
    /// A choice between literals of three variables under one that is not negated. Nor is the second at the gate: the
    /// result is negated where it was.
    fn choice_apart(
        &mut self,
        alloc: Global,
        condition: Lit,
        chosen: Lit,
        otherwise: Lit,
    ) -> Result<Signal, AllocError>
        requires netlist { IsNetlist self.old }
        requires condition { condition.variable < length self.old.gates }
        requires chosen { chosen.variable < length self.old.gates }
        requires otherwise { otherwise.variable < length self.old.gates }
        ensures grows { OnOk result (Grows self.old self.new) }
        ensures value { IfOk result (IsSignalOf self.new
            (λ v. if lit_true v condition then lit_true v chosen else lit_true v otherwise)) }
    {
        if chosen.positive {
            return self.gate(alloc, Gate::Choice(condition, chosen, otherwise));
        }
        let opposite = self.gate(
            alloc,
            Gate::Choice(condition, chosen.opposite(), otherwise.opposite()),
        )?;
        Ok(opposite.opposite())
    }

    /// A choice between literals of three variables. The gate's condition is not negated.
    fn choice_signed(
        &mut self,
        alloc: Global,
        condition: Lit,
        chosen: Lit,
        otherwise: Lit,
    ) -> Result<Signal, AllocError>
        requires netlist { IsNetlist self.old }
        requires condition { condition.variable < length self.old.gates }
        requires chosen { chosen.variable < length self.old.gates }
        requires otherwise { otherwise.variable < length self.old.gates }
        ensures grows { OnOk result (Grows self.old self.new) }
        ensures value { IfOk result (IsSignalOf self.new
            (λ v. if lit_true v condition then lit_true v chosen else lit_true v otherwise)) }
    {
        if condition.positive {
            self.choice_apart(alloc, condition, chosen, otherwise)
        } else {
            self.choice_apart(alloc, condition.opposite(), otherwise, chosen)
        }
    }

    /// A choice between literals of two variables, where the third may be of the condition's.
    fn choice_otherwise(
        &mut self,
        alloc: Global,
        condition: Lit,
        chosen: Lit,
        otherwise: Lit,
    ) -> Result<Signal, AllocError>
        requires netlist { IsNetlist self.old }
        requires condition { condition.variable < length self.old.gates }
        requires chosen { chosen.variable < length self.old.gates }
        requires otherwise { otherwise.variable < length self.old.gates }
        ensures grows { OnOk result (Grows self.old self.new) }
        ensures value { IfOk result (IsSignalOf self.new
            (λ v. if lit_true v condition then lit_true v chosen else lit_true v otherwise)) }
    {
        match pair(condition, otherwise) {
            Pairing::Equal => self.and_lits(alloc, condition, chosen),
            Pairing::Opposite => self.or(
                alloc,
                Signal::Literal(condition.opposite()),
                Signal::Literal(chosen),
            ),
            Pairing::Apart => self.choice_signed(alloc, condition, chosen, otherwise),
        }
    }

    /// A choice between literals of two variables, where one of them may be of the condition's.
    fn choice_chosen(
        &mut self,
        alloc: Global,
        condition: Lit,
        chosen: Lit,
        otherwise: Lit,
    ) -> Result<Signal, AllocError>
        requires netlist { IsNetlist self.old }
        requires condition { condition.variable < length self.old.gates }
        requires chosen { chosen.variable < length self.old.gates }
        requires otherwise { otherwise.variable < length self.old.gates }
        ensures grows { OnOk result (Grows self.old self.new) }
        ensures value { IfOk result (IsSignalOf self.new
            (λ v. if lit_true v condition then lit_true v chosen else lit_true v otherwise)) }
    {
        match pair(condition, chosen) {
            Pairing::Equal => self.or(
                alloc,
                Signal::Literal(condition),
                Signal::Literal(otherwise),
            ),
            Pairing::Opposite => self.and_lits(alloc, condition.opposite(), otherwise),
            Pairing::Apart => self.choice_otherwise(alloc, condition, chosen, otherwise),
        }
    }

    /// A choice between any literals.
    fn choice_lits(
        &mut self,
        alloc: Global,
        condition: Lit,
        chosen: Lit,
        otherwise: Lit,
    ) -> Result<Signal, AllocError>
        requires netlist { IsNetlist self.old }
        requires condition { condition.variable < length self.old.gates }
        requires chosen { chosen.variable < length self.old.gates }
        requires otherwise { otherwise.variable < length self.old.gates }
        ensures grows { OnOk result (Grows self.old self.new) }
        ensures value { IfOk result (IsSignalOf self.new
            (λ v. if lit_true v condition then lit_true v chosen else lit_true v otherwise)) }
    {
        match pair(chosen, otherwise) {
            Pairing::Equal => Ok(Signal::Literal(chosen)),
            Pairing::Opposite => self.xor_lits(alloc, condition, otherwise),
            Pairing::Apart => self.choice_chosen(alloc, condition, chosen, otherwise),
        }
    }

    /// A choice between a literal and a signal.
    fn choice_from(
        &mut self,
        alloc: Global,
        condition: Lit,
        chosen: Lit,
        otherwise: Signal,
    ) -> Result<Signal, AllocError>
        requires netlist { IsNetlist self.old }
        requires condition { condition.variable < length self.old.gates }
        requires chosen { chosen.variable < length self.old.gates }
        requires otherwise { IsSignalOver (length self.old.gates) otherwise }
        ensures grows { OnOk result (Grows self.old self.new) }
        ensures value { IfOk result (IsSignalOf self.new
            (λ v. if lit_true v condition then lit_true v chosen else signal_true v otherwise)) }
    {
        match otherwise {
            Signal::Constant(true) => self.or(
                alloc,
                Signal::Literal(condition.opposite()),
                Signal::Literal(chosen),
            ),
            Signal::Constant(false) => self.and_lits(alloc, condition, chosen),
            Signal::Literal(otherwise) => self.choice_lits(alloc, condition, chosen, otherwise),
        }
    }

    /// A choice between signals under a literal.
    fn choice_under(
        &mut self,
        alloc: Global,
        condition: Lit,
        chosen: Signal,
        otherwise: Signal,
    ) -> Result<Signal, AllocError>
        requires netlist { IsNetlist self.old }
        requires condition { condition.variable < length self.old.gates }
        requires chosen { IsSignalOver (length self.old.gates) chosen }
        requires otherwise { IsSignalOver (length self.old.gates) otherwise }
        ensures grows { OnOk result (Grows self.old self.new) }
        ensures value { IfOk result (IsSignalOf self.new
            (λ v. if lit_true v condition then signal_true v chosen else signal_true v otherwise)) }
    {
        match chosen {
            Signal::Constant(true) => self.or(alloc, Signal::Literal(condition), otherwise),
            Signal::Constant(false) => self.and_lit(alloc, condition.opposite(), otherwise),
            Signal::Literal(chosen) => self.choice_from(alloc, condition, chosen, otherwise),
        }
    }

    /// The second where the first holds, and else the third.
    pub fn choice(
        &mut self,
        alloc: Global,
        condition: Signal,
        chosen: Signal,
        otherwise: Signal,
    ) -> Result<Signal, AllocError>
        requires netlist { IsNetlist self.old }
        requires condition { IsSignalOver (length self.old.gates) condition }
        requires chosen { IsSignalOver (length self.old.gates) chosen }
        requires otherwise { IsSignalOver (length self.old.gates) otherwise }
        ensures grows { OnOk result (Grows self.old self.new) }
        ensures value { IfOk result (IsSignalOf self.new
            (λ v. if signal_true v condition then signal_true v chosen else signal_true v otherwise)) }
    {
        match condition {
            Signal::Constant(true) => Ok(chosen),
            Signal::Constant(false) => Ok(otherwise),
            Signal::Literal(condition) => self.choice_under(alloc, condition, chosen, otherwise),
        }
    }
}
