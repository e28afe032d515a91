//! The clauses by which a literal has a gate's value.

ghost use Rattle.std.specs.Prelude.{◌≡◌, ◌<◌, ℕ, Bool, not, ◌&&◌, ◌||◌, ◌⊎◌, OnOk};
ghost use Rattle.std.specs.Bool.{beq};
ghost use Rattle.cnf_core.specs.Clause.{lit_true, clause_true, IsOver};
ghost use Rattle.circuit.specs.Gate.{xor, majority, parity, has_value, IsGateOver};
ghost use Rattle.circuit.specs.Added.{Adds, IsFunction};

use crate::gate::Gate;
use cnf_core::{Clause, Cnf, Lit};
use collections::Seq;
use std::alloc::{AllocError, Global};

/// Adds a clause of these literals.
fn push(alloc: Global, cnf: &mut Cnf, lits: &[Lit]) -> Result<(), AllocError>
    requires { IsOver cnf.old.variables lits.now }
    ensures { OnOk result (Adds cnf.old cnf.new (λ v. clause_true v lits.now)) }
{
    let lits = Vec::from_slice(alloc, lits)?;
    cnf.push(Clause {
        lits: Seq::from_vec(lits),
    })
}

/// Where a literal is false, two others are equal.
fn equal_unless(
    alloc: Global,
    cnf: &mut Cnf,
    guard: Lit,
    left: Lit,
    right: Lit,
) -> Result<(), AllocError>
    requires guard { guard.variable < cnf.old.variables }
    requires left { left.variable < cnf.old.variables }
    requires right { right.variable < cnf.old.variables }
    ensures { OnOk result (Adds cnf.old cnf.new
        (λ v. lit_true v guard || beq (lit_true v left) (lit_true v right))) }
{
    push(alloc, cnf, &[guard, left, right.opposite()])?;
    push(alloc, cnf, &[guard, left.opposite(), right])
}

/// Where a literal is false, another is the exclusive or of two.
fn xor_unless(
    alloc: Global,
    cnf: &mut Cnf,
    guard: Lit,
    output: Lit,
    a: Lit,
    b: Lit,
) -> Result<(), AllocError>
    requires guard { guard.variable < cnf.old.variables }
    requires output { output.variable < cnf.old.variables }
    requires a { a.variable < cnf.old.variables }
    requires b { b.variable < cnf.old.variables }
    ensures { OnOk result (Adds cnf.old cnf.new
        (λ v. lit_true v guard || beq (lit_true v output) (xor (lit_true v a) (lit_true v b)))) }
{
    push(alloc, cnf, &[guard, output.opposite(), a, b])?;
    push(
        alloc,
        cnf,
        &[guard, output.opposite(), a.opposite(), b.opposite()],
    )?;
    push(alloc, cnf, &[guard, output, a, b.opposite()])?;
    push(alloc, cnf, &[guard, output, a.opposite(), b])
}

/// Where at least two of three literals are true, so is another.
fn follows_from_two(
    alloc: Global,
    cnf: &mut Cnf,
    output: Lit,
    a: Lit,
    b: Lit,
    c: Lit,
) -> Result<(), AllocError>
    requires output { output.variable < cnf.old.variables }
    requires a { a.variable < cnf.old.variables }
    requires b { b.variable < cnf.old.variables }
    requires c { c.variable < cnf.old.variables }
    ensures { OnOk result (Adds cnf.old cnf.new
        (λ v. lit_true v output || not (majority (lit_true v a) (lit_true v b) (lit_true v c)))) }
{
    push(alloc, cnf, &[output, a.opposite(), b.opposite()])?;
    push(alloc, cnf, &[output, a.opposite(), c.opposite()])?;
    push(alloc, cnf, &[output, b.opposite(), c.opposite()])
}

/// A literal is true exactly where both are.
fn define_and(alloc: Global, cnf: &mut Cnf, output: Lit, a: Lit, b: Lit) -> Result<(), AllocError>
    requires output { output.variable < cnf.old.variables }
    requires a { a.variable < cnf.old.variables }
    requires b { b.variable < cnf.old.variables }
    ensures { OnOk result (Adds cnf.old cnf.new (λ v. has_value v (lit_true v output) (Gate.And a b))) }
{
    push(alloc, cnf, &[output.opposite(), a])?;
    push(alloc, cnf, &[output.opposite(), b])?;
    push(alloc, cnf, &[output, a.opposite(), b.opposite()])
}

/// A literal is the second where the first is true, and else the third.
fn define_choice(
    alloc: Global,
    cnf: &mut Cnf,
    output: Lit,
    condition: Lit,
    chosen: Lit,
    otherwise: Lit,
) -> Result<(), AllocError>
    requires output { output.variable < cnf.old.variables }
    requires condition { condition.variable < cnf.old.variables }
    requires chosen { chosen.variable < cnf.old.variables }
    requires otherwise { otherwise.variable < cnf.old.variables }
    ensures { OnOk result (Adds cnf.old cnf.new
        (λ v. has_value v (lit_true v output) (Gate.Choice condition chosen otherwise))) }
{
    equal_unless(alloc, cnf, condition.opposite(), output, chosen)?;
    equal_unless(alloc, cnf, condition, output, otherwise)
}

/// A literal is true exactly where one of two is.
fn define_xor(alloc: Global, cnf: &mut Cnf, output: Lit, a: Lit, b: Lit) -> Result<(), AllocError>
    requires output { output.variable < cnf.old.variables }
    requires a { a.variable < cnf.old.variables }
    requires b { b.variable < cnf.old.variables }
    ensures { OnOk result (Adds cnf.old cnf.new (λ v. has_value v (lit_true v output) (Gate.Xor a b))) }
{
    define_choice(alloc, cnf, output, a, b.opposite(), b)
}

/// A literal is true exactly where at least two of three are.
fn define_majority(
    alloc: Global,
    cnf: &mut Cnf,
    output: Lit,
    a: Lit,
    b: Lit,
    c: Lit,
) -> Result<(), AllocError>
    requires output { output.variable < cnf.old.variables }
    requires a { a.variable < cnf.old.variables }
    requires b { b.variable < cnf.old.variables }
    requires c { c.variable < cnf.old.variables }
    ensures { OnOk result (Adds cnf.old cnf.new (λ v. has_value v (lit_true v output) (Gate.Majority a b c))) }
{
    follows_from_two(alloc, cnf, output, a, b, c)?;
    follows_from_two(
        alloc,
        cnf,
        output.opposite(),
        a.opposite(),
        b.opposite(),
        c.opposite(),
    )
}

/// A literal is true exactly where one or three of three are.
fn define_parity(
    alloc: Global,
    cnf: &mut Cnf,
    output: Lit,
    a: Lit,
    b: Lit,
    c: Lit,
) -> Result<(), AllocError>
    requires output { output.variable < cnf.old.variables }
    requires a { a.variable < cnf.old.variables }
    requires b { b.variable < cnf.old.variables }
    requires c { c.variable < cnf.old.variables }
    ensures { OnOk result (Adds cnf.old cnf.new (λ v. has_value v (lit_true v output) (Gate.Parity a b c))) }
{
    xor_unless(alloc, cnf, a, output, b, c)?;
    xor_unless(alloc, cnf, a.opposite(), output.opposite(), b, c)
}

/// Adds the clauses by which a literal has a gate's value.
pub(crate) fn define(
    alloc: Global,
    cnf: &mut Cnf,
    output: Lit,
    gate: Gate,
) -> Result<(), AllocError>
    requires output { output.variable < cnf.old.variables }
    requires gate { IsGateOver cnf.old.variables gate }
    ensures clauses { OnOk result (Adds cnf.old cnf.new (λ v. has_value v (lit_true v output) gate)) }
    ensures input { OnOk result (IsFunction gate ⊎ (cnf.new ≡ cnf.old)) }
{
    match gate {
        Gate::Input { .. } => Ok(()),
        Gate::And(a, b) => define_and(alloc, cnf, output, a, b),
        Gate::Xor(a, b) => define_xor(alloc, cnf, output, a, b),
        Gate::Choice(a, b, c) => define_choice(alloc, cnf, output, a, b, c),
        Gate::Majority(a, b, c) => define_majority(alloc, cnf, output, a, b, c),
        Gate::Parity(a, b, c) => define_parity(alloc, cnf, output, a, b, c),
    }
}
