//! The checker accepts what the solvers refute, and both solvers agree, on pseudo-random formulas of three literals a
//! clause.

ghost use Rattle.std.specs.Prelude.{◌≡◌, ◌<◌, IfOk};
ghost use Rattle.cnf_core.specs.Clause.{IsOver};

use cdcl_core::{Answer, solve};
use cdcl_watch::Solver;
use cnf_core::{Clause, Cnf, Fuel, Lit};
use collections::Seq;
use proof_check::{Verdict, are_new_clauses, check_log};
use std::alloc::{AllocError, Global};
use std::test::Fail;

/// The next literal of a pseudo-random sequence, over six variables.
fn next_lit(state: &mut u32) -> Lit
    ensures { result.variable < 6 }
{
    *state = state.wrapping_mul(1_103_515_245).wrapping_add(12_345) % 0x8000_0000;
    Lit {
        variable: (*state / 65_536 % 6) as usize,
        positive: *state / 4_096 % 2 == 1,
    }
}

/// The next clause of three literals.
fn next_clause(alloc: Global, state: &mut u32) -> Result<Clause, AllocError>
    ensures { IfOk result (λ c. IsOver 6 c.lits) }
{
    let first = next_lit(state);
    let second = next_lit(state);
    let third = next_lit(state);
    Ok(Clause {
        lits: Seq::from_vec(vec![in alloc; first, second, third]?),
    })
}

/// The formula of a seed: 24 clauses over six variables.
fn seeded(alloc: Global, seed: u32) -> Result<Cnf, AllocError> {
    let mut state = seed.wrapping_add(1);
    let mut cnf = Cnf::new(alloc, 6);
    for _clause in 0..24 {
        cnf.push(next_clause(alloc, &mut state)?)?;
    }
    Ok(cnf)
}

/// What an answer to a formula says: that there is a model; or that there is none, whether the checker accepts that,
/// and whether each chain says something new.
#[derive(Clone, Copy, PartialEq, Eq)]
enum Told {
    Model,
    Refuted { accepted: bool, new: bool },
    Spent,
}

/// What an answer to a formula says.
fn outcome_of(alloc: Global, cnf: &Cnf, answer: &Answer) -> Result<Told, AllocError> {
    match answer {
        Answer::Model(_) => Ok(Told::Model),
        Answer::Spent(_) => Ok(Told::Spent),
        Answer::Refuted(log) => {
            let accepted = check_log(alloc, cnf, log)? == Verdict::Refuted;
            let new = are_new_clauses(alloc, cnf, log)?;
            Ok(Told::Refuted { accepted, new })
        }
    }
}

/// What the plain solver says of a formula, with enough fuel.
fn plain(alloc: Global, cnf: &Cnf) -> Result<Told, AllocError> {
    let answer = solve(alloc, cnf, &mut Fuel::new(729))?;
    outcome_of(alloc, cnf, &answer)
}

/// What the solver that watches says of its formula, with enough fuel.
fn watched(alloc: Global, solver: &mut Solver) -> Result<Told, AllocError>
    ensures { solver.new ≡ solver.old }
{
    let answer = solver.solve(&mut Fuel::new(729))?;
    outcome_of(alloc, solver.cnf(), &answer)
}

/// What both solvers say of the formula of a seed.
fn found(alloc: Global, seed: u32) -> Result<(Told, Told), AllocError> {
    let cnf = seeded(alloc, seed)?;
    let plain = plain(alloc, &cnf)?;
    let mut solver = Solver::new(alloc, cnf)?;
    Ok((plain, watched(alloc, &mut solver)?))
}

/// Whether one solver that gets the clauses of a seed one by one says of each formula on the way what the plain one
/// says of it.
fn agrees_on_the_way(alloc: Global, seed: u32) -> Result<bool, AllocError> {
    let mut state = seed.wrapping_add(1);
    let mut solver = Solver::new(alloc, Cnf::new(alloc, 0))?;
    solver.grow(6)?;
    for _clause in 0..24 {
        solver.add(next_clause(alloc, &mut state)?)?;
        if watched(alloc, &mut solver)? != plain(alloc, solver.cnf())? {
            return Ok(false);
        }
    }
    Ok(true)
}

#[test]
fn the_checker_accepts_what_the_solvers_refute(rt: HostRuntime) -> Result<(), Fail> {
    let refuted = Told::Refuted {
        accepted: true,
        new: true,
    };
    let mut count = 0u32;
    for seed in 0..200 {
        let found = found(rt.alloc(), seed)?;
        assert!(rt;
            found == (refuted, refuted) || found == (Told::Model, Told::Model),
            "seed {seed}"
        );
        if found.0 == refuted {
            count = count.saturating_add(1);
        }
    }
    assert!(rt; count > 0 && count < 200, "{count} are refuted");
    Ok(())
}

#[test]
fn a_solver_that_grows_agrees(rt: HostRuntime) -> Result<(), Fail> {
    for seed in 0..200 {
        assert!(rt; agrees_on_the_way(rt.alloc(), seed)?, "seed {seed}");
    }
    Ok(())
}
