//! Answers of both solvers on small formulas, by hand.

use super::numbers::formula;
use cdcl_core::{Answer, solve};
use cdcl_watch::Solver;
use cnf_core::Fuel;
use std::alloc::{AllocError, Global};
use std::test::Fail;

/// What an answer says, apart from its values and its chains.
#[derive(Clone, Copy, PartialEq, Eq)]
enum Kind {
    Model,
    Refuted,
    Spent,
}

/// What an answer says, how many chains its log has, and the fuel that is left.
type Found = (Kind, u64, u64);

/// No assignment of two variables makes these clauses true.
const ALL_SIGNS: &[i32] = &[1, 2, 0, 1, -2, 0, -1, 2, 0, -1, -2, 0];

/// Three holes and four pigeons, each in a hole and no two in the same.
const PIGEONS: &[i32] = &[
    1, 2, 3, 0, 4, 5, 6, 0, 7, 8, 9, 0, 10, 11, 12, 0, -1, -4, 0, -1, -7, 0, -1, -10, 0, -4, -7, 0,
    -4, -10, 0, -7, -10, 0, -2, -5, 0, -2, -8, 0, -2, -11, 0, -5, -8, 0, -5, -11, 0, -8, -11, 0,
    -3, -6, 0, -3, -9, 0, -3, -12, 0, -6, -9, 0, -6, -12, 0, -9, -12, 0,
];

/// A name, the number of variables, the clauses, the fuel, what the answer is, and the fuel that is left.
const CASES: [(&str, usize, &[i32], u64, Kind, u64); 15] = [
    ("no variable", 0, &[], 0, Kind::Model, 0),
    ("no clause", 2, &[], 0, Kind::Model, 0),
    ("a unit clause", 1, &[1, 0], 0, Kind::Model, 0),
    ("propagation", 2, &[1, 0, -1, 2, 0], 3, Kind::Model, 3),
    ("level 0", 1, &[1, 0, -1, 0], 9, Kind::Refuted, 8),
    ("no fuel", 1, &[1, 0, -1, 0], 0, Kind::Spent, 0),
    ("an empty clause", 1, &[1, 0, 0], 0, Kind::Refuted, 0),
    ("empty and fuel", 1, &[1, 0, 0, -1, 0], 9, Kind::Refuted, 9),
    ("a decision", 2, ALL_SIGNS, 9, Kind::Refuted, 7),
    ("too little fuel", 2, ALL_SIGNS, 1, Kind::Spent, 0),
    (
        "repeated literals",
        2,
        &[1, 1, 0, -1, 2, 2, 0],
        0,
        Kind::Model,
        0,
    ),
    ("opposite literals", 2, &[1, -1, 0, 2, 0], 0, Kind::Model, 0),
    (
        "opposites and a conflict",
        2,
        &[1, -1, 0, 2, 2, 0, -2, -2, 0],
        3,
        Kind::Refuted,
        2,
    ),
    ("a clause twice", 2, &[1, 2, 0, 1, 2, 0], 0, Kind::Model, 0),
    (
        "a variable in no clause",
        3,
        &[1, 0, -1, 3, 0],
        0,
        Kind::Model,
        0,
    ),
];

/// What an answer says, with the fuel that is left.
fn told(answer: &Answer, fuel: &Fuel) -> Found {
    match answer {
        Answer::Model(_) => (Kind::Model, 0, fuel.left()),
        Answer::Refuted(log) => (Kind::Refuted, log.chains.len() as u64, fuel.left()),
        Answer::Spent(log) => (Kind::Spent, log.chains.len() as u64, fuel.left()),
    }
}

/// What the plain solver finds of the formula of such numbers, with that much fuel.
fn found(
    alloc: Global,
    variables: usize,
    numbers: &[i32],
    units: u64,
) -> Result<Found, AllocError> {
    let cnf = formula(alloc, variables, numbers)?;
    let mut fuel = Fuel::new(units);
    let answer = solve(alloc, &cnf, &mut fuel)?;
    Ok(told(&answer, &fuel))
}

/// What the solver that watches finds of it.
fn watched(
    alloc: Global,
    variables: usize,
    numbers: &[i32],
    units: u64,
) -> Result<Found, AllocError> {
    let cnf = formula(alloc, variables, numbers)?;
    let mut solver = Solver::new(alloc, cnf)?;
    let mut fuel = Fuel::new(units);
    let answer = solver.solve(&mut fuel)?;
    Ok(told(&answer, &fuel))
}

#[test]
fn answers_are_those_by_hand(rt: HostRuntime) -> Result<(), Fail> {
    for (name, variables, numbers, units, wanted, left) in CASES {
        let found = found(rt.alloc(), variables, numbers, units)?;
        assert!(rt; found == (wanted, units - left, left), "{name}");
    }
    Ok(())
}

#[test]
fn watches_find_what_is_so_by_hand(rt: HostRuntime) -> Result<(), Fail> {
    for (name, variables, numbers, units, wanted, left) in CASES {
        let found = watched(rt.alloc(), variables, numbers, units)?;
        assert!(rt; found == (wanted, units - left, left), "{name}");
    }
    Ok(())
}

#[test]
fn four_pigeons_need_four_holes(rt: HostRuntime) -> Result<(), Fail> {
    let (plain, _, _) = found(rt.alloc(), 12, PIGEONS, 1000)?;
    let (kind, _, _) = watched(rt.alloc(), 12, PIGEONS, 1000)?;
    assert!(rt; plain == Kind::Refuted && kind == Kind::Refuted);
    Ok(())
}
