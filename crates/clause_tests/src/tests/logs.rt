//! Logs over formulas of x and y, and their verdicts by hand.

use super::numbers::{formula, lit};
use cnf_core::{Chain, Log};
use collections::Seq;
use proof_check::{Verdict, are_new_clauses, check_log};
use std::alloc::{AllocError, Global};
use std::test::Fail;

/// The log of such pairs: one with 0 begins a chain with the clause of that number, and any other is a step.
fn log(alloc: Global, pairs: &[(i32, usize)]) -> Result<Log, AllocError> {
    let mut chains: Vec<Chain> = Vec::new(alloc);
    for (pivot, number) in pairs {
        if *pivot == 0 {
            chains.push(Chain {
                first: *number,
                steps: Seq::new(alloc),
            })?;
        } else if let Some(chain) = chains.last_mut() {
            chain.steps.push((lit(*pivot), *number))?;
        }
    }
    Ok(Log {
        chains: Seq::from_vec(chains),
    })
}

/// A name, a formula, a log over it, and the verdict.
const VERDICTS: [(&str, &[i32], &[(i32, usize)], Verdict); 17] = [
    (
        "a step",
        &[1, 0, -1, 0],
        &[(0, 0), (1, 1)],
        Verdict::Refuted,
    ),
    (
        "repeats",
        &[1, 1, 0, -1, -1, 0],
        &[(0, 0), (1, 1)],
        Verdict::Refuted,
    ),
    ("no step", &[1, 0, -1, 0], &[(0, 0)], Verdict::NotEmpty),
    (
        "a tautology",
        &[1, 0, 1, -1, 0, -1, 0],
        &[(0, 0), (1, 1), (1, 2)],
        Verdict::Refuted,
    ),
    (
        "one sign is left",
        &[1, -1, 0, -1, 0],
        &[(0, 0), (1, 1)],
        Verdict::NotEmpty,
    ),
    (
        "two chains",
        &[1, 2, 0, -1, 2, 0, -2, 0],
        &[(0, 0), (1, 1), (0, 3), (2, 2)],
        Verdict::Refuted,
    ),
    ("an empty clause", &[1, 0, 0], &[(0, 0)], Verdict::Refuted),
    ("no clause", &[], &[], Verdict::NotEmpty),
    (
        "the same sign",
        &[1, 0, -1, 0],
        &[(0, 0), (1, 0)],
        Verdict::BadStep(0),
    ),
    (
        "only in the named clause",
        &[1, 0, -2, 0],
        &[(0, 0), (2, 1)],
        Verdict::BadStep(0),
    ),
    (
        "the pivot is gone",
        &[1, 0, -1, 0],
        &[(0, 0), (1, 1), (1, 1)],
        Verdict::BadStep(0),
    ),
    (
        "no such variable",
        &[1, 0, -1, 0],
        &[(0, 0), (i32::MAX, 1)],
        Verdict::BadStep(0),
    ),
    (
        "a chain over itself",
        &[1, 0, -1, 0],
        &[(0, 2)],
        Verdict::BadStep(0),
    ),
    (
        "a chain over a later one",
        &[1, 0, -1, 0],
        &[(0, 0), (1, 3), (0, 1)],
        Verdict::BadStep(0),
    ),
    (
        "no such clause",
        &[1, 0, -1, 0],
        &[(0, usize::MAX)],
        Verdict::BadStep(0),
    ),
    (
        "bad beside an empty clause",
        &[0],
        &[(0, 0), (1, 0)],
        Verdict::BadStep(0),
    ),
    (
        "bad after a refutation",
        &[1, 0, -1, 0],
        &[(0, 0), (1, 1), (0, 0), (1, 0)],
        Verdict::BadStep(1),
    ),
];

/// The verdict on a log over a formula of two variables.
fn verdict(alloc: Global, numbers: &[i32], pairs: &[(i32, usize)]) -> Result<Verdict, AllocError> {
    let cnf = formula(alloc, 2, numbers)?;
    let log = log(alloc, pairs)?;
    check_log(alloc, &cnf, &log)
}

#[test]
fn verdicts_are_those_by_hand(rt: HostRuntime) -> Result<(), Fail> {
    for (name, numbers, pairs, wanted) in VERDICTS {
        let found = verdict(rt.alloc(), numbers, pairs)?;
        assert!(rt; found == wanted, "{name}");
    }
    Ok(())
}

/// A name, a log over the clauses {x, y}, {not x, y} and {x, not y}, and whether each of its chains says something new.
const NEW: [(&str, &[(i32, usize)], bool); 6] = [
    ("no chain", &[], true),
    ("two chains", &[(0, 0), (1, 1), (0, 0), (2, 2)], true),
    ("a clause of the formula", &[(0, 0)], false),
    (
        "a subsumed clause",
        &[(0, 0), (1, 1), (0, 1), (-1, 0)],
        false,
    ),
    ("a tautology", &[(0, 1), (2, 2)], false),
    ("a bad step", &[(0, 0), (1, 2)], false),
];

/// Whether each chain of a log over those clauses says something new.
fn are_new(alloc: Global, pairs: &[(i32, usize)]) -> Result<bool, AllocError> {
    let cnf = formula(alloc, 2, &[1, 2, 0, -1, 2, 0, -2, 1, 0])?;
    let log = log(alloc, pairs)?;
    are_new_clauses(alloc, &cnf, &log)
}

#[test]
fn chains_are_new_as_by_hand(rt: HostRuntime) -> Result<(), Fail> {
    for (name, pairs, wanted) in NEW {
        let found = are_new(rt.alloc(), pairs)?;
        assert!(rt; found == wanted, "{name}");
    }
    Ok(())
}
