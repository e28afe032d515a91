//! Tests of public calls, on clauses and on multisets, with ample memory; there is no code. They stand
//! here, since a crate with tests of its own is proved once more for them.
//!
//! - `tests/formulas`: values of formulas, and which clauses are new
//! - `tests/logs`: verdicts on logs
//! - `tests/multisets`: places of multisets and numbers of claims
//! - `tests/numbers`: formulas that are written as numbers
//! - `tests/refutations`: the checker accepts the solvers' logs, and both solvers agree
//! - `tests/solver`: models, refutations and spent fuel of both solvers
//! - `tests/texts`: texts in DIMACS form, and the lines at which others are refused
#![tactic(auto)]

#[cfg(test)]
mod tests;
