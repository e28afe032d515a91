//! The answer to a question.

use crate::refutation::Refutation;
use bit_blast::Blasted;
use bv_terms::Env;
use cnf_core::Log;

/// What was found of formulas.
#[derive(Debug, Drop)]
pub enum Decision {
    /// Values of the inputs that make all formulas true. Input `k` has the value in place `k`; a place of no input has
    /// the value false.
    Yes(Env),
    /// No values of the inputs' sorts do.
    No(Refutation),
    /// No fuel is left: the formulas' clauses, and the log of the conflicts on which it was spent.
    Spent { blasted: Blasted, log: Log },
}
