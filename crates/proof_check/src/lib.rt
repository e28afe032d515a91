//! The check of a log of resolution: whether it refutes a formula, and whether each of its chains says something new.
//!
//! - `check`: the verdict on a log, chain by chain ([`check_log`], [`Verdict`])
//! - `new_clauses`: whether each chain's clause is new beside those before it ([`are_new_clauses`])
//! - `lit_set`: the clause so far of a chain, as a set of literals
//! - `marks`: a mark for each literal
//!
//! Nothing is asked of the log: it may name literals and clauses that do not exist. The form of the logs is that of the
//! resolution traces of zChaff and TraceCheck.
#![tactic(auto)]

mod check;
mod lit_set;
mod marks;
mod new_clauses;

pub use check::{Verdict, check_log};
pub use new_clauses::are_new_clauses;
