//! Formulas in conjunctive normal form, logs of resolution and fuel: the terms in which solvers and the checker of
//! their logs speak.
//!
//! - `clause`: literals and clauses ([`Lit`], [`Clause`])
//! - `cnf`: formulas, and their value under an assignment ([`Cnf`])
//! - `log`: derivations by resolution ([`Chain`], [`Log`])
//! - `law`: a refuted formula has no model ([`no_model`]), and how many new clauses there can be
//!   ([`new_clauses_bound`])
//! - `new_clause`: whether a clause says something new beside earlier ones ([`is_new_clause`])
//! - `fuel`: units of work that may still be spent ([`Fuel`])
//!
//! The clauses of a formula are numbered from 0, and the clauses of a log's chains after them, in order. Sources:
//! J. A. Robinson, A machine-oriented logic based on the resolution principle, 1965; the resolution traces of zChaff
//! and TraceCheck.
#![tactic(auto)]

mod clause;
mod cnf;
mod fuel;
mod law;
mod log;
mod new_clause;

pub use clause::{Clause, Lit};
pub use cnf::Cnf;
pub use fuel::Fuel;
pub use law::{new_clauses_bound, no_model};
pub use log::{Chain, Log};
pub use new_clause::is_new_clause;
