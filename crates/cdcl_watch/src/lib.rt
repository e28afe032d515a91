//! A solver for formulas in conjunctive normal form by conflict-driven clause learning, whose propagation goes over the
//! clauses that watch a literal which became false.
//!
//! - `solver`: a formula that grows between questions, and what is answered ([`Solver`])
//! - `search`: the loop of one question, and a clause learnt from each conflict
//! - `attach`: clauses that get their watches
//! - `propagation`: unit propagation by two watched literals of each clause
//! - `lists`: for each literal the clauses that watch it
//! - `order`: which variable is decided next
//!
//! The answers are those of the plain solver of `cdcl_core`, which goes over all clauses, with the same clauses said of
//! them. The formula has at most 2^31 variables; for a larger one there is no memory.
//!
//! Sources: M. Moskewicz, C. Madigan, Y. Zhao, L. Zhang, S. Malik, Chaff: Engineering an Efficient SAT Solver, DAC
//! 2001; N. Eén, N. Sörensson, An Extensible SAT-solver (MiniSat), 2003, whose names are used.
#![tactic(auto)]

mod attach;
mod lists;
mod order;
mod propagation;
mod search;
mod solver;

pub use cdcl_base::Answer;
pub use solver::Solver;
