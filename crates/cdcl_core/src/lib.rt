//! A solver for formulas in conjunctive normal form by conflict-driven clause learning, whose propagation goes over all
//! clauses.
//!
//! - `search`: the loop, and what is answered ([`solve`], [`Answer`])
//! - `propagation`: unit propagation, and a blocker for each clause
//!
//! It finds a model, or a log of resolution that refutes the formula, or it says that the fuel is spent; each unit of
//! fuel is one learnt clause. Sources: J. Marques-Silva, K. Sakallah, GRASP, 1999; M. Moskewicz, C. Madigan, Y. Zhao,
//! L. Zhang, S. Malik, Chaff, 2001; N. Eén, N. Sörensson, An Extensible SAT-solver (MiniSat), 2003, whose names are
//! used; the resolution traces of zChaff and TraceCheck for the log.
#![tactic(auto)]

mod propagation;
mod search;

pub use cdcl_base::Answer;
pub use search::solve;
