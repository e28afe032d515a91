//! Whether formulas over bit-vectors have values of their inputs that make them true.
//!
//! - `session`: [`Session`], which takes formulas one after the other and is asked between them, and [`decide`], which
//!   takes one.
//! - `decision`: [`Decision`], the answer: values, a refutation, or that the fuel is spent.
//! - `refutation`: [`Refutation`], clauses with a log that the checker accepted.
//! - `inputs`: the inputs in terms, and [`have_one_sort`], whether each has one sort.
//! - `values`: the inputs' values that a model of the clauses gives.
//! - `copies`: copies of clauses.
//!
//! Formulas become clauses by `bit_blast`, a solver finds a model or a log, and `proof_check` checks each log.
#![tactic(auto)]

mod copies;
mod decision;
mod inputs;
mod refutation;
mod session;
mod values;

pub use decision::Decision;
pub use inputs::have_one_sort;
pub use refutation::Refutation;
pub use session::{Session, decide};
