//! Circuits of gates over truth values, and the clauses by which each gate's variable has its value.
//!
//! - `signal`: [`Signal`], a truth value of a circuit: a constant or a literal.
//! - `gate`: [`Gate`], what a variable of a circuit stands for.
//! - `literals`: literals of one variable, and of several in order.
//! - `clauses`: the clauses of each gate.
//! - `circuit`: [`Circuit`], the gates so far, each there once, and their clauses.
//! - `binary`, `choices` and `adder`: the functions of truth values, with as few gates as can be.
//!
//! The clauses are those of G. S. Tseitin, On the complexity of derivation in propositional calculus, 1968.
#![tactic(auto)]

mod adder;
mod binary;
mod choices;
mod circuit;
mod clauses;
mod gate;
mod literals;
mod signal;

pub use circuit::{Blasted, Circuit};
pub use gate::Gate;
pub use signal::Signal;
