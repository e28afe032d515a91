//! Formulas over bit-vectors as clauses whose models are the formulas' environments.
//!
//! - `blaster`: [`Blaster`], which takes one formula after the other, and [`blast`], which takes one.
//! - `formula`: [`is_formula`], whether a term can be asserted.
//! - `assertions`: a formula asserted, part by part.
//! - `parts`: the parts of an asserted formula.
//! - `nodes`: the words of terms, each found once.
//! - `word`: the circuit of an operation.
#![tactic(auto)]

mod assertions;
mod blaster;
mod formula;
mod nodes;
mod parts;
mod word;

pub use blaster::{Blasted, Blaster, blast};
pub use formula::is_formula;
