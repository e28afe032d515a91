//! Bit-vector terms: a table in which equal nodes are one, and their values.
//!
//! - `value`: [`Sort`] and [`Value`], and [`Env`], the values of a term's inputs.
//! - `op`: [`Op`], what a node does with its arguments; [`TermId`], its number; [`MakeFault`], why it is not made.
//! - `signature`: [`Signature`], what an operation takes and gives: [`Slot`], [`IndexRule`], [`ResultRule`].
//! - `node`: a node as the table looks it up.
//! - `terms`: [`Terms`], the table: making nodes, the nodes of a term's subterms, and their values.
//! - `graft`: a term of one table made in another, with other terms in place of its inputs.
//! - `eval`: one step of the evaluator.
//! - `graft`: a term of one table made in another, with terms in place of its inputs.
//! - `words`: the operators of bit-vectors, in machine words.
//!
//! The meanings are those of SMT-LIB 2.6, theories Core and FixedSizeBitVectors and the logic QF_BV. Memory has its
//! meaning in `specs/Memory`; no code here evaluates it.
#![tactic(auto)]

mod eval;
mod graft;
mod node;
mod op;
mod signature;
mod terms;
mod value;
mod words;

pub use op::{MakeFault, Op, TermId};
pub use signature::{IndexRule, ResultRule, Signature, Slot, misfit};
pub use terms::Terms;
pub use value::{Env, Sort, Value};
