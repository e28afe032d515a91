//! The answer to the question whether a pattern is a rule of its goal.

use bit_blast::Blasted;
use cnf_core::Log;
use collections::Seq;
use pattern_core::Example;

/// A call of the solver that found no answer: its clauses, and those that it learnt, each as a chain of resolutions.
#[derive(Debug, Drop)]
pub struct Tried {
    pub blasted: Blasted,
    pub log: Log,
}

/// Whether a pattern is a rule of its goal.
#[derive(Debug, Drop)]
pub enum Confirm {
    /// It gives the goal's results on all inputs.
    Rule,
    /// It differs from the goal at these inputs.
    Differs(Example),
    /// No fuel is left: the call on which it was spent.
    Spent(Seq<Tried>),
}
