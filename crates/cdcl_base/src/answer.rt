//! What a solver answers.

use cnf_core::Log;
use collections::Seq;

/// What a solver found.
#[derive(Debug, Drop)]
pub enum Answer {
    /// A value for each variable; together they make every clause true.
    Model(Seq<bool>),
    /// An accepted log: there is no model.
    Refuted(Log),
    /// The fuel was spent on the chains of this log.
    Spent(Log),
}
