//! What became of a claim, that is, of a goal with a multiset of operations: the patterns that were found, and why the
//! search for them ended.
//!
//! - `outcome`: `Outcome` and `End`
//! - `record`: `Record`, what an undecided claim's budget was spent on, and `units`, how much that is
#![tactic(auto)]

mod outcome;
mod record;

pub use outcome::{End, Outcome};
pub use record::{Asked, Question, Record, units};
