//! What a file says: the meanings of IR operations and of target instructions (goals).
//!
//! `definitions` has `OpDef`, `GoalDef` and `Kind`, what a file says of an operation and of a goal;
//! `spec` has `Spec`, the whole file over one table of terms, which `Spec::new`, `add_op` and `add_goal`
//! build. What a file says as trees, and when it is sound, stands in `specs/File` and, for memory, in
//! `specs/Memory`. Which bytes are which file stands with the reader of files.
#![tactic(auto)]

mod definitions;
mod spec;

pub use definitions::{GoalDef, Kind, OpDef};
pub use spec::Spec;
