//! What became of a claim. It is plain data: which outcome is right for a claim is a definition of its own, `IsRight`.

use crate::record::Record;
use collections::Seq;
use pattern_core::Pattern;

/// Why the search for a claim's patterns ended.
#[derive(Debug, Drop)]
pub enum End {
    /// All rules were found.
    Decided,
    /// The budget was spent, on what the record tells.
    Spent(Record),
    /// The claim was passed over, since the goal has a rule of this smaller size.
    Skipped { size: u8 },
    /// Out of memory.
    NoMemory,
}

/// The rules that were found, in the order of patterns, and why the search for more ended.
#[derive(Debug, Drop)]
pub struct Outcome {
    pub found: Seq<Pattern>,
    pub end: End,
}
