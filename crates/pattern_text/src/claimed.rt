//! What a library says of a goal.

use collections::Seq;
use multiset_rank::Multi;
use pattern_core::Pattern;

/// What is claimed: that the rules are all of this size, that they are some of them, that there are none, or that the
/// search was stopped.
#[derive(Clone, Copy, Debug, PartialEq, Eq)]
pub enum State {
    Complete(u8),
    Partial(u8),
    None,
    Stopped,
}

/// What a library says of a goal: its patterns, the multisets that are undecided, and the first byte of each rule.
#[derive(Debug, Drop)]
pub struct Claimed {
    pub goal: u32,
    pub state: State,
    pub rules: Seq<Pattern>,
    pub undecided: Seq<Multi>,
    pub places: Seq<usize>,
}
