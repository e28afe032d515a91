//! What a file says of an operation and of a goal, over one table of terms. The results are nodes of
//! that table, and their inputs are numbered as the definition's arguments are.

use bv_terms::{Sort, TermId};
use collections::Seq;

/// An IR operation: the sorts of its arguments, the widths of its attributes in bits, and its
/// results. In the terms of the results argument `k` is input `k`, and attribute `j` is the input
/// `j` after the arguments.
#[derive(Debug, Drop)]
pub struct OpDef {
    pub args: Seq<Sort>,
    pub attrs: Seq<u8>,
    pub results: Seq<TermId>,
}

/// Where a target instruction takes an argument from: a register, an immediate operand, or memory.
#[derive(Clone, Copy, Debug, PartialEq, Eq)]
pub enum Kind {
    Reg,
    Imm,
    Mem,
}

/// A target instruction: the kinds and sorts of its arguments, its results, and what it costs.
/// In the terms of the results argument `k` is input `k`.
#[derive(Debug, Drop)]
pub struct GoalDef {
    pub args: Seq<(Kind, Sort)>,
    pub results: Seq<TermId>,
    pub cost: u32,
}
