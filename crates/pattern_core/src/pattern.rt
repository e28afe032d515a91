//! Patterns and what is said of a goal. They are plain data: which are well-formed for a goal of a file
//! is a test of its own.

use bv_terms::Value;
use collections::Seq;
use multiset_rank::Multi;

/// Where an argument of a node or a result of a pattern comes from: an input of the goal, or a
/// result of a node. All are counted from 0.
#[derive(Clone, Copy, Debug, PartialEq, Eq)]
pub enum Src {
    Input(u8),
    Out { node: u8, result: u8 },
}

/// An operation of the file, by its place there, over attributes and arguments.
#[derive(Debug, Drop)]
pub struct Node {
    pub op: u16,
    pub attrs: Seq<u64>,
    pub args: Seq<Src>,
}

/// Nodes, each over earlier ones, and the sources of the goal's results.
#[derive(Debug, Drop)]
pub struct Pattern {
    pub nodes: Seq<Node>,
    pub results: Seq<Src>,
}

/// Inputs of a goal at which patterns are compared with it: a value for each argument. That they are of the
/// arguments' sorts is `IsExample` of `specs/Claim`.
#[derive(Debug, Drop)]
pub struct Example {
    pub inputs: Seq<Value>,
}

/// What a library says of a goal.
#[derive(Debug, Drop)]
pub enum GoalAnswer {
    /// All patterns of the least size that has one.
    Complete {
        size: u8,
        rules: Seq<Pattern>,
    },
    /// Patterns that were found, and the multisets of operations that are undecided.
    Partial {
        size: u8,
        rules: Seq<Pattern>,
        undecided: Seq<Multi>,
    },
    /// No size within the bound has a pattern.
    None,
    /// None was found, and these multisets of operations are undecided.
    Stopped {
        undecided: Seq<Multi>,
    },
}
