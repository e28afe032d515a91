//! What the variables of a circuit stand for.

use cnf_core::Lit;

/// What a variable of a circuit stands for: a bit of an input, or a function of earlier variables' literals. Equal
/// functions are equal gates: the literals of each stand by rising variables, as far as their order is free, and
/// negations that can stand at the result do.
#[derive(Clone, Copy, Debug, PartialEq, Eq, Hash)]
pub enum Gate {
    /// A bit of the input of that number, bit 0 the lowest.
    Input { number: u32, bit: u8 },
    /// Both.
    And(Lit, Lit),
    /// Exactly one of both.
    Xor(Lit, Lit),
    /// The second where the first holds, and else the third.
    Choice(Lit, Lit, Lit),
    /// At least two of three.
    Majority(Lit, Lit, Lit),
    /// One or three of three.
    Parity(Lit, Lit, Lit),
}
