//! Derivations of clauses by resolution. A chain does not write its clause, which is what its steps derive.

use crate::clause::Lit;
use collections::Seq;

/// The derivation of one clause: it begins with the clause of number `first`, and each step resolves the clause so far
/// on a literal that it contains with the clause of a number, which contains the opposite literal.
#[derive(Debug, Drop)]
pub struct Chain {
    pub first: usize,
    pub steps: Seq<(Lit, usize)>,
}

/// Derivations, each over the clauses of a formula and those of the chains before it.
#[derive(Debug, Drop)]
pub struct Log {
    pub chains: Seq<Chain>,
}
