//! Literals and clauses. A clause is a list that is read as a set: order and repeats say nothing.

ghost use Rattle.std.specs.Prelude.{◌≡◌, true};
ghost use Rattle.cnf_core.specs.Clause.{opposite, lit_true, clause_true, assigned, IsOver};

use collections::Seq;

/// A variable, by its number from 0, or its negation.
#[derive(Clone, Copy, Debug, PartialEq, Eq, Hash)]
pub struct Lit {
    pub variable: usize,
    pub positive: bool,
}

impl Lit {
    /// The literal of the same variable with the other sign.
    pub fn opposite(self) -> Lit
        ensures { result ≡ opposite self }
    {
        Lit {
            variable: self.variable,
            positive: !self.positive,
        }
    }
}

/// Literals, one of which is to be true. The empty clause is false under every assignment.
#[derive(Debug, Drop)]
pub struct Clause {
    pub lits: Seq<Lit>,
}
