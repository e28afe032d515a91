//! Literals in 32 bits, as the arrays of a solver hold them.

ghost use Rattle.std.specs.Prelude.{◌≡◌, ◌^◌, ◌<◌, true};
ghost use Rattle.cnf_core.specs.Clause.{opposite, same_lit};
ghost use Rattle.cdcl_base.specs.Codes.{code};

use cnf_core::Lit;
use std::marker::Model;

/// A literal of one of the first 2^31 variables. Contracts see it as that literal.
#[derive(Clone, Copy)]
pub struct PackedLit {
    /// Twice the variable, and one more where the literal is positive.
    number: u32,
}

impl Model for PackedLit {
    ghost use Rattle.cnf_core.specs.declared.clause.Lit.{Lit};
    ghost use Rattle.cdcl_base.specs.Codes.{code, lit_of, code-lit_of};

    ghost Value = { Lit };

    ghost view = { λ p. lit_of p.number };

    ghost inverse = { λ l. record { number = code l } };

    ghost inverse_ok = { λ p h i. record { number = code-lit_of p.number i } };
}

impl PackedLit {
    /// The packed form of a literal.
    pub fn new(lit: Lit) -> PackedLit
        requires { lit.variable < 2 ^ 31 }
        ensures { result ≡ lit }
    {
        let sign = if lit.positive { 1 } else { 0 };
        PackedLit {
            number: 2 * lit.variable as u32 + sign,
        }
    }

    /// The literal.
    pub fn lit(self) -> Lit
        ensures { result ≡ self }
    {
        Lit {
            variable: self.variable(),
            positive: self.is_positive(),
        }
    }

    /// Its variable.
    pub fn variable(self) -> usize
        ensures variable { result ≡ self.variable }
        ensures small { result < 2 ^ 31 }
    {
        (self.number / 2) as usize
    }

    /// Whether it is the variable itself, and not its negation.
    pub fn is_positive(self) -> bool
        ensures { result ≡ self.positive }
    {
        self.number % 2 == 1
    }

    /// The literal of the same variable with the other sign.
    pub fn opposite(self) -> PackedLit
        ensures { result ≡ opposite self }
    {
        PackedLit {
            number: self.number ^ 1,
        }
    }

    /// A number for each literal: those of a variable follow each other, the negative one first.
    pub fn code(self) -> usize
        ensures code { result ≡ code self }
        ensures small { self.variable < 2 ^ 31 }
    {
        self.number as usize
    }
}

impl PartialEq for PackedLit {
    ghost use Rattle.cnf_core.specs.Clause.{same_lit};
    ghost use Rattle.cdcl_base.specs.Codes.{same_lit-laws};

    ghost eq = { λ x y. same_lit x y };

    ghost laws = { same_lit-laws };

    /// Whether both are the same literal.
    fn eq(&self, other: &PackedLit) -> bool {
        self.number == other.number
    }
}
