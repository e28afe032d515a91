//! Truth values of a circuit.

ghost use Rattle.std.specs.Prelude.{◌≡◌, ℕ, ◌↔◌, Bool, not, if◌then◌else◌};
ghost use Rattle.circuit.specs.Signal.{signal_true, IsSignalOver};

use cnf_core::Lit;

/// A truth value of a circuit: one that is known, or that of a literal.
#[derive(Clone, Copy, Debug, PartialEq, Eq)]
pub enum Signal {
    Constant(bool),
    Literal(Lit),
}

impl Signal {
    /// The opposite truth value.
    pub fn opposite(self) -> Signal
        ensures value { (v : ℕ → Bool) → signal_true v result ≡ not (signal_true v self) }
        ensures over { (n : ℕ) → IsSignalOver n result ↔ IsSignalOver n self }
    {
        match self {
            Signal::Constant(value) => Signal::Constant(!value),
            Signal::Literal(lit) => Signal::Literal(lit.opposite()),
        }
    }

    /// The opposite where the condition holds, else the signal itself.
    pub(crate) fn inverted_if(self, condition: bool) -> Signal
        ensures value { (v : ℕ → Bool)
            → signal_true v result ≡ (if condition then not (signal_true v self) else signal_true v self) }
        ensures over { (n : ℕ) → IsSignalOver n result ↔ IsSignalOver n self }
    {
        if condition { self.opposite() } else { self }
    }
}
