//! Why a text is no term.

ghost use Rattle.std.specs.Prelude.{◌≡◌};
ghost use Rattle.term_text.specs.Head.{fault_at};
ghost use Rattle.term_text.specs.declared.fault.TermKind.TheVariants.{NoMemory};

use std::alloc::{AllocError, AllocFailed};

/// The first fault of a text, with its span: the bytes from `from` up to `to`, without `to`.
#[derive(Clone, Copy, Debug, PartialEq, Eq)]
pub struct TermFault {
    pub kind: TermKind,
    pub from: usize,
    pub to: usize,
}

/// What is wrong there.
#[derive(Clone, Copy, Debug, PartialEq, Eq)]
pub enum TermKind {
    /// A word that is nothing in scope, or a head that is no operator.
    Unknown,
    /// A constant that is none, or one wider than 64 bits.
    Literal,
    /// Numbers of an operator that are none, too many or too few, or that do not fit.
    Index,
    /// A wrong number of arguments, or a `let` that is not of its form.
    Arity,
    /// The first argument whose sort does not fit.
    Sorts,
    /// A result wider than 64 bits.
    Width,
    /// Out of memory, which has the span 0 to 0.
    NoMemory,
}

/// A fault of a kind at a span.
pub(crate) fn fault_at(kind: TermKind, span: (usize, usize)) -> TermFault
    ensures { result ≡ fault_at kind span }
{
    let (from, to) = span;
    TermFault { kind, from, to }
}

impl From<AllocError> for TermFault {
    ghost from_gives = { λ _ fault. fault ≡ fault_at NoMemory (0, 0) };

    fn from(_error: AllocError) -> TermFault {
        fault_at(TermKind::NoMemory, (0, 0))
    }
}

impl<T: Drop> From<AllocFailed<T>> for TermFault {
    ghost from_gives = { λ _ fault. fault ≡ fault_at NoMemory (0, 0) };

    fn from(_error: AllocFailed<T>) -> TermFault {
        fault_at(TermKind::NoMemory, (0, 0))
    }
}
