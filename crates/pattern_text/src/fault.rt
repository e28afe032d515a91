//! Why a text is no library.

ghost use Rattle.std.specs.Prelude.{◌≡◌};
ghost use Rattle.pattern_text.specs.Steps.{fault_at};
ghost use Rattle.pattern_text.specs.declared.fault.LibKind.TheVariants.{NoMemory};

use std::alloc::{AllocError, AllocFailed};

/// The first fault of a text, with its span: the bytes from `from` up to `to`, without `to`. A fault at the end of the
/// text has an empty span there.
#[derive(Clone, Copy, Debug, PartialEq, Eq)]
pub struct LibFault {
    pub kind: LibKind,
    pub from: usize,
    pub to: usize,
}

/// What is wrong there.
#[derive(Clone, Copy, Debug, PartialEq, Eq)]
pub enum LibKind {
    /// A byte that no text has.
    NotText,
    /// A list that is never closed.
    Unclosed,
    /// A `)` with no list open.
    Stray,
    /// A `(` with 256 lists open.
    Deep,
    /// The name of no goal, or of no operation.
    Unknown,
    /// An item that is not of the form, a rule that is no pattern of its goal and its size, or numbers that are no
    /// multiset.
    Shape,
    /// A rule whose nodes do not stand in the order of its walk.
    NotCanonical,
    /// A goal or a rule a second time.
    Twice,
    /// A rule too many.
    Limit,
    /// Out of memory, which has the span 0 to 0.
    NoMemory,
}

/// A fault of a kind at a span.
pub(crate) fn fault_at(kind: LibKind, span: (usize, usize)) -> LibFault
    ensures { result ≡ fault_at kind span }
{
    let (from, to) = span;
    LibFault { kind, from, to }
}

impl From<AllocError> for LibFault {
    ghost from_gives = { λ _ fault. fault ≡ fault_at NoMemory (0, 0) };

    fn from(_error: AllocError) -> LibFault {
        fault_at(LibKind::NoMemory, (0, 0))
    }
}

impl<T: Drop> From<AllocFailed<T>> for LibFault {
    ghost from_gives = { λ _ fault. fault ≡ fault_at NoMemory (0, 0) };

    fn from(_error: AllocFailed<T>) -> LibFault {
        fault_at(LibKind::NoMemory, (0, 0))
    }
}
