//! Why bytes are no text. Each fault is about one byte, and running out of memory is told apart.

ghost use Rattle.std.specs.Prelude.{◌≡◌};
ghost use Rattle.sexp_read.specs.declared.fault.SexpFault.TheVariants.{NoMemory};

use std::alloc::{AllocError, AllocFailed};

/// Why bytes are not a text of words and lists. Each fault names the place of a byte, counted from 0.
///
/// Of `NotText`, `Stray` and `Deep` the one at the least place is answered. `Unclosed` is answered
/// exactly where none of them stands in the bytes and a list is open at their end.
#[derive(Clone, Copy, Debug, PartialEq, Eq)]
pub enum SexpFault {
    /// A byte that is no printable ASCII character, tab, line feed or carriage return, also in a comment.
    NotText(usize),
    /// A list is open at the end: the place of the `(` of the outermost one.
    Unclosed(usize),
    /// A `)` with no list open.
    Stray(usize),
    /// A `(` with 256 lists open.
    Deep(usize),
    /// Memory ran out.
    NoMemory,
}

impl From<AllocError> for SexpFault {
    ghost from_gives = { λ _ fault. fault ≡ NoMemory };

    fn from(_error: AllocError) -> SexpFault {
        SexpFault::NoMemory
    }
}

impl<T: Drop> From<AllocFailed<T>> for SexpFault {
    ghost from_gives = { λ _ fault. fault ≡ NoMemory };

    fn from(_error: AllocFailed<T>) -> SexpFault {
        SexpFault::NoMemory
    }
}
