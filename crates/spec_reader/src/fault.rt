//! Why a text is no file.

ghost use Rattle.std.specs.Prelude.{◌≡◌};
ghost use Rattle.spec_reader.specs.Walk.{fault_at};
ghost use Rattle.spec_reader.specs.declared.fault.SpecKind.TheVariants.{NoMemory};

use std::alloc::{AllocError, AllocFailed};

/// The first fault of a text, with its span: the bytes from `from` up to `to`, without `to`. A fault at the end of the
/// text has an empty span there.
#[derive(Clone, Copy, Debug, PartialEq, Eq)]
pub struct SpecFault {
    pub kind: SpecKind,
    pub from: usize,
    pub to: usize,
}

/// What is wrong there.
#[derive(Clone, Copy, Debug, PartialEq, Eq)]
pub enum SpecKind {
    /// A byte that no text has.
    NotText,
    /// A list that is never closed.
    Unclosed,
    /// A `)` with no list open.
    Stray,
    /// A `(` with 256 lists open.
    Deep,
    /// A word of a term that is nothing in scope, or a head that is no operator.
    Unknown,
    /// A constant that is none.
    Literal,
    /// Numbers of an operator that do not fit.
    Index,
    /// A wrong number of arguments.
    Arity,
    /// An argument whose sort does not fit.
    Sorts,
    /// A term wider than 64 bits.
    Width,
    /// An item that is not of the form.
    Head,
    /// A name a second time.
    TwiceNamed,
    /// More than there may be, or less: how many of what were met, at most 2^64 - 1.
    Limit { which: Which, found: u64 },
    /// The memories of a definition are no one chain on which each load is marked.
    MemShape,
    /// A pointer of a goal depends on what is loaded.
    PointerReads,
    /// Out of memory, which has the span 0 to 0.
    NoMemory,
}

/// What a limit is on.
#[derive(Clone, Copy, Debug, PartialEq, Eq)]
pub enum Which {
    Ops,
    Goals,
    Args,
    Attrs,
    Results,
    /// The different subterms of a definition.
    Nodes,
    /// The bytes of a name.
    Name,
    Cost,
    /// The width of a pointer.
    Pointer,
    /// The accessed bytes of a goal.
    Bytes,
}

/// A fault of a kind at a span.
pub(crate) fn fault_at(kind: SpecKind, span: (usize, usize)) -> SpecFault
    ensures { result ≡ fault_at kind span }
{
    let (from, to) = span;
    SpecFault { kind, from, to }
}

impl From<AllocError> for SpecFault {
    ghost from_gives = { λ _ fault. fault ≡ fault_at NoMemory (0, 0) };

    fn from(_error: AllocError) -> SpecFault {
        fault_at(SpecKind::NoMemory, (0, 0))
    }
}

impl<T: Drop> From<AllocFailed<T>> for SpecFault {
    ghost from_gives = { λ _ fault. fault ≡ fault_at NoMemory (0, 0) };

    fn from(_error: AllocFailed<T>) -> SpecFault {
        fault_at(SpecKind::NoMemory, (0, 0))
    }
}
