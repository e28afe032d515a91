//! Which line is not of the form, and why. Running out of memory is told apart.

ghost use Rattle.std.specs.Prelude.{◌≡◌};
ghost use Rattle.dimacs.specs.declared.error.ParseError.TheVariants.{NoMemory};

use std::alloc::{AllocError, AllocFailed};
use std::error::Error;
use std::fmt;

/// What is wrong with a line.
#[derive(Clone, Copy, Debug, PartialEq, Eq)]
pub enum Fault {
    /// A clause, a chain or the end of the text, with no head before it.
    NoHead,
    /// A second head.
    LateHead,
    /// A head that is not `p cnf VARIABLES CLAUSES` with at most 2^40 variables.
    BadHead,
    /// A clause after a chain.
    LateClause,
    /// A clause that is not literals of the formula's variables and one 0 at its end.
    BadClause,
    /// A chain that is not the number of a clause and pairs of a literal of the formula's variables and such a number.
    BadChain,
    /// The end of the text, with another number of clauses before it than the head says.
    WrongCount,
}

impl Fault {
    fn message(self) -> &'static str {
        match self {
            Fault::NoHead => "no head before it",
            Fault::LateHead => "a second head",
            Fault::BadHead => "not a head",
            Fault::LateClause => "a clause after a chain",
            Fault::BadClause => "not a clause",
            Fault::BadChain => "not a chain",
            Fault::WrongCount => "not as many clauses as the head says",
        }
    }
}

/// Why bytes are no input: the first line that is not of the form, or running out of memory.
#[derive(Clone, Copy, Debug, PartialEq, Eq)]
pub enum ParseError {
    /// A line by its number, from 1, and what is wrong with it. A fault of the end is one of the last line.
    Line(usize, Fault),
    /// Memory ran out.
    NoMemory,
}

impl fmt::Display for ParseError {
    fn fmt<W: fmt::Write>(&self, f: &mut fmt::Formatter<W>) -> fmt::Result {
        match self {
            ParseError::Line(line, fault) => write!(f, "line {line}: {}", fault.message()),
            ParseError::NoMemory => write!(f, "out of memory"),
        }
    }
}

impl Error for ParseError {}

impl From<AllocError> for ParseError {
    ghost from_gives = { λ _ error. error ≡ NoMemory };

    fn from(_error: AllocError) -> ParseError {
        ParseError::NoMemory
    }
}

impl<T: Drop> From<AllocFailed<T>> for ParseError {
    ghost from_gives = { λ _ error. error ≡ NoMemory };

    fn from(_error: AllocFailed<T>) -> ParseError {
        ParseError::NoMemory
    }
}
