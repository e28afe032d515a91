//! Why a run fails before its work is done, and the line that says so.

ghost use Rattle.std.specs.Prelude.{◌≡◌, ◌≤◌, ◌++◌, ◌⊎◌, ℕ, length, codes, IfOk, Err};
ghost use Rattle.std.specs.Fmt.{decimal};
ghost use Rattle.std.specs.String.{string_bytes};
ghost use Rattle.spec_reader.specs.declared.fault.SpecKind.TheVariants.{NoMemory};
ghost use Rattle.spec_reader.specs.Outcome.{IsOutcome};
ghost use Rattle.isel_cmd.specs.Refusal.{kind_name, reason_text, most_bytes, IsReason};
ghost use Rattle.isel_cmd.specs.Status.{failure_line, failure_status, number_of};
ghost use Rattle.isel_cmd.specs.Program.{IsCauseIn};

use crate::place::{column_at, line_at};
use crate::status::Status;
use spec_reader::{SpecFault, SpecKind};
use std::alloc::{AllocError, Global};

/// Why a file is refused.
#[derive(Clone, Copy)]
pub(crate) enum Reason {
    /// It has more than 2^20 bytes.
    TooLong,
    /// Its first fault, with the line and the column of the fault's first byte, both counted from 1.
    Faulty {
        kind: SpecKind,
        line: usize,
        column: usize,
    },
    /// It has a memory, which the search does not take yet.
    MemLater,
    /// It has more than 2^20 claims: goals, each with a multiset of operations.
    TooMany,
}

/// Why no library is written.
#[derive(Clone, Copy)]
pub(crate) enum Failure {
    Refused(Reason),
    /// The file could not be read.
    ReadFault,
    NoMemory,
}

/// The name of a kind of fault.
fn kind_name(kind: SpecKind) -> &'static str
    ensures { result.now ≡ kind_name kind }
{
    match kind {
        SpecKind::NotText => "NotText",
        SpecKind::Unclosed => "Unclosed",
        SpecKind::Stray => "Stray",
        SpecKind::Deep => "Deep",
        SpecKind::Unknown => "Unknown",
        SpecKind::Literal => "Literal",
        SpecKind::Index => "Index",
        SpecKind::Arity => "Arity",
        SpecKind::Sorts => "Sorts",
        SpecKind::Width => "Width",
        SpecKind::Head => "Head",
        SpecKind::TwiceNamed => "TwiceNamed",
        SpecKind::Limit { .. } => "Limit",
        SpecKind::MemShape => "MemShape",
        SpecKind::PointerReads => "PointerReads",
        SpecKind::NoMemory => "NoMemory",
    }
}

/// The reason to refuse bytes with that first fault.
fn faulty(bytes: &[u8], fault: SpecFault) -> Reason
    requires short { length bytes.now ≤ most_bytes }
    requires first { IsOutcome bytes.now (Err fault) }
    ensures { (bound : ℕ) → IsReason bytes.now bound result }
{
    Reason::Faulty {
        kind: fault.kind,
        line: line_at(bytes, fault.from),
        column: column_at(bytes, fault.from),
    }
}

/// Why there is no file, where reading it gave that fault.
pub(crate) fn failure_of(bytes: &[u8], fault: SpecFault) -> Failure
    requires short { length bytes.now ≤ most_bytes }
    requires first { (fault.kind ≡ NoMemory) ⊎ IsOutcome bytes.now (Err fault) }
    ensures { (bound : ℕ) → IsCauseIn bytes.now bound result }
{
    match fault.kind {
        SpecKind::NoMemory => Failure::NoMemory,
        _ => Failure::Refused(faulty(bytes, fault)),
    }
}

/// The status of a failed run.
pub(crate) fn status_of(failure: Failure) -> Status
    ensures { number_of result ≡ failure_status failure }
{
    match failure {
        Failure::Refused(_) => Status::Refused,
        Failure::ReadFault => Status::ReadFailed,
        Failure::NoMemory => Status::NoMemory,
    }
}

/// What the line says of a fault of that name, in that line and column.
fn fault_text(alloc: Global, line: usize, column: usize, name: &str) -> Result<String, AllocError>
    ensures { IfOk result (λ text. string_bytes text
        ≡ codes ":" ++ decimal line ++ codes ":" ++ decimal column ++ codes ": " ++ name.now) }
{
    format!(in alloc; ":{line}:{column}: {name}")
}

/// What the line of a refused file says after the file's name.
fn reason_text(alloc: Global, reason: Reason) -> Result<String, AllocError>
    ensures { IfOk result (λ text. string_bytes text ≡ reason_text reason) }
{
    match reason {
        Reason::TooLong => String::from_str(alloc, ": TooLong"),
        Reason::Faulty { kind, line, column } => fault_text(alloc, line, column, kind_name(kind)),
        Reason::MemLater => String::from_str(alloc, ": MemLater"),
        Reason::TooMany => String::from_str(alloc, ": TooMany"),
    }
}

/// The line of a failed run.
pub(crate) fn line_of(alloc: Global, name: &str, failure: Failure) -> Result<String, AllocError>
    ensures { IfOk result (λ line. string_bytes line ≡ failure_line name.now failure) }
{
    match failure {
        Failure::Refused(reason) => {
            let text = reason_text(alloc, reason)?;
            format!(in alloc; "{name}{text}\n")
        }
        Failure::ReadFault => format!(in alloc; "{name}: ReadFault\n"),
        Failure::NoMemory => String::from_str(alloc, "memory\n"),
    }
}
