//! The reader of a library.

ghost use Rattle.std.specs.Prelude.{◌≡◌, ◌<◌, Ok, Err, MatchResult, ◌⊎◌, Result, List, ℕ, length, map};
ghost use Rattle.std.specs.List.{All};
ghost use Rattle.sexp_read.specs.Forest.{IsReading, tree_at};
ghost use Rattle.isel_spec.specs.File.{File};
ghost use Rattle.isel_spec.specs.Spec.{file};
ghost use Rattle.pattern_text.specs.declared.claimed.Claimed.{Claimed};
ghost use Rattle.pattern_text.specs.declared.fault.LibFault.{LibFault};
ghost use Rattle.pattern_text.specs.declared.fault.LibKind.TheVariants.{NoMemory};
ghost use Rattle.pattern_text.specs.Outcome.{IsOutcome};
ghost use Rattle.pattern_text.specs.Outcomes.{IsListOr};
ghost use Rattle.pattern_text.specs.Reading.{IsLibrary};

use crate::claimed::Claimed;
use crate::claims::claims;
use crate::fault::{LibFault, LibKind, fault_at};
use crate::items::is_head;
use crate::rules::span_of;
use crate::text::text_fault;
use isel_spec::Spec;
use sexp_read::{Forest, read};
use std::alloc::Global;

/// What items claim of a file's goals: a head, and then the claims.
fn library_read(
    alloc: Global,
    spec: &Spec,
    bytes: &[u8],
    forest: &Forest,
    items: &[usize],
) -> Result<Vec<Claimed>, LibFault>
    requires reading { IsReading bytes.now forest.now }
    requires items_in { All (λ item. item < length forest.now.items) items.now }
    ensures { IsListOr (IsLibrary (file spec.now) (length bytes.now)
        (map (tree_at bytes.now forest.now.items) items.now)) result }
{
    let end = bytes.len();
    let [head, rest @ ..] = items else {
        return Err(fault_at(LibKind::Shape, (end, end)));
    };
    if !is_head(bytes, forest, *head) {
        return Err(fault_at(LibKind::Shape, span_of(bytes, forest, *head)));
    }
    claims(alloc, spec, bytes, forest, rest)
}

/// What the library that bytes are says of a file's goals, or the first fault of the walk over them: first the faults
/// of the text's lists, then item by item its form, its goal, its rules and its open claims.
pub fn read_library(alloc: Global, spec: &Spec, bytes: &[u8]) -> Result<Vec<Claimed>, LibFault>
    // What is read is what the text is, and a fault is its first.
    ensures outcome { MatchResult result (λ claims. IsOutcome (file spec.now) bytes.now (Ok claims.items))
        (λ fault. (fault.kind ≡ NoMemory) ⊎ IsOutcome (file spec.now) bytes.now (Err fault)) }
{
    match read(alloc, bytes) {
        Ok(forest) => library_read(alloc, spec, bytes, &forest, forest.top()),
        Err(fault) => Err(text_fault(bytes, fault)),
    }
}

/// A text is one library at most, or has one first fault.
pub fn one_outcome()
    ensures { (f : File) (bytes : List ℕ) (some other : Result (List Claimed) LibFault) →
        IsOutcome f bytes some → IsOutcome f bytes other → some ≡ other }
{}
