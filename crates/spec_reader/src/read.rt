//! Whole files that are read.

ghost use Rattle.std.specs.Prelude.{◌≡◌, ◌<◌, Ok, Err, IfOk, MatchResult, ◌⊎◌, length, map};
ghost use Rattle.std.specs.List.{All};
ghost use Rattle.sexp_read.specs.Forest.{IsReading, tree_at};
ghost use Rattle.isel_spec.specs.File.{File};
ghost use Rattle.isel_spec.specs.Spec.{file};
ghost use Rattle.spec_reader.specs.declared.fault.SpecKind.TheVariants.{NoMemory};
ghost use Rattle.spec_reader.specs.Outcome.{IsOutcome};
ghost use Rattle.spec_reader.specs.File.{IsFile};
ghost use Rattle.spec_reader.specs.Walk.{file_read};

use crate::fault::{SpecFault, SpecKind, fault_at};
use crate::head::head_read;
use crate::items::items_read;
use crate::limits::end_fault;
use crate::text::text_fault;
use isel_spec::Spec;
use sexp_read::{Forest, read};
use std::alloc::Global;

/// The file that items are: a head, and then definitions.
fn file_read(
    alloc: Global,
    bytes: &[u8],
    forest: &Forest,
    items: &[usize],
) -> Result<Spec, SpecFault>
    requires reading { IsReading bytes.now forest.now }
    requires items_in { All (λ item. item < length forest.now.items) items.now }
    ensures { MatchResult result
        (λ spec. file_read (length bytes.now) (map (tree_at bytes.now forest.now.items) items.now) ≡ Ok (file spec))
        (λ fault. (fault.kind ≡ NoMemory)
        ⊎ (file_read (length bytes.now) (map (tree_at bytes.now forest.now.items) items.now) ≡ Err fault)) }
{
    let end = bytes.len();
    let [head, rest @ ..] = items else {
        return Err(fault_at(SpecKind::Head, (end, end)));
    };
    let pointer = match head_read(bytes, forest, *head) {
        Ok(pointer) => pointer,
        Err(fault) => return Err(fault),
    };
    let spec = match items_read(alloc, bytes, forest, rest, Spec::new(alloc, pointer)) {
        Ok(spec) => spec,
        Err(fault) => return Err(fault),
    };
    match end_fault(&spec, end) {
        Some(fault) => Err(fault),
        None => Ok(spec),
    }
}

/// What a text is.
fn outcome_of(alloc: Global, bytes: &[u8]) -> Result<Spec, SpecFault>
    ensures outcome { MatchResult result (λ spec. IsOutcome bytes.now (Ok (file spec)))
        (λ fault. (fault.kind ≡ NoMemory) ⊎ IsOutcome bytes.now (Err fault)) }
{
    match read(alloc, bytes) {
        Ok(forest) => file_read(alloc, bytes, &forest, forest.top()),
        Err(fault) => Err(text_fault(bytes, fault)),
    }
}

/// The file that bytes are, or the first fault of the walk over them: first the faults of the text's lists, then item
/// by item the form, the numbers of definitions, names, limits, terms and the rules on memory, and at the end that
/// there is an operation and a goal.
pub fn read_spec(alloc: Global, bytes: &[u8]) -> Result<Spec, SpecFault>
    // What is read is what the text is, and a fault is its first.
    ensures outcome { MatchResult result (λ spec. IsOutcome bytes.now (Ok (file spec)))
        (λ fault. (fault.kind ≡ NoMemory) ⊎ IsOutcome bytes.now (Err fault)) }

    // By the grammar: what is read is a file that the text is, and a file that the text is is read, unless memory runs
    // out. So each text is one file at most.
    ensures grammar { IfOk result (λ spec. IsFile bytes.now (file spec)) }
    ensures every_file { (f : File) → IsFile bytes.now f
        → MatchResult result (λ spec. file spec ≡ f) (λ fault. fault.kind ≡ NoMemory) }
{
    match outcome_of(alloc, bytes) {
        Ok(spec) => Ok(spec),
        Err(fault) => Err(fault),
    }
}
