//! The open claims of a library's item: multisets of operations, by name.

ghost use Rattle.std.specs.Prelude.{◌≡◌, ◌<◌, map, length};
ghost use Rattle.std.specs.List.{All};
ghost use Rattle.sexp_read.specs.Forest.{IsReading, tree_at};
ghost use Rattle.isel_spec.specs.Spec.{file};
ghost use Rattle.pattern_text.specs.declared.fault.LibKind.TheVariants.{Shape};
ghost use Rattle.pattern_text.specs.Rules.{ops_read, multi_of, open_read, opens_read};
ghost use Rattle.pattern_text.specs.Steps.{IsThat, and_then, or_fault};
ghost use Rattle.pattern_text.specs.Outcomes.{IsOutcomeOr, IsListOr};

use crate::fault::{LibFault, LibKind, fault_at};
use crate::form::open_in;
use crate::names::op_read;
use crate::rules::span_of;
use isel_spec::Spec;
use multiset_rank::Multi;
use sexp_read::Forest;
use std::alloc::Global;

/// The operations that items name, in order.
fn ops_read(
    alloc: Global,
    spec: &Spec,
    bytes: &[u8],
    forest: &Forest,
    items: &[usize],
) -> Result<Vec<u16>, LibFault>
    requires reading { IsReading bytes.now forest.now }
    requires items_in { All (λ item. item < length forest.now.items) items.now }
    ensures { IsListOr (IsThat (ops_read (file spec.now) (map (tree_at bytes.now forest.now.items) items.now))) result }
{
    let mut ops = Vec::new(alloc);
    for item in items {
        let op = match op_read(spec, bytes, forest, *item) {
            Ok(op) => op,
            Err(fault) => return Err(fault),
        };
        ops.push(op)?;
    }
    Ok(ops)
}

/// The multiset that operations are: at most six of them, and none after a greater one.
fn multi_read(span: (usize, usize), ops: &[u16]) -> Result<Multi, LibFault>
    ensures { result ≡ or_fault Shape span (multi_of ops.now) }
{
    match Multi::new(ops) {
        Some(multi) => Ok(multi),
        None => Err(fault_at(LibKind::Shape, span)),
    }
}

/// The multiset of the operations that items name.
fn words_read(
    alloc: Global,
    spec: &Spec,
    bytes: &[u8],
    forest: &Forest,
    span: (usize, usize),
    words: &[usize],
) -> Result<Multi, LibFault>
    requires reading { IsReading bytes.now forest.now }
    requires words_in { All (λ item. item < length forest.now.items) words.now }
    ensures { IsOutcomeOr (IsThat (and_then
        (ops_read (file spec.now) (map (tree_at bytes.now forest.now.items) words.now))
        (λ ops. or_fault Shape span (multi_of ops)))) result }
{
    match ops_read(alloc, spec, bytes, forest, words) {
        Ok(ops) => multi_read(span, ops.as_slice()),
        Err(fault) => Err(fault),
    }
}

/// The multiset that is open by an item.
fn open_read(
    alloc: Global,
    spec: &Spec,
    bytes: &[u8],
    forest: &Forest,
    item: usize,
) -> Result<Multi, LibFault>
    requires reading { IsReading bytes.now forest.now }
    requires item_in { item < length forest.now.items }
    ensures { IsOutcomeOr (IsThat (open_read (file spec.now) (tree_at bytes.now forest.now.items item))) result }
{
    let span = span_of(bytes, forest, item);
    match open_in(bytes, forest, item) {
        Some(words) => words_read(alloc, spec, bytes, forest, span, words),
        None => Err(fault_at(LibKind::Shape, span)),
    }
}

/// The multisets that are open by items, in order.
pub(crate) fn opens_read(
    alloc: Global,
    spec: &Spec,
    bytes: &[u8],
    forest: &Forest,
    items: &[usize],
) -> Result<Vec<Multi>, LibFault>
    requires reading { IsReading bytes.now forest.now }
    requires items_in { All (λ item. item < length forest.now.items) items.now }
    ensures { IsListOr (IsThat (opens_read (file spec.now) (map (tree_at bytes.now forest.now.items) items.now)))
        result }
{
    let mut opens = Vec::new(alloc);
    for item in items {
        let multi = match open_read(alloc, spec, bytes, forest, *item) {
            Ok(multi) => multi,
            Err(fault) => return Err(fault),
        };
        opens.push(multi)?;
    }
    Ok(opens)
}
