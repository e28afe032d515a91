//! The operations and goals of a file by their names.

ghost use Rattle.std.specs.Prelude.{◌≡◌, ◌<◌, ◌≤◌, ◌&&◌, false, map, length, slice_get, option_map, IfSome, IfOk};
ghost use Rattle.std.specs.List.{All, position, position_from};
ghost use Rattle.std.specs.Option.{option_map_or};
ghost use Rattle.std.specs.Str.{bytes_eq};
ghost use Rattle.sexp_read.specs.Forest.{IsReading, tree_at};
ghost use Rattle.isel_spec.specs.Spec.{file};
ghost use Rattle.pattern_text.specs.Rules.{bytes_of, place_of, op_read, goal_read};
ghost use Rattle.pattern_text.specs.Small.{fault_of, first_fault, node_fault, nodes_fault};

use crate::fault::{LibFault, LibKind, fault_at};
use crate::form::members;
use collections::NameMap;
use isel_spec::Spec;
use sexp_read::Forest;

/// Whether this name stands at a place.
fn is_at<T>(table: &NameMap<T>, place: usize, word: &[u8]) -> bool
    ensures { result ≡ option_map_or (λ e. bytes_eq word.now e.0) (slice_get table.now place) false }
{
    match table.get(place) {
        Some((name, _)) => word == name.as_bytes(),
        None => false,
    }
}

/// The first place of a name.
fn place_in<T>(table: &NameMap<T>, word: &[u8]) -> Option<usize>
    ensures value { result ≡ position_from (bytes_eq word.now) 0 (map (λ e. e.0) table.now) }
    ensures within { IfSome result (λ place. place < length table.now) }
{
    for place in 0..table.len() {
        if is_at(table, place, word) {
            return Some(place);
        }
    }
    None
}

/// The place of the operation of a name.
fn op_place(spec: &Spec, word: &[u8]) -> Option<u16>
    ensures value { result ≡ position (bytes_eq word.now) (map (λ o. o.name) (file spec.now).ops) }
    ensures within { IfSome result (λ place. place < length spec.now.ops) }
{
    let place = place_in(&spec.ops, word)?;
    Some(place as u16)
}

/// The place of the goal of a name.
fn goal_place(spec: &Spec, word: &[u8]) -> Option<u32>
    ensures value { result ≡ position (bytes_eq word.now) (map (λ g. g.name) (file spec.now).goals) }
    ensures within { IfSome result (λ place. place < length spec.now.goals) }
{
    let place = place_in(&spec.goals, word)?;
    Some(place as u32)
}

/// The bytes of a word.
fn bytes_of<'a>(bytes: &'a [u8], forest: &Forest, item: usize) -> &'a [u8]
    requires reading { IsReading bytes.now forest.now }
    requires item_in { item < length forest.now.items }
    ensures { result.now ≡ bytes_of (tree_at bytes.now forest.now.items item) }
{
    match forest.atom(bytes, item) {
        Some(word) => word,
        None => &[],
    }
}

/// The place of the operation that an item names.
pub(crate) fn op_place_in(spec: &Spec, bytes: &[u8], forest: &Forest, item: usize) -> Option<u16>
    requires reading { IsReading bytes.now forest.now }
    requires item_in { item < length forest.now.items }
    ensures { result ≡ place_of (map (λ o. o.name) (file spec.now).ops) (tree_at bytes.now forest.now.items item) }
{
    op_place(spec, bytes_of(bytes, forest, item))
}

/// The operation that an item names.
pub(crate) fn op_read(
    spec: &Spec,
    bytes: &[u8],
    forest: &Forest,
    item: usize,
) -> Result<u16, LibFault>
    requires reading { IsReading bytes.now forest.now }
    requires item_in { item < length forest.now.items }
    ensures { result ≡ op_read (file spec.now) (tree_at bytes.now forest.now.items item) }
{
    match op_place_in(spec, bytes, forest, item) {
        Some(place) => Ok(place),
        None => Err(fault_at(LibKind::Unknown, forest.span(item))),
    }
}

/// What is wrong with an operation's name.
fn op_fault(spec: &Spec, bytes: &[u8], forest: &Forest, item: usize) -> Option<LibFault>
    requires reading { IsReading bytes.now forest.now }
    requires item_in { item < length forest.now.items }
    ensures { result ≡ fault_of (op_read (file spec.now) (tree_at bytes.now forest.now.items item)) }
{
    match op_read(spec, bytes, forest, item) {
        Ok(_) => None,
        Err(fault) => Some(fault),
    }
}

/// What is wrong with the name that stands first.
fn first_fault(spec: &Spec, bytes: &[u8], forest: &Forest, items: &[usize]) -> Option<LibFault>
    requires reading { IsReading bytes.now forest.now }
    requires items_in { All (λ item. item < length forest.now.items) items.now }
    ensures { result ≡ first_fault (file spec.now) (map (tree_at bytes.now forest.now.items) items.now) }
{
    match items {
        [] => None,
        [op, ..] => op_fault(spec, bytes, forest, *op),
    }
}

/// What is wrong with the name of a node's operation.
fn node_fault(spec: &Spec, bytes: &[u8], forest: &Forest, item: usize) -> Option<LibFault>
    requires reading { IsReading bytes.now forest.now }
    requires item_in { item < length forest.now.items }
    ensures { result ≡ node_fault (file spec.now) (tree_at bytes.now forest.now.items item) }
{
    first_fault(spec, bytes, forest, members(bytes, forest, item)?)
}

/// What is wrong with the names of nodes' operations: the first of them that is unknown.
pub(crate) fn nodes_fault(
    spec: &Spec,
    bytes: &[u8],
    forest: &Forest,
    items: &[usize],
) -> Option<LibFault>
    requires reading { IsReading bytes.now forest.now }
    requires items_in { All (λ item. item < length forest.now.items) items.now }
    ensures { result ≡ nodes_fault (file spec.now) (map (tree_at bytes.now forest.now.items) items.now) }
{
    for item in items {
        if let Some(fault) = node_fault(spec, bytes, forest, *item) {
            return Some(fault);
        }
    }
    None
}

/// The goal that an item names.
pub(crate) fn goal_read(
    spec: &Spec,
    bytes: &[u8],
    forest: &Forest,
    item: usize,
) -> Result<u32, LibFault>
    requires reading { IsReading bytes.now forest.now }
    requires item_in { item < length forest.now.items }
    ensures read { result ≡ goal_read (file spec.now) (tree_at bytes.now forest.now.items item) }
    ensures within { IfOk result (λ place. place < length spec.now.goals) }
{
    match goal_place(spec, bytes_of(bytes, forest, item)) {
        Some(place) => Ok(place),
        None => Err(fault_at(LibKind::Unknown, forest.span(item))),
    }
}
