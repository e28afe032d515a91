//! The pattern of a rule, where its numbers are small enough for a node's places.

ghost use Rattle.std.specs.Prelude.{◌≡◌, ◌<◌, ◌≤◌, map, length, option_map, option_and_then, IfOk, take, drop};
ghost use Rattle.std.specs.List.{All};
ghost use Rattle.pattern_core.specs.declared.pattern.Src.TheVariants.{Input};
ghost use Rattle.sexp_read.specs.Forest.{IsReading, tree_at};
ghost use Rattle.pattern_text.specs.Form.{each, attr_count, number, out_at, out_of, source_of, source_in};
ghost use Rattle.pattern_text.specs.Small.{small_source, small_attr_in, small_source_in};
ghost use Rattle.pattern_text.specs.Small.{small_node_of, small_node_from, small_node_in, small_pattern};
ghost use Rattle.isel_spec.specs.Spec.{file};
ghost use Rattle.pattern_text.specs.Small.{small_attr};

use crate::form::{after, attr_count, members, stop_in};
use crate::names::op_place_in;
use collections::Seq;
use isel_spec::Spec;
use pattern_core::{Node, Pattern, Src};
use sexp_read::{Forest, numeral_between};
use std::alloc::{AllocError, Global};

/// `J.R` parted at this place, with J at most 5 and R at most 2.
fn small_out_at(word: &[u8], stop: usize) -> Option<Src>
    requires { stop < length word.now }
    ensures { result ≡ option_and_then small_source (out_at word.now stop) }
{
    let node = numeral_between(0, 5, &word[..stop])?;
    let result = numeral_between(0, 2, after(word, stop + 1))?;
    Some(Src::Out {
        node: node as u8,
        result: result as u8,
    })
}

/// `J.R` with J at most 5 and R at most 2.
fn small_out(word: &[u8]) -> Option<Src>
    ensures { result ≡ option_and_then small_source (out_of word.now) }
{
    small_out_at(word, stop_in(word)?)
}

/// An input of a number that is at most 3.
fn small_input(word: &[u8]) -> Option<Src>
    ensures { result ≡ option_and_then small_source (option_map (λ k. Input k) (number word.now)) }
{
    let number = numeral_between(0, 3, word)?;
    Some(Src::Input(number as u8))
}

/// The source that a word is, where its numbers are small.
fn small_source(word: &[u8]) -> Option<Src>
    ensures { result ≡ option_and_then small_source (source_of word.now) }
{
    let [first, rest @ ..] = word else {
        return None;
    };
    if *first == b'i' {
        return small_input(rest);
    }
    if *first == b'n' {
        return small_out(rest);
    }
    None
}

/// The source that an item is, where its numbers are small.
fn small_source_in(bytes: &[u8], forest: &Forest, item: usize) -> Option<Src>
    requires reading { IsReading bytes.now forest.now }
    requires item_in { item < length forest.now.items }
    ensures { result ≡ small_source_in (tree_at bytes.now forest.now.items item) }
{
    small_source(forest.atom(bytes, item)?)
}

/// The attribute that an item is, where it is below 2^64.
fn small_attr_in(bytes: &[u8], forest: &Forest, item: usize) -> Option<u64>
    requires reading { IsReading bytes.now forest.now }
    requires item_in { item < length forest.now.items }
    ensures { result ≡ small_attr_in (tree_at bytes.now forest.now.items item) }
{
    small_number(forest.atom(bytes, item)?)
}

/// The number of a numeral, where it is below 2^64.
fn small_number(word: &[u8]) -> Option<u64>
    ensures { result ≡ option_and_then small_attr (number word.now) }
{
    numeral_between(0, u64::MAX, word)
}

/// The attributes that items are, where all are small.
fn attrs(
    alloc: Global,
    bytes: &[u8],
    forest: &Forest,
    items: &[usize],
) -> Result<Option<Vec<u64>>, AllocError>
    requires reading { IsReading bytes.now forest.now }
    requires items_in { All (λ item. item < length forest.now.items) items.now }
    ensures { IfOk result (λ found. option_map (λ attrs. attrs.items) found
        ≡ each small_attr_in (map (tree_at bytes.now forest.now.items) items.now)) }
{
    let mut attrs = Vec::new(alloc);
    for item in items {
        let Some(attr) = small_attr_in(bytes, forest, *item) else {
            return Ok(None);
        };
        attrs.push(attr)?;
    }
    Ok(Some(attrs))
}

/// The sources that items are, where all are small.
fn sources(
    alloc: Global,
    bytes: &[u8],
    forest: &Forest,
    items: &[usize],
) -> Result<Option<Vec<Src>>, AllocError>
    requires reading { IsReading bytes.now forest.now }
    requires items_in { All (λ item. item < length forest.now.items) items.now }
    ensures { IfOk result (λ found. option_map (λ sources. sources.items) found
        ≡ each small_source_in (map (tree_at bytes.now forest.now.items) items.now)) }
{
    let mut sources = Vec::new(alloc);
    for item in items {
        let Some(source) = small_source_in(bytes, forest, *item) else {
            return Ok(None);
        };
        sources.push(source)?;
    }
    Ok(Some(sources))
}

/// The numerals in front of items, and what follows them.
fn parted<'a>(bytes: &[u8], forest: &Forest, items: &'a [usize]) -> (&'a [usize], &'a [usize])
    requires reading { IsReading bytes.now forest.now }
    requires items_in { All (λ item. item < length forest.now.items) items.now }
    ensures attrs { map (tree_at bytes.now forest.now.items) result.0.now
        ≡ take (attr_count (map (tree_at bytes.now forest.now.items) items.now))
        (map (tree_at bytes.now forest.now.items) items.now) }
    ensures args { map (tree_at bytes.now forest.now.items) result.1.now
        ≡ drop (attr_count (map (tree_at bytes.now forest.now.items) items.now))
        (map (tree_at bytes.now forest.now.items) items.now) }
    ensures attrs_in { All (λ item. item < length forest.now.items) result.0.now }
    ensures args_in { All (λ item. item < length forest.now.items) result.1.now }
{
    let count = attr_count(bytes, forest, items);
    (&items[..count], after(items, count))
}

/// The node of an operation's item and what follows it.
fn node_of(
    alloc: Global,
    spec: &Spec,
    bytes: &[u8],
    forest: &Forest,
    op: usize,
    rest: &[usize],
) -> Result<Option<Node>, AllocError>
    requires reading { IsReading bytes.now forest.now }
    requires op_in { op < length forest.now.items }
    requires rest_in { All (λ item. item < length forest.now.items) rest.now }
    ensures { IfOk result (λ found. found ≡ small_node_of (file spec.now)
        (tree_at bytes.now forest.now.items op) (map (tree_at bytes.now forest.now.items) rest.now)) }
{
    let Some(op) = op_place_in(spec, bytes, forest, op) else {
        return Ok(None);
    };
    let (attr_items, arg_items) = parted(bytes, forest, rest);
    let Some(attrs) = attrs(alloc, bytes, forest, attr_items)? else {
        return Ok(None);
    };
    let Some(args) = sources(alloc, bytes, forest, arg_items)? else {
        return Ok(None);
    };
    Ok(Some(Node {
        op,
        attrs: Seq::from_vec(attrs),
        args: Seq::from_vec(args),
    }))
}

/// The node of its members.
fn node_from(
    alloc: Global,
    spec: &Spec,
    bytes: &[u8],
    forest: &Forest,
    items: &[usize],
) -> Result<Option<Node>, AllocError>
    requires reading { IsReading bytes.now forest.now }
    requires items_in { All (λ item. item < length forest.now.items) items.now }
    ensures { IfOk result (λ found. found ≡ small_node_from (file spec.now)
        (map (tree_at bytes.now forest.now.items) items.now)) }
{
    let [op, rest @ ..] = items else {
        return Ok(None);
    };
    node_of(alloc, spec, bytes, forest, *op, rest)
}

/// The node that an item is.
fn node_in(
    alloc: Global,
    spec: &Spec,
    bytes: &[u8],
    forest: &Forest,
    item: usize,
) -> Result<Option<Node>, AllocError>
    requires reading { IsReading bytes.now forest.now }
    requires item_in { item < length forest.now.items }
    ensures { IfOk result (λ found. found ≡ small_node_in (file spec.now)
        (tree_at bytes.now forest.now.items item)) }
{
    let Some(items) = members(bytes, forest, item) else {
        return Ok(None);
    };
    node_from(alloc, spec, bytes, forest, items)
}

/// The nodes that items are.
fn nodes(
    alloc: Global,
    spec: &Spec,
    bytes: &[u8],
    forest: &Forest,
    items: &[usize],
) -> Result<Option<Vec<Node>>, AllocError>
    requires reading { IsReading bytes.now forest.now }
    requires items_in { All (λ item. item < length forest.now.items) items.now }
    ensures { IfOk result (λ found. option_map (λ nodes. nodes.items) found
        ≡ each (small_node_in (file spec.now)) (map (tree_at bytes.now forest.now.items) items.now)) }
{
    let mut nodes = Vec::new(alloc);
    for item in items {
        let found = node_in(alloc, spec, bytes, forest, *item)?;
        let Some(node) = found else {
            return Ok(None);
        };
        nodes.push(node)?;
    }
    Ok(Some(nodes))
}

/// The pattern of these nodes and results.
pub(crate) fn pattern(
    alloc: Global,
    spec: &Spec,
    bytes: &[u8],
    forest: &Forest,
    node_items: &[usize],
    result_items: &[usize],
) -> Result<Option<Pattern>, AllocError>
    requires reading { IsReading bytes.now forest.now }
    requires nodes_in { All (λ item. item < length forest.now.items) node_items.now }
    requires results_in { All (λ item. item < length forest.now.items) result_items.now }
    ensures { IfOk result (λ found. found ≡ small_pattern (file spec.now)
        (map (tree_at bytes.now forest.now.items) node_items.now)
        (map (tree_at bytes.now forest.now.items) result_items.now)) }
{
    let Some(nodes) = nodes(alloc, spec, bytes, forest, node_items)? else {
        return Ok(None);
    };
    let Some(results) = sources(alloc, bytes, forest, result_items)? else {
        return Ok(None);
    };
    Ok(Some(Pattern {
        nodes: Seq::from_vec(nodes),
        results: Seq::from_vec(results),
    }))
}
