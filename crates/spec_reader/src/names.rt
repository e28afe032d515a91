//! The names that a file binds: none is too long, and none stands twice.

ghost use Rattle.std.specs.Prelude.{◌≡◌, ◌<◌, ◌++◌, [], map, length, IfOk, true};
ghost use Rattle.std.specs.List.{All, list_any};
ghost use Rattle.std.specs.Str.{bytes_eq};
ghost use Rattle.sexp_read.specs.Forest.{IsReading, tree_at};
ghost use Rattle.sexp_read.specs.Words.{is_name};
ghost use Rattle.isel_spec.specs.Spec.{file};
ghost use Rattle.spec_reader.specs.Form.{Param, name_of, is_name_in};
ghost use Rattle.spec_reader.specs.Parts.{parts_by, AreWithin};
ghost use Rattle.spec_reader.specs.Walk.{long_name, twice_named, name_fault, names_fault, params_of, defined};

use crate::fault::{SpecFault, SpecKind, Which, fault_at};
use crate::form::{Param, Parts};
use crate::limits::above;
use collections::NameMap;
use isel_spec::Spec;
use sexp_read::{Forest, name};
use std::alloc::{AllocError, Global};

/// The bytes of a name.
pub(crate) fn name_of<'a>(bytes: &'a [u8], forest: &Forest, item: usize) -> &'a [u8]
    requires reading { IsReading bytes.now forest.now }
    requires item_in { item < length forest.now.items }
    ensures { result.now ≡ name_of (tree_at bytes.now forest.now.items item) }
{
    match forest.atom(bytes, item) {
        Some(word) => word,
        None => &[],
    }
}

/// A name that is too long.
fn long_name(bytes: &[u8], forest: &Forest, item: usize) -> Option<SpecFault>
    requires reading { IsReading bytes.now forest.now }
    requires item_in { item < length forest.now.items }
    ensures { result ≡ long_name (tree_at bytes.now forest.now.items item) }
{
    let name = name_of(bytes, forest, item);
    above(Which::Name, 64, name.len() as u64, forest.span(item))
}

/// Whether a name stands among earlier ones.
fn is_among(bytes: &[u8], forest: &Forest, name: &[u8], earlier: &[usize]) -> bool
    requires reading { IsReading bytes.now forest.now }
    requires earlier_in { All (λ item. item < length forest.now.items) earlier.now }
    ensures { result ≡ list_any (bytes_eq name.now)
        (map name_of (map (tree_at bytes.now forest.now.items) earlier.now)) }
{
    for item in earlier {
        if name == name_of(bytes, forest, *item) {
            return true;
        }
    }
    false
}

/// A name that stands among earlier ones.
fn twice_named(bytes: &[u8], forest: &Forest, earlier: &[usize], item: usize) -> Option<SpecFault>
    requires reading { IsReading bytes.now forest.now }
    requires earlier_in { All (λ item. item < length forest.now.items) earlier.now }
    requires item_in { item < length forest.now.items }
    ensures { result ≡ twice_named (map name_of (map (tree_at bytes.now forest.now.items) earlier.now))
        (tree_at bytes.now forest.now.items item) }
{
    if is_among(bytes, forest, name_of(bytes, forest, item), earlier) {
        Some(fault_at(SpecKind::TwiceNamed, forest.span(item)))
    } else {
        None
    }
}

/// What is wrong with a name after these.
fn name_fault(bytes: &[u8], forest: &Forest, earlier: &[usize], item: usize) -> Option<SpecFault>
    requires reading { IsReading bytes.now forest.now }
    requires earlier_in { All (λ item. item < length forest.now.items) earlier.now }
    requires item_in { item < length forest.now.items }
    ensures { result ≡ name_fault (map name_of (map (tree_at bytes.now forest.now.items) earlier.now))
        (tree_at bytes.now forest.now.items item) }
{
    if let Some(fault) = long_name(bytes, forest, item) {
        return Some(fault);
    }
    twice_named(bytes, forest, earlier, item)
}

/// The first fault of names, in order.
fn names_fault(bytes: &[u8], forest: &Forest, names: &[usize]) -> Option<SpecFault>
    requires reading { IsReading bytes.now forest.now }
    requires names_in { All (λ item. item < length forest.now.items) names.now }
    ensures { result ≡ names_fault [] (map (tree_at bytes.now forest.now.items) names.now) }
{
    for place in 0..names.len() {
        if let Some(fault) = name_fault(bytes, forest, &names[..place], names[place]) {
            return Some(fault);
        }
    }
    None
}

/// The items of the names that a definition binds, those of the arguments first.
fn bound_names(alloc: Global, args: &[Param], attrs: &[Param]) -> Result<Vec<usize>, AllocError>
    ensures { IfOk result (λ names. names.items ≡ map (λ p. p.name) args.now ++ map (λ p. p.name) attrs.now) }
{
    let mut names = Vec::new(alloc);
    for param in args {
        names.push(param.name)?;
    }
    for param in attrs {
        names.push(param.name)?;
    }
    Ok(names)
}

/// What is wrong with the names that a definition binds.
pub(crate) fn params_fault(
    alloc: Global,
    bytes: &[u8],
    forest: &Forest,
    parts: &Parts<'_>,
) -> Result<Option<SpecFault>, AllocError>
    requires reading { IsReading bytes.now forest.now }
    requires parts_in { AreWithin (length forest.now.items) parts.now }
    ensures { IfOk result (λ fault. fault ≡ names_fault [] (map (λ q. q.name)
        (params_of (parts_by (tree_at bytes.now forest.now.items) parts.now)))) }
{
    let names = bound_names(alloc, parts.args.as_slice(), parts.attrs.as_slice())?;
    Ok(names_fault(bytes, forest, names.as_slice()))
}

/// Whether a name stands in a table.
fn has_name<T>(table: &NameMap<T>, name: &str) -> bool
    ensures { result ≡ list_any (bytes_eq name.now) (map (λ e. e.0) table.now) }
{
    table.contains(name)
}

/// Whether an operation or a goal has this name.
fn is_defined(spec: &Spec, name: &str) -> bool
    ensures { result ≡ list_any (bytes_eq name.now) (defined (file spec.now)) }
{
    has_name(&spec.ops, name) || has_name(&spec.goals, name)
}

/// Whether an operation or a goal has the name that a word is.
fn is_taken(spec: &Spec, word: &[u8]) -> bool
    requires { is_name word.now ≡ true }
    ensures { result ≡ list_any (bytes_eq word.now) (defined (file spec.now)) }
{
    let name = name(word).unwrap();
    is_defined(spec, name)
}

/// What is wrong with the name of a definition, after those of the file so far.
pub(crate) fn own_name_fault(
    spec: &Spec,
    bytes: &[u8],
    forest: &Forest,
    item: usize,
) -> Option<SpecFault>
    requires reading { IsReading bytes.now forest.now }
    requires item_in { item < length forest.now.items }
    requires named { is_name_in (tree_at bytes.now forest.now.items item) ≡ true }
    ensures { result ≡ name_fault (defined (file spec.now)) (tree_at bytes.now forest.now.items item) }
{
    if let Some(fault) = long_name(bytes, forest, item) {
        return Some(fault);
    }
    if is_taken(spec, name_of(bytes, forest, item)) {
        Some(fault_at(SpecKind::TwiceNamed, forest.span(item)))
    } else {
        None
    }
}
