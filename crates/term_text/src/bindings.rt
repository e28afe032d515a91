//! The bindings of a `let`.

ghost use Rattle.std.specs.Prelude.{◌≡◌, ℕ, ◌<◌, List, None, map, length, option_map, option_and_then, unwrap_or};
ghost use Rattle.std.specs.Prelude.{IfSome, IfOk, is_some, true, Some, if◌then◌else◌, []};
ghost use Rattle.std.specs.List.{All, list_all};
ghost use Rattle.sexp_read.specs.Words.{is_name};
ghost use Rattle.sexp_read.specs.Tree.{Tree, word_of};
ghost use Rattle.sexp_read.specs.Forest.{IsReading, tree_at};
ghost use Rattle.term_text.specs.Reading.{pair_of, bound_word, word_fault, names_fault, differ, are_bindings};
ghost use Rattle.term_text.specs.Reading.{let_fault};

use crate::fault::{TermFault, TermKind, fault_at};
use collections::NameMap;
use sexp_read::{Forest, is_name, name};
use std::alloc::{AllocError, Global};

/// The two members of a list that has no other.
fn pair(forest: &Forest, item: usize) -> Option<(usize, usize)>
    requires { item < length forest.now.items }
    ensures trees { (bytes : List ℕ) → IsReading bytes forest.now →
        option_map (λ p. (tree_at bytes forest.now.items p.0, tree_at bytes forest.now.items p.1)) result
        ≡ pair_of (tree_at bytes forest.now.items item) }
    ensures later { (bytes : List ℕ) → IsReading bytes forest.now → IfSome result (λ p.
        (item < p.0) × (p.0 < length forest.now.items) × (item < p.1) × (p.1 < length forest.now.items)) }
{
    match forest.children(item)? {
        [first, second] => Some((*first, *second)),
        _ => None,
    }
}

/// The word that a binding `(NAME TERM)` binds and the item of its term.
pub(crate) fn binding<'a>(
    bytes: &'a [u8],
    forest: &Forest,
    item: usize,
) -> Option<(&'a [u8], usize)>
    requires reading { IsReading bytes.now forest.now }
    requires item_in { item < length forest.now.items }
    ensures value { option_map {U = List ℕ × Tree} (λ b. (b.0.now, tree_at bytes.now forest.now.items b.1)) result
        ≡ option_and_then (λ pair. option_map {U = List ℕ × Tree} (λ word. (word, pair.1))
        (word_of pair.0)) (pair_of (tree_at bytes.now forest.now.items item)) }
    ensures later { IfSome result (λ b. (item < b.1) × (b.1 < length forest.now.items)) }
{
    let (first, term) = pair(forest, item)?;
    let word = forest.atom(bytes, first)?;
    Some((word, term))
}

/// The word that a binding binds.
fn bound_word<'a>(bytes: &'a [u8], forest: &Forest, item: usize) -> Option<&'a [u8]>
    requires reading { IsReading bytes.now forest.now }
    requires item_in { item < length forest.now.items }
    ensures { option_map (λ word. word.now) result ≡ bound_word (tree_at bytes.now forest.now.items item) }
{
    let (first, _term) = pair(forest, item)?;
    forest.atom(bytes, first)
}

/// The word that a binding binds, where it is a name.
fn bound_name<'a>(bytes: &'a [u8], forest: &Forest, item: usize) -> Option<&'a str>
    requires reading { IsReading bytes.now forest.now }
    requires item_in { item < length forest.now.items }
    ensures { option_map (λ name. name.now) result ≡ option_and_then (λ word. if is_name word then Some word else None)
        (bound_word (tree_at bytes.now forest.now.items item)) }
{
    let word = bound_word(bytes, forest, item)?;
    name(word)
}

/// A bound word that is no name.
fn word_fault(bytes: &[u8], forest: &Forest, item: usize) -> Option<TermFault>
    requires reading { IsReading bytes.now forest.now }
    requires item_in { item < length forest.now.items }
    ensures { result ≡ word_fault (pair_of (tree_at bytes.now forest.now.items item)) }
{
    let (first, _term) = pair(forest, item)?;
    let word = forest.atom(bytes, first)?;
    if is_name(word) {
        return None;
    }
    Some(fault_at(TermKind::Unknown, forest.span(first)))
}

/// The first of them.
fn names_fault(bytes: &[u8], forest: &Forest, bindings: &[usize]) -> Option<TermFault>
    requires reading { IsReading bytes.now forest.now }
    requires bindings_in { All (λ item. item < length forest.now.items) bindings.now }
    ensures { result ≡ names_fault (map (tree_at bytes.now forest.now.items) bindings.now) }
{
    for item in bindings {
        if let Some(fault) = word_fault(bytes, forest, *item) {
            return Some(fault);
        }
    }
    None
}

/// Whether each item is of the form `(WORD TERM)`.
fn all_bind(bytes: &[u8], forest: &Forest, bindings: &[usize]) -> bool
    requires reading { IsReading bytes.now forest.now }
    requires bindings_in { All (λ item. item < length forest.now.items) bindings.now }
    ensures { result ≡ list_all (λ b. is_some (bound_word b)) (map (tree_at bytes.now forest.now.items) bindings.now) }
{
    for item in bindings {
        if bound_word(bytes, forest, *item).is_none() {
            return false;
        }
    }
    true
}

/// Whether no two of the bound names are equal.
fn names_differ(
    alloc: Global,
    bytes: &[u8],
    forest: &Forest,
    bindings: &[usize],
) -> Result<bool, AllocError>
    requires reading { IsReading bytes.now forest.now }
    requires bindings_in { All (λ item. item < length forest.now.items) bindings.now }
    requires shaped { list_all (λ b. is_some (bound_word b)) (map (tree_at bytes.now forest.now.items) bindings.now)
        ≡ true }
    requires named { names_fault (map (tree_at bytes.now forest.now.items) bindings.now) ≡ None }
    ensures { IfOk result (λ differs. differs
        ≡ differ (map (λ b. unwrap_or (bound_word b) []) (map (tree_at bytes.now forest.now.items) bindings.now))) }
{
    let mut seen = NameMap::new(alloc);
    for item in bindings {
        let name = bound_name(bytes, forest, *item).unwrap();
        if seen.contains(name) {
            return Ok(false);
        }
        seen.insert(String::from_str(alloc, name)?, ())?;
    }
    Ok(true)
}

/// What is wrong with the bindings of a `let` of this span, apart from their terms.
pub(crate) fn let_fault(
    alloc: Global,
    bytes: &[u8],
    forest: &Forest,
    span: (usize, usize),
    bindings: &[usize],
) -> Result<Option<TermFault>, AllocError>
    requires reading { IsReading bytes.now forest.now }
    requires bindings_in { All (λ item. item < length forest.now.items) bindings.now }
    ensures { IfOk result (λ fault. fault ≡ let_fault span (map (tree_at bytes.now forest.now.items) bindings.now)) }
{
    if bindings.is_empty() {
        return Ok(Some(fault_at(TermKind::Arity, span)));
    }
    if !all_bind(bytes, forest, bindings) {
        return Ok(Some(fault_at(TermKind::Arity, span)));
    }
    if let Some(fault) = names_fault(bytes, forest, bindings) {
        return Ok(Some(fault));
    }
    if names_differ(alloc, bytes, forest, bindings)? {
        Ok(None)
    } else {
        Ok(Some(fault_at(TermKind::Arity, span)))
    }
}
