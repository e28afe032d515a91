//! The form of a rule and of an open claim.

ghost use Rattle.std.specs.Prelude.{◌≡◌, ◌<◌, ◌≤◌, map, length, option_map, option_and_then, IfSome, MatchOption};
ghost use Rattle.std.specs.Prelude.{None, true};
ghost use Rattle.std.specs.Prelude.{ℕ, ◌==◌, ◌&&◌, drop};
ghost use Rattle.std.specs.List.{All, list_all, position};
ghost use Rattle.std.specs.Option.{is_some};
ghost use Rattle.sexp_read.specs.Forest.{IsReading, tree_at};
ghost use Rattle.sexp_read.specs.Tree.{word_of, members_of};
ghost use Rattle.pattern_text.specs.Form.{each, is_word, number, out_at, out_of, source_of, source_in, number_in};
ghost use Rattle.pattern_text.specs.Form.{attr_count, node_of, node_from, node_in, rule_in, rule_from, rule_of};
ghost use Rattle.pattern_text.specs.Form.{word_in, open_from, open_in};
ghost use Rattle.pattern_text.specs.Small.{AreParts};

use sexp_read::{Forest, is_numeral};

/// The items of the list that an item is.
pub(crate) fn members<'a>(bytes: &[u8], forest: &'a Forest, item: usize) -> Option<&'a [usize]>
    requires reading { IsReading bytes.now forest.now }
    requires item_in { item < length forest.now.items }
    ensures trees { option_map (λ items. map (tree_at bytes.now forest.now.items) items.now) result
        ≡ members_of (tree_at bytes.now forest.now.items item) }
    ensures within { IfSome result (λ items. All (λ item. item < length forest.now.items) items.now) }
{
    forest.children(item)
}

/// Whether an item is this word.
pub(crate) fn is_word(bytes: &[u8], forest: &Forest, item: usize, word: &[u8]) -> bool
    requires reading { IsReading bytes.now forest.now }
    requires item_in { item < length forest.now.items }
    ensures { result ≡ is_word word.now (tree_at bytes.now forest.now.items item) }
{
    match forest.atom(bytes, item) {
        Some(found) => word == found,
        None => false,
    }
}

/// What follows so many elements.
pub(crate) fn after<T>(list: &[T], count: usize) -> &[T]
    requires { count ≤ length list.now }
    ensures { result.now ≡ drop count list.now }
{
    &list[count..]
}

/// Whether a word is a numeral, of any length.
fn is_number(word: &[u8]) -> bool
    ensures { result ≡ is_some (number word.now) }
{
    is_numeral(word)
}

/// The place of the first `.` of a word.
pub(crate) fn stop_in(word: &[u8]) -> Option<usize>
    ensures value { result ≡ position (λ b. b == 46) word.now }
    ensures within { IfSome result (λ stop. stop < length word.now) }
{
    word.iter().position(|byte| *byte == b'.')
}

/// Whether `J.R` stands there, parted at this place.
#[tactic(auto, using(crate::proofs::EachLemmas::out_formed))]
fn is_out_at(word: &[u8], stop: usize) -> bool
    requires { stop < length word.now }
    ensures { result ≡ is_some (out_at word.now stop) }
{
    is_number(&word[..stop]) && is_number(after(word, stop + 1))
}

/// Whether a word is `J.R`.
fn is_out(word: &[u8]) -> bool
    ensures { result ≡ is_some (out_of word.now) }
{
    match stop_in(word) {
        Some(stop) => is_out_at(word, stop),
        None => false,
    }
}

/// Whether a word is a source.
fn is_source(word: &[u8]) -> bool
    ensures { result ≡ is_some (source_of word.now) }
{
    let [first, rest @ ..] = word else {
        return false;
    };
    if *first == b'i' {
        return is_number(rest);
    }
    if *first == b'n' {
        return is_out(rest);
    }
    false
}

/// Whether an item is a source.
fn is_source_in(bytes: &[u8], forest: &Forest, item: usize) -> bool
    requires reading { IsReading bytes.now forest.now }
    requires item_in { item < length forest.now.items }
    ensures { result ≡ is_some (source_in (tree_at bytes.now forest.now.items item)) }
{
    match forest.atom(bytes, item) {
        Some(word) => is_source(word),
        None => false,
    }
}

/// Whether an item is a numeral.
fn is_number_in(bytes: &[u8], forest: &Forest, item: usize) -> bool
    requires reading { IsReading bytes.now forest.now }
    requires item_in { item < length forest.now.items }
    ensures { result ≡ is_some (number_in (tree_at bytes.now forest.now.items item)) }
{
    match forest.atom(bytes, item) {
        Some(word) => is_number(word),
        None => false,
    }
}

/// How many numerals are in front.
pub(crate) fn attr_count(bytes: &[u8], forest: &Forest, items: &[usize]) -> usize
    requires reading { IsReading bytes.now forest.now }
    requires items_in { All (λ item. item < length forest.now.items) items.now }
    ensures value { result ≡ attr_count (map (tree_at bytes.now forest.now.items) items.now) }
    ensures within { result ≤ length items.now }
{
    for place in 0..items.len() {
        if !is_number_in(bytes, forest, items[place]) {
            return place;
        }
    }
    items.len()
}

/// Whether all items are sources.
fn are_sources(bytes: &[u8], forest: &Forest, items: &[usize]) -> bool
    requires reading { IsReading bytes.now forest.now }
    requires items_in { All (λ item. item < length forest.now.items) items.now }
    ensures { result ≡ list_all (λ t. is_some (source_in t)) (map (tree_at bytes.now forest.now.items) items.now) }
{
    for item in items {
        if !is_source_in(bytes, forest, *item) {
            return false;
        }
    }
    true
}

/// Whether an item is a word.
fn is_any_word(bytes: &[u8], forest: &Forest, item: usize) -> bool
    requires reading { IsReading bytes.now forest.now }
    requires item_in { item < length forest.now.items }
    ensures { result ≡ is_some (word_of (tree_at bytes.now forest.now.items item)) }
{
    forest.atom(bytes, item).is_some()
}

/// Whether an operation's item, and what follows it, are a node.
#[tactic(auto, using(crate::proofs::EachLemmas::node_formed))]
fn is_node_of(bytes: &[u8], forest: &Forest, op: usize, rest: &[usize]) -> bool
    requires reading { IsReading bytes.now forest.now }
    requires op_in { op < length forest.now.items }
    requires rest_in { All (λ item. item < length forest.now.items) rest.now }
    ensures { result ≡ is_some (node_of (tree_at bytes.now forest.now.items op)
        (map (tree_at bytes.now forest.now.items) rest.now)) }
{
    if !is_any_word(bytes, forest, op) {
        return false;
    }
    let count = attr_count(bytes, forest, rest);
    are_sources(bytes, forest, after(rest, count))
}

/// Whether items are those of a node.
fn is_node_from(bytes: &[u8], forest: &Forest, items: &[usize]) -> bool
    requires reading { IsReading bytes.now forest.now }
    requires items_in { All (λ item. item < length forest.now.items) items.now }
    ensures { result ≡ is_some (node_from (map (tree_at bytes.now forest.now.items) items.now)) }
{
    match items {
        [] => false,
        [op, rest @ ..] => is_node_of(bytes, forest, *op, rest),
    }
}

/// Whether an item is a node.
fn is_node_in(bytes: &[u8], forest: &Forest, item: usize) -> bool
    requires reading { IsReading bytes.now forest.now }
    requires item_in { item < length forest.now.items }
    ensures { result ≡ is_some (node_in (tree_at bytes.now forest.now.items item)) }
{
    match members(bytes, forest, item) {
        Some(items) => is_node_from(bytes, forest, items),
        None => false,
    }
}

/// Whether all items are nodes.
fn are_nodes(bytes: &[u8], forest: &Forest, items: &[usize]) -> bool
    requires reading { IsReading bytes.now forest.now }
    requires items_in { All (λ item. item < length forest.now.items) items.now }
    ensures { result ≡ list_all (λ t. is_some (node_in t)) (map (tree_at bytes.now forest.now.items) items.now) }
{
    for item in items {
        if !is_node_in(bytes, forest, *item) {
            return false;
        }
    }
    true
}

/// Whether all items of two lists are of the form, those of a rule.
fn are_formed(bytes: &[u8], forest: &Forest, nodes: &[usize], results: &[usize]) -> bool
    requires reading { IsReading bytes.now forest.now }
    requires nodes_in { All (λ item. item < length forest.now.items) nodes.now }
    requires results_in { All (λ item. item < length forest.now.items) results.now }
    ensures { result ≡ (list_all (λ t. is_some (node_in t)) (map (tree_at bytes.now forest.now.items) nodes.now)
        && list_all (λ t. is_some (source_in t)) (map (tree_at bytes.now forest.now.items) results.now)) }
{
    are_nodes(bytes, forest, nodes) && are_sources(bytes, forest, results)
}

/// The items of a rule's nodes and results, by the items of both lists.
fn parts_of<'a>(
    bytes: &[u8],
    forest: &'a Forest,
    nodes: usize,
    results: usize,
) -> Option<(&'a [usize], &'a [usize])>
    requires reading { IsReading bytes.now forest.now }
    requires nodes_in { nodes < length forest.now.items }
    requires results_in { results < length forest.now.items }
    ensures value { MatchOption result
        (rule_of (tree_at bytes.now forest.now.items nodes) (tree_at bytes.now forest.now.items results) ≡ None)
        (λ parts. AreParts
        (rule_of (tree_at bytes.now forest.now.items nodes) (tree_at bytes.now forest.now.items results))
        (map (tree_at bytes.now forest.now.items) parts.0.now)
        (map (tree_at bytes.now forest.now.items) parts.1.now)) }
    ensures within { IfSome result (λ parts. All (λ item. item < length forest.now.items) parts.0.now
        × All (λ item. item < length forest.now.items) parts.1.now) }
{
    let nodes = members(bytes, forest, nodes)?;
    let results = members(bytes, forest, results)?;
    if are_formed(bytes, forest, nodes, results) {
        Some((nodes, results))
    } else {
        None
    }
}

/// The items of a rule's nodes and results, by its members.
fn parts_from<'a>(
    bytes: &[u8],
    forest: &'a Forest,
    items: &[usize],
) -> Option<(&'a [usize], &'a [usize])>
    requires reading { IsReading bytes.now forest.now }
    requires items_in { All (λ item. item < length forest.now.items) items.now }
    ensures value { MatchOption result (rule_from (map (tree_at bytes.now forest.now.items) items.now) ≡ None)
        (λ parts. AreParts (rule_from (map (tree_at bytes.now forest.now.items) items.now))
        (map (tree_at bytes.now forest.now.items) parts.0.now)
        (map (tree_at bytes.now forest.now.items) parts.1.now)) }
    ensures within { IfSome result (λ parts. All (λ item. item < length forest.now.items) parts.0.now
        × All (λ item. item < length forest.now.items) parts.1.now) }
{
    let [head, nodes, results] = items else {
        return None;
    };
    if is_word(bytes, forest, *head, b"rule".as_slice()) {
        parts_of(bytes, forest, *nodes, *results)
    } else {
        None
    }
}

/// The items of the nodes and of the results of the rule that an item is.
pub(crate) fn rule_parts<'a>(
    bytes: &[u8],
    forest: &'a Forest,
    item: usize,
) -> Option<(&'a [usize], &'a [usize])>
    requires reading { IsReading bytes.now forest.now }
    requires item_in { item < length forest.now.items }
    ensures value { MatchOption result (rule_in (tree_at bytes.now forest.now.items item) ≡ None)
        (λ parts. AreParts (rule_in (tree_at bytes.now forest.now.items item))
        (map (tree_at bytes.now forest.now.items) parts.0.now)
        (map (tree_at bytes.now forest.now.items) parts.1.now)) }
    ensures within { IfSome result (λ parts. All (λ item. item < length forest.now.items) parts.0.now
        × All (λ item. item < length forest.now.items) parts.1.now) }
{
    parts_from(bytes, forest, members(bytes, forest, item)?)
}

/// Whether all items are words.
fn are_words(bytes: &[u8], forest: &Forest, items: &[usize]) -> bool
    requires reading { IsReading bytes.now forest.now }
    requires items_in { All (λ item. item < length forest.now.items) items.now }
    ensures { result ≡ list_all (λ t. is_some (word_of t)) (map (tree_at bytes.now forest.now.items) items.now) }
{
    for item in items {
        if !is_any_word(bytes, forest, *item) {
            return false;
        }
    }
    true
}

/// The items of a list of words.
fn words_in<'a>(bytes: &[u8], forest: &'a Forest, item: usize) -> Option<&'a [usize]>
    requires reading { IsReading bytes.now forest.now }
    requires item_in { item < length forest.now.items }
    ensures value { option_map (λ items. map (tree_at bytes.now forest.now.items) items.now) result
        ≡ option_and_then (each word_in) (members_of (tree_at bytes.now forest.now.items item)) }
    ensures within { IfSome result (λ items. All (λ item. item < length forest.now.items) items.now) }
{
    let items = members(bytes, forest, item)?;
    if are_words(bytes, forest, items) {
        Some(items)
    } else {
        None
    }
}

/// The words of an open claim, by its members.
fn open_from<'a>(bytes: &[u8], forest: &'a Forest, items: &[usize]) -> Option<&'a [usize]>
    requires reading { IsReading bytes.now forest.now }
    requires items_in { All (λ item. item < length forest.now.items) items.now }
    ensures value { option_map (λ items. map (tree_at bytes.now forest.now.items) items.now) result
        ≡ open_from (map (tree_at bytes.now forest.now.items) items.now) }
    ensures within { IfSome result (λ items. All (λ item. item < length forest.now.items) items.now) }
{
    let [head, ops] = items else {
        return None;
    };
    if is_word(bytes, forest, *head, b"open".as_slice()) {
        words_in(bytes, forest, *ops)
    } else {
        None
    }
}

/// The words of the open claim that an item is.
pub(crate) fn open_in<'a>(bytes: &[u8], forest: &'a Forest, item: usize) -> Option<&'a [usize]>
    requires reading { IsReading bytes.now forest.now }
    requires item_in { item < length forest.now.items }
    ensures value { option_map (λ items. map (tree_at bytes.now forest.now.items) items.now) result
        ≡ open_in (tree_at bytes.now forest.now.items item) }
    ensures within { IfSome result (λ items. All (λ item. item < length forest.now.items) items.now) }
{
    open_from(bytes, forest, members(bytes, forest, item)?)
}
