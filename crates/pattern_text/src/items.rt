//! The form of a library's items: what a claim consists of, before its rules and its open claims are looked at.

ghost use Rattle.std.specs.Prelude.{◌≡◌, ◌<◌, ◌≤◌, map, length, option_map, option_and_then, IfSome, ℕ};
ghost use Rattle.std.specs.List.{All, list_all, prefix_len};
ghost use Rattle.sexp_read.specs.Forest.{IsReading, tree_at};
ghost use Rattle.sexp_read.specs.Tree.{Tree, word_of};
ghost use Rattle.pattern_text.specs.Items.{begins, is_rule, is_open, size_in, complete_of, partial_of, sized, none_of};
ghost use Rattle.pattern_text.specs.Items.{stopped_of, claim_by, is_name_in, state_from, name_from, claim_from};
ghost use Rattle.pattern_text.specs.Items.{claim_in};
ghost use Rattle.pattern_text.specs.Items.{is_headed, is_head, is_head_of, is_head_from};
ghost use Rattle.pattern_text.specs.Small.{claim_view, IsWithin};

use crate::claimed::State;
use crate::form::{after, is_word, members};
use sexp_read::{Forest, is_name, numeral_between};

/// What an item says of a goal: the items of its name, its rules and its open claims.
#[derive(Clone, Copy)]
pub(crate) struct ClaimForm<'a> {
    pub(crate) name: usize,
    pub(crate) state: State,
    pub(crate) rules: &'a [usize],
    pub(crate) opens: &'a [usize],
}

/// Whether the first of the items is this word.
fn begins(bytes: &[u8], forest: &Forest, items: &[usize], word: &[u8]) -> bool
    requires reading { IsReading bytes.now forest.now }
    requires items_in { All (λ item. item < length forest.now.items) items.now }
    ensures { result ≡ begins word.now (map (tree_at bytes.now forest.now.items) items.now) }
{
    match items {
        [] => false,
        [first, ..] => is_word(bytes, forest, *first, word),
    }
}

/// Whether an item is a list that begins with this word.
fn is_headed(bytes: &[u8], forest: &Forest, item: usize, word: &[u8]) -> bool
    requires reading { IsReading bytes.now forest.now }
    requires item_in { item < length forest.now.items }
    ensures { result ≡ is_headed word.now (tree_at bytes.now forest.now.items item) }
{
    match members(bytes, forest, item) {
        Some(items) => begins(bytes, forest, items, word),
        None => false,
    }
}

fn is_rule(bytes: &[u8], forest: &Forest, item: usize) -> bool
    requires reading { IsReading bytes.now forest.now }
    requires item_in { item < length forest.now.items }
    ensures { result ≡ is_rule (tree_at bytes.now forest.now.items item) }
{
    is_headed(bytes, forest, item, b"rule".as_slice())
}

fn is_open(bytes: &[u8], forest: &Forest, item: usize) -> bool
    requires reading { IsReading bytes.now forest.now }
    requires item_in { item < length forest.now.items }
    ensures { result ≡ is_open (tree_at bytes.now forest.now.items item) }
{
    is_headed(bytes, forest, item, b"open".as_slice())
}

/// How many rules are in front.
fn rule_count(bytes: &[u8], forest: &Forest, items: &[usize]) -> usize
    requires reading { IsReading bytes.now forest.now }
    requires items_in { All (λ item. item < length forest.now.items) items.now }
    ensures value { result ≡ prefix_len is_rule (map (tree_at bytes.now forest.now.items) items.now) }
    ensures within { result ≤ length items.now }
{
    for place in 0..items.len() {
        if !is_rule(bytes, forest, items[place]) {
            return place;
        }
    }
    items.len()
}

/// Whether all items are rules.
fn are_rules(bytes: &[u8], forest: &Forest, items: &[usize]) -> bool
    requires reading { IsReading bytes.now forest.now }
    requires items_in { All (λ item. item < length forest.now.items) items.now }
    ensures { result ≡ list_all is_rule (map (tree_at bytes.now forest.now.items) items.now) }
{
    for item in items {
        if !is_rule(bytes, forest, *item) {
            return false;
        }
    }
    true
}

/// Whether all items are open claims.
fn are_opens(bytes: &[u8], forest: &Forest, items: &[usize]) -> bool
    requires reading { IsReading bytes.now forest.now }
    requires items_in { All (λ item. item < length forest.now.items) items.now }
    ensures { result ≡ list_all is_open (map (tree_at bytes.now forest.now.items) items.now) }
{
    for item in items {
        if !is_open(bytes, forest, *item) {
            return false;
        }
    }
    true
}

/// The size that an item is.
fn size_in(bytes: &[u8], forest: &Forest, item: usize) -> Option<u8>
    requires reading { IsReading bytes.now forest.now }
    requires item_in { item < length forest.now.items }
    ensures { result ≡ size_in (tree_at bytes.now forest.now.items item) }
{
    let size = numeral_between(0, 6, forest.atom(bytes, item)?)?;
    Some(size as u8)
}

/// All rules of a size.
fn complete_of<'a>(
    bytes: &[u8],
    forest: &Forest,
    name: usize,
    size: u8,
    rules: &'a [usize],
) -> Option<ClaimForm<'a>>
    requires reading { IsReading bytes.now forest.now }
    requires name_in { name < length forest.now.items }
    requires rules_in { All (λ item. item < length forest.now.items) rules.now }
    ensures value { option_map (claim_view (tree_at bytes.now forest.now.items)) result
        ≡ complete_of (tree_at bytes.now forest.now.items name) size
        (map (tree_at bytes.now forest.now.items) rules.now) }
    ensures within { IfSome result (IsWithin (length forest.now.items)) }
{
    if are_rules(bytes, forest, rules) {
        Some(ClaimForm {
            name,
            state: State::Complete(size),
            rules,
            opens: &[],
        })
    } else {
        None
    }
}

/// Some rules of a size, and open claims.
fn partial_of<'a>(
    bytes: &[u8],
    forest: &Forest,
    name: usize,
    size: u8,
    rest: &'a [usize],
) -> Option<ClaimForm<'a>>
    requires reading { IsReading bytes.now forest.now }
    requires name_in { name < length forest.now.items }
    requires rest_in { All (λ item. item < length forest.now.items) rest.now }
    ensures value { option_map (claim_view (tree_at bytes.now forest.now.items)) result
        ≡ partial_of (tree_at bytes.now forest.now.items name) size
        (map (tree_at bytes.now forest.now.items) rest.now) }
    ensures within { IfSome result (IsWithin (length forest.now.items)) }
{
    let count = rule_count(bytes, forest, rest);
    let opens = after(rest, count);
    if are_opens(bytes, forest, opens) {
        Some(ClaimForm {
            name,
            state: State::Partial(size),
            rules: &rest[..count],
            opens,
        })
    } else {
        None
    }
}

/// No rule.
fn none_of<'a>(name: usize, rest: &'a [usize]) -> Option<ClaimForm<'a>>
    ensures value { (tree : ℕ → Tree) → option_map (claim_view tree) result
        ≡ none_of (tree name) (map tree rest.now) }
    ensures within { (size : ℕ) → name < size → IfSome result (IsWithin size) }
{
    match rest {
        [] => Some(ClaimForm {
            name,
            state: State::None,
            rules: &[],
            opens: &[],
        }),
        [_, ..] => None,
    }
}

/// Open claims alone.
fn stopped_of<'a>(
    bytes: &[u8],
    forest: &Forest,
    name: usize,
    opens: &'a [usize],
) -> Option<ClaimForm<'a>>
    requires reading { IsReading bytes.now forest.now }
    requires name_in { name < length forest.now.items }
    requires opens_in { All (λ item. item < length forest.now.items) opens.now }
    ensures value { option_map (claim_view (tree_at bytes.now forest.now.items)) result
        ≡ stopped_of (tree_at bytes.now forest.now.items name) (map (tree_at bytes.now forest.now.items) opens.now) }
    ensures within { IfSome result (IsWithin (length forest.now.items)) }
{
    if are_opens(bytes, forest, opens) {
        Some(ClaimForm {
            name,
            state: State::Stopped,
            rules: &[],
            opens,
        })
    } else {
        None
    }
}

/// All rules of a size, by what follows `complete`.
fn complete_from<'a>(
    bytes: &[u8],
    forest: &Forest,
    name: usize,
    items: &'a [usize],
) -> Option<ClaimForm<'a>>
    requires reading { IsReading bytes.now forest.now }
    requires name_in { name < length forest.now.items }
    requires items_in { All (λ item. item < length forest.now.items) items.now }
    ensures value { option_map (claim_view (tree_at bytes.now forest.now.items)) result
        ≡ sized (complete_of (tree_at bytes.now forest.now.items name))
        (map (tree_at bytes.now forest.now.items) items.now) }
    ensures within { IfSome result (IsWithin (length forest.now.items)) }
{
    let [size, rest @ ..] = items else {
        return None;
    };
    complete_of(bytes, forest, name, size_in(bytes, forest, *size)?, rest)
}

/// Some rules of a size, by what follows `partial`.
fn partial_from<'a>(
    bytes: &[u8],
    forest: &Forest,
    name: usize,
    items: &'a [usize],
) -> Option<ClaimForm<'a>>
    requires reading { IsReading bytes.now forest.now }
    requires name_in { name < length forest.now.items }
    requires items_in { All (λ item. item < length forest.now.items) items.now }
    ensures value { option_map (claim_view (tree_at bytes.now forest.now.items)) result
        ≡ sized (partial_of (tree_at bytes.now forest.now.items name))
        (map (tree_at bytes.now forest.now.items) items.now) }
    ensures within { IfSome result (IsWithin (length forest.now.items)) }
{
    let [size, rest @ ..] = items else {
        return None;
    };
    partial_of(bytes, forest, name, size_in(bytes, forest, *size)?, rest)
}

/// What is claimed, by the word after the name.
fn claim_by<'a>(
    bytes: &[u8],
    forest: &Forest,
    name: usize,
    word: &[u8],
    rest: &'a [usize],
) -> Option<ClaimForm<'a>>
    requires reading { IsReading bytes.now forest.now }
    requires name_in { name < length forest.now.items }
    requires rest_in { All (λ item. item < length forest.now.items) rest.now }
    ensures value { option_map (claim_view (tree_at bytes.now forest.now.items)) result
        ≡ claim_by (tree_at bytes.now forest.now.items name) word.now
        (map (tree_at bytes.now forest.now.items) rest.now) }
    ensures within { IfSome result (IsWithin (length forest.now.items)) }
{
    if word == b"complete".as_slice() {
        return complete_from(bytes, forest, name, rest);
    }
    if word == b"partial".as_slice() {
        return partial_from(bytes, forest, name, rest);
    }
    if word == b"none".as_slice() {
        return none_of(name, rest);
    }
    if word == b"stopped".as_slice() {
        return stopped_of(bytes, forest, name, rest);
    }
    None
}

/// Whether an item is a name.
fn is_name_in(bytes: &[u8], forest: &Forest, item: usize) -> bool
    requires reading { IsReading bytes.now forest.now }
    requires item_in { item < length forest.now.items }
    ensures { result ≡ is_name_in (tree_at bytes.now forest.now.items item) }
{
    match forest.atom(bytes, item) {
        Some(word) => is_name(word),
        None => false,
    }
}

/// What is claimed, by the word after the name and what follows.
fn state_from<'a>(
    bytes: &[u8],
    forest: &Forest,
    name: usize,
    items: &'a [usize],
) -> Option<ClaimForm<'a>>
    requires reading { IsReading bytes.now forest.now }
    requires name_in { name < length forest.now.items }
    requires items_in { All (λ item. item < length forest.now.items) items.now }
    ensures value { option_map (claim_view (tree_at bytes.now forest.now.items)) result
        ≡ state_from (tree_at bytes.now forest.now.items name) (map (tree_at bytes.now forest.now.items) items.now) }
    ensures within { IfSome result (IsWithin (length forest.now.items)) }
{
    let [word, rest @ ..] = items else {
        return None;
    };
    claim_by(bytes, forest, name, forest.atom(bytes, *word)?, rest)
}

/// What is claimed, by the name and what follows.
fn name_from<'a>(bytes: &[u8], forest: &Forest, items: &'a [usize]) -> Option<ClaimForm<'a>>
    requires reading { IsReading bytes.now forest.now }
    requires items_in { All (λ item. item < length forest.now.items) items.now }
    ensures value { option_map (claim_view (tree_at bytes.now forest.now.items)) result
        ≡ name_from (map (tree_at bytes.now forest.now.items) items.now) }
    ensures within { IfSome result (IsWithin (length forest.now.items)) }
{
    let [name, rest @ ..] = items else {
        return None;
    };
    if is_name_in(bytes, forest, *name) {
        return state_from(bytes, forest, *name, rest);
    }
    None
}

/// What is claimed, by the members of an item.
fn claim_from<'a>(bytes: &[u8], forest: &Forest, items: &'a [usize]) -> Option<ClaimForm<'a>>
    requires reading { IsReading bytes.now forest.now }
    requires items_in { All (λ item. item < length forest.now.items) items.now }
    ensures value { option_map (claim_view (tree_at bytes.now forest.now.items)) result
        ≡ claim_from (map (tree_at bytes.now forest.now.items) items.now) }
    ensures within { IfSome result (IsWithin (length forest.now.items)) }
{
    let [head, rest @ ..] = items else {
        return None;
    };
    if is_word(bytes, forest, *head, b"goal".as_slice()) {
        return name_from(bytes, forest, rest);
    }
    None
}

/// What an item claims of a goal.
pub(crate) fn claim_in<'a>(bytes: &[u8], forest: &'a Forest, item: usize) -> Option<ClaimForm<'a>>
    requires reading { IsReading bytes.now forest.now }
    requires item_in { item < length forest.now.items }
    ensures value { option_map (claim_view (tree_at bytes.now forest.now.items)) result
        ≡ claim_in (tree_at bytes.now forest.now.items item) }
    ensures within { IfSome result (IsWithin (length forest.now.items)) }
{
    claim_from(bytes, forest, members(bytes, forest, item)?)
}

/// Whether two items are `isel-library` and `1`.
fn is_head_of(bytes: &[u8], forest: &Forest, word: usize, version: usize) -> bool
    requires reading { IsReading bytes.now forest.now }
    requires word_in { word < length forest.now.items }
    requires version_in { version < length forest.now.items }
    ensures { result ≡ is_head_of (tree_at bytes.now forest.now.items word)
        (tree_at bytes.now forest.now.items version) }
{
    is_word(bytes, forest, word, b"isel-library".as_slice())
        && is_word(bytes, forest, version, b"1".as_slice())
}

/// Whether items are those of the head.
fn is_head_from(bytes: &[u8], forest: &Forest, items: &[usize]) -> bool
    requires reading { IsReading bytes.now forest.now }
    requires items_in { All (λ item. item < length forest.now.items) items.now }
    ensures { result ≡ is_head_from (map (tree_at bytes.now forest.now.items) items.now) }
{
    let [word, version] = items else {
        return false;
    };
    is_head_of(bytes, forest, *word, *version)
}

/// Whether an item is the head of a library.
pub(crate) fn is_head(bytes: &[u8], forest: &Forest, item: usize) -> bool
    requires reading { IsReading bytes.now forest.now }
    requires item_in { item < length forest.now.items }
    ensures { result ≡ is_head (tree_at bytes.now forest.now.items item) }
{
    match members(bytes, forest, item) {
        Some(items) => is_head_from(bytes, forest, items),
        None => false,
    }
}
