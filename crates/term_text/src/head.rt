//! What a list of a term's text begins with.

ghost use Rattle.std.specs.Prelude.{◌≡◌, ◌<◌, ◌≤◌, [], ◌∷◌, map, length, option_map, IfSome};
ghost use Rattle.std.specs.List.{All};
ghost use Rattle.sexp_read.specs.Forest.{IsReading, tree_at};
ghost use Rattle.term_text.specs.Head.{access_named, access_of, access_size, indexed_named, index_of, one_index};
ghost use Rattle.term_text.specs.Head.{two_indices, with_indices, indexed_after, indexed_in, list_head, is_bv};
ghost use Rattle.term_text.specs.Head.{begins_with_bv, constant_of, underscore_head, word_head, head_of, or_fault};
ghost use Rattle.term_text.specs.Head.{span_of};

use crate::fault::{TermFault, TermKind, fault_at};
use crate::literal::decimal_literal;
use crate::operator::Operator;
use crate::words::operator_named;
use bv_terms::{IndexRule, Op};
use sexp_read::{Forest, numeral_between};

/// What a list is, by its head.
#[derive(Clone, Copy)]
pub(crate) enum Head {
    /// A constant: the list is `(_ bvX n)`.
    Constant(Op),
    /// An operator, before its arguments.
    Applied(Operator),
    /// An access to a memory, before its number of bytes and its arguments.
    Accessing(Access),
    /// `let`, before the bound terms and the body.
    Binding,
}

/// The accesses to a memory.
#[derive(Clone, Copy)]
pub(crate) enum Access {
    /// `mload`
    Load,
    /// `mmark`
    Mark,
    /// `mstore`
    Store,
}

/// The operators that have numbers of their own, written `(_ OPERATOR NUMERAL ..)`.
#[derive(Clone, Copy)]
pub(crate) enum Indexed {
    Extract,
    ZeroExtend,
    SignExtend,
    RotateLeft,
    RotateRight,
    Repeat,
}

impl Access {
    /// The access to so many bytes.
    pub(crate) fn operation(self, bytes: u8) -> Op
        ensures { result ≡ access_of self bytes }
    {
        match self {
            Access::Load => Op::MLoad { bytes },
            Access::Mark => Op::MMark { bytes },
            Access::Store => Op::MStore { bytes },
        }
    }
}

fn access_named(word: &[u8]) -> Option<Access>
    ensures { result ≡ access_named word.now }
{
    if word == b"mload".as_slice() {
        Some(Access::Load)
    } else if word == b"mmark".as_slice() {
        Some(Access::Mark)
    } else if word == b"mstore".as_slice() {
        Some(Access::Store)
    } else {
        None
    }
}

fn indexed_named(word: &[u8]) -> Option<Indexed>
    ensures { result ≡ indexed_named word.now }
{
    if word == b"extract".as_slice() {
        Some(Indexed::Extract)
    } else if word == b"zero_extend".as_slice() {
        Some(Indexed::ZeroExtend)
    } else if word == b"sign_extend".as_slice() {
        Some(Indexed::SignExtend)
    } else if word == b"rotate_left".as_slice() {
        Some(Indexed::RotateLeft)
    } else if word == b"rotate_right".as_slice() {
        Some(Indexed::RotateRight)
    } else if word == b"repeat".as_slice() {
        Some(Indexed::Repeat)
    } else {
        None
    }
}

/// The number of bytes of an access: 1, 2, 4 or 8, where pointers of so many bits have as many addresses.
pub(crate) fn access_size(pointer: u8, bytes: &[u8], forest: &Forest, item: usize) -> Option<u8>
    requires reading { IsReading bytes.now forest.now }
    requires item_in { item < length forest.now.items }
    ensures { result ≡ access_size pointer (tree_at bytes.now forest.now.items item) }
{
    let size = numeral_between(1, 8, forest.atom(bytes, item)?)? as u8;
    if IndexRule::Access(size).is_met(pointer, &[]) {
        Some(size)
    } else {
        None
    }
}

/// A number of an operator: a numeral below 2^32.
fn index_of(bytes: &[u8], forest: &Forest, item: usize) -> Option<u32>
    requires reading { IsReading bytes.now forest.now }
    requires item_in { item < length forest.now.items }
    ensures { result ≡ index_of (tree_at bytes.now forest.now.items item) }
{
    let number = numeral_between(0, u64::from(u32::MAX), forest.atom(bytes, item)?)?;
    Some(number as u32)
}

/// The only number of an operator.
fn one_index(bytes: &[u8], forest: &Forest, items: &[usize]) -> Option<u32>
    requires reading { IsReading bytes.now forest.now }
    requires items_in { All (λ item. item < length forest.now.items) items.now }
    ensures { result ≡ one_index (map (tree_at bytes.now forest.now.items) items.now) }
{
    match items {
        [only] => index_of(bytes, forest, *only),
        _ => None,
    }
}

/// The two numbers of an operator.
fn two_indices(bytes: &[u8], forest: &Forest, items: &[usize]) -> Option<(u32, u32)>
    requires reading { IsReading bytes.now forest.now }
    requires items_in { All (λ item. item < length forest.now.items) items.now }
    ensures { result ≡ two_indices (map (tree_at bytes.now forest.now.items) items.now) }
{
    match items {
        [first, second] => {
            let high = index_of(bytes, forest, *first)?;
            let low = index_of(bytes, forest, *second)?;
            Some((high, low))
        }
        _ => None,
    }
}

/// The operator with the numbers that these items are.
fn with_indices(
    indexed: Indexed,
    bytes: &[u8],
    forest: &Forest,
    items: &[usize],
) -> Option<Operator>
    requires reading { IsReading bytes.now forest.now }
    requires items_in { All (λ item. item < length forest.now.items) items.now }
    ensures { result ≡ with_indices indexed (map (tree_at bytes.now forest.now.items) items.now) }
{
    match indexed {
        Indexed::Extract => {
            let (high, low) = two_indices(bytes, forest, items)?;
            Some(Operator::Extract { high, low })
        }
        Indexed::ZeroExtend => {
            let by = one_index(bytes, forest, items)?;
            Some(Operator::ZeroExtend { by })
        }
        Indexed::SignExtend => {
            let by = one_index(bytes, forest, items)?;
            Some(Operator::SignExtend { by })
        }
        Indexed::RotateLeft => {
            let by = one_index(bytes, forest, items)?;
            Some(Operator::RotateLeft { by })
        }
        Indexed::RotateRight => {
            let by = one_index(bytes, forest, items)?;
            Some(Operator::RotateRight { by })
        }
        Indexed::Repeat => {
            let by = one_index(bytes, forest, items)?;
            Some(Operator::Repeat { by })
        }
    }
}

/// The operator of the word after the `_` that begins a list.
fn indexed_after(bytes: &[u8], forest: &Forest, underscore: usize, name: usize) -> Option<Indexed>
    requires reading { IsReading bytes.now forest.now }
    requires underscore_in { underscore < length forest.now.items }
    requires name_in { name < length forest.now.items }
    ensures { result ≡ indexed_after (tree_at bytes.now forest.now.items underscore)
        (tree_at bytes.now forest.now.items name) }
{
    if forest.atom(bytes, underscore)? != b"_".as_slice() {
        return None;
    }
    indexed_named(forest.atom(bytes, name)?)
}

/// A list at the head of a list: `(_ OPERATOR NUMERAL ..)`, with its span and its members.
fn list_head(
    bytes: &[u8],
    forest: &Forest,
    span: (usize, usize),
    members: &[usize],
) -> Result<Head, TermFault>
    requires reading { IsReading bytes.now forest.now }
    requires members_in { All (λ item. item < length forest.now.items) members.now }
    ensures { result ≡ list_head span (map (tree_at bytes.now forest.now.items) members.now) }
{
    let [underscore, name, indices @ ..] = members else {
        return Err(fault_at(TermKind::Unknown, span));
    };
    let Some(indexed) = indexed_after(bytes, forest, *underscore, *name) else {
        return Err(fault_at(TermKind::Unknown, span));
    };
    match with_indices(indexed, bytes, forest, indices) {
        Some(operator) => Ok(Head::Applied(operator)),
        None => Err(fault_at(TermKind::Index, span)),
    }
}

fn begins_with_bv(word: &[u8]) -> bool
    ensures { result ≡ begins_with_bv word.now }
{
    matches!(word, [b'b', b'v', ..])
}

/// Whether an item is a word that begins with `bv`.
fn is_bv(bytes: &[u8], forest: &Forest, item: usize) -> bool
    requires reading { IsReading bytes.now forest.now }
    requires item_in { item < length forest.now.items }
    ensures { result ≡ is_bv (tree_at bytes.now forest.now.items item) }
{
    match forest.atom(bytes, item) {
        Some(word) => begins_with_bv(word),
        None => false,
    }
}

/// The constant of `(_ bvX n)`, by its last two items.
fn constant_of(bytes: &[u8], forest: &Forest, name: usize, width: usize) -> Option<Op>
    requires reading { IsReading bytes.now forest.now }
    requires name_in { name < length forest.now.items }
    requires width_in { width < length forest.now.items }
    ensures { result ≡ constant_of (tree_at bytes.now forest.now.items name)
        (tree_at bytes.now forest.now.items width) }
{
    let word = forest.atom(bytes, name)?;
    let width = forest.atom(bytes, width)?;
    decimal_literal(word, width)
}

/// The head of `(_ bvX n)`, a list of this span, by its last two items.
fn constant_head(
    bytes: &[u8],
    forest: &Forest,
    span: (usize, usize),
    name: usize,
    width: usize,
) -> Result<Head, TermFault>
    requires reading { IsReading bytes.now forest.now }
    requires name_in { name < length forest.now.items }
    requires width_in { width < length forest.now.items }
    ensures { result ≡ underscore_head span
        (tree_at bytes.now forest.now.items name ∷ tree_at bytes.now forest.now.items width ∷ []) }
{
    if !is_bv(bytes, forest, name) {
        return Err(fault_at(TermKind::Unknown, span));
    }
    match constant_of(bytes, forest, name, width) {
        Some(constant) => Ok(Head::Constant(constant)),
        None => Err(fault_at(TermKind::Literal, span)),
    }
}

/// A list of this span that begins with `_`, with what follows in it.
fn underscore_head(
    bytes: &[u8],
    forest: &Forest,
    span: (usize, usize),
    rest: &[usize],
) -> Result<Head, TermFault>
    requires reading { IsReading bytes.now forest.now }
    requires rest_in { All (λ item. item < length forest.now.items) rest.now }
    ensures { result ≡ underscore_head span (map (tree_at bytes.now forest.now.items) rest.now) }
{
    let unknown = Err(fault_at(TermKind::Unknown, span));
    match rest {
        [name, width] => constant_head(bytes, forest, span, *name, *width),
        _ => unknown,
    }
}

/// A word of this span at the head of a list, other than `_`.
fn word_head(span: (usize, usize), word: &[u8]) -> Result<Head, TermFault>
    ensures { result ≡ word_head span word.now }
{
    if word == b"let".as_slice() {
        return Ok(Head::Binding);
    }
    if let Some(access) = access_named(word) {
        return Ok(Head::Accessing(access));
    }
    match operator_named(word) {
        Some(operator) => Ok(Head::Applied(operator)),
        None => Err(fault_at(TermKind::Unknown, span)),
    }
}

/// The head of a list of this span, with what follows it in the list.
pub(crate) fn head_of(
    bytes: &[u8],
    forest: &Forest,
    span: (usize, usize),
    head: usize,
    rest: &[usize],
) -> Result<Head, TermFault>
    requires reading { IsReading bytes.now forest.now }
    requires head_in { head < length forest.now.items }
    requires rest_in { All (λ item. item < length forest.now.items) rest.now }
    ensures { result ≡ head_of span (tree_at bytes.now forest.now.items head)
        (map (tree_at bytes.now forest.now.items) rest.now) }
{
    let head_span = forest.span(head);
    if let Some(members) = forest.children(head) {
        return list_head(bytes, forest, head_span, members);
    }
    let word = forest.atom(bytes, head).unwrap();
    if word == b"_".as_slice() {
        return underscore_head(bytes, forest, span, rest);
    }
    word_head(head_span, word)
}
