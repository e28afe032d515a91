//! The form of a file's items: what a definition consists of, before its limits, names and terms are looked at.

ghost use Rattle.std.specs.Prelude.{◌≡◌, ◌<◌, map, length, option_map, option_and_then, IfOk, IfSome, ℕ, true};
ghost use Rattle.std.specs.List.{All};
ghost use Rattle.sexp_read.specs.Forest.{IsReading, tree_at};
ghost use Rattle.sexp_read.specs.Tree.{Tree, word_of, members_of};
ghost use Rattle.term_text.specs.Literal.{each};
ghost use Rattle.isel_spec.specs.File.{has_kind, is_memory_kind};
ghost use Rattle.spec_reader.specs.Form.{is_word, is_name_in, name_in, vector_in, sort_named, sort_in, kind_named};
ghost use Rattle.spec_reader.specs.Form.{arg_from, arg_in, is_vector, attr_in};
ghost use Rattle.spec_reader.specs.Form.{garg_from, garg_in, some_of, op_of, op_from};
ghost use Rattle.spec_reader.specs.Form.{goal_of, goal_from, parts_from, parts_in};
ghost use Rattle.spec_reader.specs.Form.{head_from, head_in, is_head, numeral_in};
ghost use Rattle.spec_reader.specs.Parts.{param_by, params_by, parts_by, AreWithin};

use bv_terms::Sort;
use isel_spec::Kind;
use sexp_read::{Forest, is_name, numeral, numeral_between};
use std::alloc::{AllocError, Global};

/// A name that a definition binds: its item, where it comes from, and its sort. Of an operation's argument the kind
/// says nothing.
#[derive(Clone, Copy)]
pub(crate) struct Param {
    pub(crate) name: usize,
    pub(crate) kind: Kind,
    pub(crate) sort: Sort,
}

/// What an item defines: the items of its name and of its results, and what it binds. An operation costs 0.
#[derive(Drop)]
pub(crate) struct Parts<'a> {
    pub(crate) is_goal: bool,
    pub(crate) name: usize,
    pub(crate) args: Vec<Param>,
    pub(crate) attrs: Vec<Param>,
    pub(crate) cost: u64,
    pub(crate) results: &'a [usize],
}

/// The items of the list that an item is.
fn members<'a>(bytes: &[u8], forest: &'a Forest, item: usize) -> Option<&'a [usize]>
    requires reading { IsReading bytes.now forest.now }
    requires item_in { item < length forest.now.items }
    ensures trees { option_map (λ items. map (tree_at bytes.now forest.now.items) items.now) result
        ≡ members_of (tree_at bytes.now forest.now.items item) }
    ensures within { IfSome result (λ items. All (λ item. item < length forest.now.items) items.now) }
{
    forest.children(item)
}

/// Whether an item is this word.
fn is_word(bytes: &[u8], forest: &Forest, item: usize, word: &[u8]) -> bool
    requires reading { IsReading bytes.now forest.now }
    requires item_in { item < length forest.now.items }
    ensures { result ≡ is_word word.now (tree_at bytes.now forest.now.items item) }
{
    match forest.atom(bytes, item) {
        Some(found) => word == found,
        None => false,
    }
}

/// Whether an item is a name.
fn is_name_in(bytes: &[u8], forest: &Forest, item: usize) -> bool
    requires reading { IsReading bytes.now forest.now }
    requires item_in { item < length forest.now.items }
    ensures { result ≡ is_name_in (tree_at bytes.now forest.now.items item) }
{
    match forest.atom(bytes, item) {
        Some(word) => is_name(word),
        None => false,
    }
}

/// An item that is a name.
fn name_in(bytes: &[u8], forest: &Forest, item: usize) -> Option<usize>
    requires reading { IsReading bytes.now forest.now }
    requires item_in { item < length forest.now.items }
    ensures value { option_map (tree_at bytes.now forest.now.items) result
        ≡ name_in (tree_at bytes.now forest.now.items item) }
    ensures within { IfSome result (λ item. item < length forest.now.items) }
{
    if is_name_in(bytes, forest, item) {
        Some(item)
    } else {
        None
    }
}

/// The sort of `(_ BitVec W)`, by its members.
fn vector_in(bytes: &[u8], forest: &Forest, items: &[usize]) -> Option<Sort>
    requires reading { IsReading bytes.now forest.now }
    requires items_in { All (λ item. item < length forest.now.items) items.now }
    ensures { result ≡ vector_in (map (tree_at bytes.now forest.now.items) items.now) }
{
    let [underscore, family, width] = items else {
        return None;
    };
    if is_word(bytes, forest, *underscore, b"_".as_slice())
        && is_word(bytes, forest, *family, b"BitVec".as_slice())
    {
        let width = numeral_between(1, 64, forest.atom(bytes, *width)?)?;
        return Some(Sort::Bits(width as u8));
    }
    None
}

fn sort_named(word: &[u8]) -> Option<Sort>
    ensures { result ≡ sort_named word.now }
{
    if word == b"Bool".as_slice() {
        Some(Sort::Bool)
    } else if word == b"Mem".as_slice() {
        Some(Sort::Mem)
    } else {
        None
    }
}

/// The sort that a word is.
fn word_sort(bytes: &[u8], forest: &Forest, item: usize) -> Option<Sort>
    requires reading { IsReading bytes.now forest.now }
    requires item_in { item < length forest.now.items }
    ensures { result ≡ option_and_then sort_named (word_of (tree_at bytes.now forest.now.items item)) }
{
    sort_named(forest.atom(bytes, item)?)
}

/// The sort that a list is.
fn list_sort(bytes: &[u8], forest: &Forest, item: usize) -> Option<Sort>
    requires reading { IsReading bytes.now forest.now }
    requires item_in { item < length forest.now.items }
    ensures { result ≡ option_and_then vector_in (members_of (tree_at bytes.now forest.now.items item)) }
{
    vector_in(bytes, forest, members(bytes, forest, item)?)
}

/// The sort that an item is.
fn sort_in(bytes: &[u8], forest: &Forest, item: usize) -> Option<Sort>
    requires reading { IsReading bytes.now forest.now }
    requires item_in { item < length forest.now.items }
    ensures { result ≡ sort_in (tree_at bytes.now forest.now.items item) }
{
    if let Some(sort) = word_sort(bytes, forest, item) {
        return Some(sort);
    }
    list_sort(bytes, forest, item)
}

fn kind_named(word: &[u8]) -> Option<Kind>
    ensures { result ≡ kind_named word.now }
{
    if word == b"reg".as_slice() {
        Some(Kind::Reg)
    } else if word == b"imm".as_slice() {
        Some(Kind::Imm)
    } else if word == b"mem".as_slice() {
        Some(Kind::Mem)
    } else {
        None
    }
}

/// The argument `(NAME SORT)`, by its members.
fn arg_from(bytes: &[u8], forest: &Forest, items: &[usize]) -> Option<Param>
    requires reading { IsReading bytes.now forest.now }
    requires items_in { All (λ item. item < length forest.now.items) items.now }
    ensures value { option_map (param_by (tree_at bytes.now forest.now.items)) result
        ≡ arg_from (map (tree_at bytes.now forest.now.items) items.now) }
    ensures within { IfSome result (λ param. param.name < length forest.now.items) }
{
    let [name, sort] = items else {
        return None;
    };
    let name = name_in(bytes, forest, *name)?;
    let sort = sort_in(bytes, forest, *sort)?;
    Some(Param {
        name,
        kind: Kind::Reg,
        sort,
    })
}

fn arg_in(bytes: &[u8], forest: &Forest, item: usize) -> Option<Param>
    requires reading { IsReading bytes.now forest.now }
    requires item_in { item < length forest.now.items }
    ensures value { option_map (param_by (tree_at bytes.now forest.now.items)) result
        ≡ arg_in (tree_at bytes.now forest.now.items item) }
    ensures within { IfSome result (λ param. param.name < length forest.now.items) }
{
    arg_from(bytes, forest, members(bytes, forest, item)?)
}

fn is_vector(sort: Sort) -> bool
    ensures { result ≡ is_vector sort }
{
    matches!(sort, Sort::Bits(_))
}

/// The attribute `(NAME (_ BitVec W))`.
fn attr_in(bytes: &[u8], forest: &Forest, item: usize) -> Option<Param>
    requires reading { IsReading bytes.now forest.now }
    requires item_in { item < length forest.now.items }
    ensures value { option_map (param_by (tree_at bytes.now forest.now.items)) result
        ≡ attr_in (tree_at bytes.now forest.now.items item) }
    ensures within { IfSome result (λ param. param.name < length forest.now.items) }
{
    let param = arg_in(bytes, forest, item)?;
    if is_vector(param.sort) {
        Some(param)
    } else {
        None
    }
}

fn is_memory_kind(kind: Kind) -> bool
    ensures { result ≡ is_memory_kind kind }
{
    match kind {
        Kind::Reg => false,
        Kind::Imm => false,
        Kind::Mem => true,
    }
}

fn has_kind(kind: Kind, sort: Sort) -> bool
    ensures { result ≡ has_kind (kind, sort) }
{
    is_memory_kind(kind) == (sort == Sort::Mem)
}

/// The kind that an item is.
fn kind_in(bytes: &[u8], forest: &Forest, item: usize) -> Option<Kind>
    requires reading { IsReading bytes.now forest.now }
    requires item_in { item < length forest.now.items }
    ensures { result ≡ option_and_then kind_named (word_of (tree_at bytes.now forest.now.items item)) }
{
    kind_named(forest.atom(bytes, item)?)
}

/// The argument `(KIND NAME SORT)` of a goal, by its members.
fn garg_from(bytes: &[u8], forest: &Forest, items: &[usize]) -> Option<Param>
    requires reading { IsReading bytes.now forest.now }
    requires items_in { All (λ item. item < length forest.now.items) items.now }
    ensures value { option_map (param_by (tree_at bytes.now forest.now.items)) result
        ≡ garg_from (map (tree_at bytes.now forest.now.items) items.now) }
    ensures within { IfSome result (λ param. param.name < length forest.now.items) }
{
    let [kind, name, sort] = items else {
        return None;
    };
    let kind = kind_in(bytes, forest, *kind)?;
    let name = name_in(bytes, forest, *name)?;
    let sort = sort_in(bytes, forest, *sort)?;
    if has_kind(kind, sort) {
        Some(Param { name, kind, sort })
    } else {
        None
    }
}

fn garg_in(bytes: &[u8], forest: &Forest, item: usize) -> Option<Param>
    requires reading { IsReading bytes.now forest.now }
    requires item_in { item < length forest.now.items }
    ensures value { option_map (param_by (tree_at bytes.now forest.now.items)) result
        ≡ garg_in (tree_at bytes.now forest.now.items item) }
    ensures within { IfSome result (λ param. param.name < length forest.now.items) }
{
    garg_from(bytes, forest, members(bytes, forest, item)?)
}

/// The arguments of an operation that items are.
fn args_of(
    alloc: Global,
    bytes: &[u8],
    forest: &Forest,
    items: &[usize],
) -> Result<Option<Vec<Param>>, AllocError>
    requires reading { IsReading bytes.now forest.now }
    requires items_in { All (λ item. item < length forest.now.items) items.now }
    ensures value { IfOk result (λ found.
        option_map (λ params. params_by (tree_at bytes.now forest.now.items) params.items) found
        ≡ each arg_in (map (tree_at bytes.now forest.now.items) items.now)) }
    ensures within { IfOk result (λ found. IfSome found (λ params.
        All (λ param. param.name < length forest.now.items) params.items)) }
{
    let mut params = Vec::new(alloc);
    for item in items {
        let Some(param) = arg_in(bytes, forest, *item) else {
            return Ok(None);
        };
        params.push(param)?;
    }
    Ok(Some(params))
}

/// The attributes of an operation that items are.
fn attrs_of(
    alloc: Global,
    bytes: &[u8],
    forest: &Forest,
    items: &[usize],
) -> Result<Option<Vec<Param>>, AllocError>
    requires reading { IsReading bytes.now forest.now }
    requires items_in { All (λ item. item < length forest.now.items) items.now }
    ensures value { IfOk result (λ found.
        option_map (λ params. params_by (tree_at bytes.now forest.now.items) params.items) found
        ≡ each attr_in (map (tree_at bytes.now forest.now.items) items.now)) }
    ensures within { IfOk result (λ found. IfSome found (λ params.
        All (λ param. param.name < length forest.now.items) params.items)) }
{
    let mut params = Vec::new(alloc);
    for item in items {
        let Some(param) = attr_in(bytes, forest, *item) else {
            return Ok(None);
        };
        params.push(param)?;
    }
    Ok(Some(params))
}

/// The arguments of a goal that items are.
fn gargs_of(
    alloc: Global,
    bytes: &[u8],
    forest: &Forest,
    items: &[usize],
) -> Result<Option<Vec<Param>>, AllocError>
    requires reading { IsReading bytes.now forest.now }
    requires items_in { All (λ item. item < length forest.now.items) items.now }
    ensures value { IfOk result (λ found.
        option_map (λ params. params_by (tree_at bytes.now forest.now.items) params.items) found
        ≡ each garg_in (map (tree_at bytes.now forest.now.items) items.now)) }
    ensures within { IfOk result (λ found. IfSome found (λ params.
        All (λ param. param.name < length forest.now.items) params.items)) }
{
    let mut params = Vec::new(alloc);
    for item in items {
        let Some(param) = garg_in(bytes, forest, *item) else {
            return Ok(None);
        };
        params.push(param)?;
    }
    Ok(Some(params))
}

/// The arguments of an operation, in the list that an item is.
fn args_in(
    alloc: Global,
    bytes: &[u8],
    forest: &Forest,
    item: usize,
) -> Result<Option<Vec<Param>>, AllocError>
    requires reading { IsReading bytes.now forest.now }
    requires item_in { item < length forest.now.items }
    ensures value { IfOk result (λ found.
        option_map (λ params. params_by (tree_at bytes.now forest.now.items) params.items) found
        ≡ option_and_then (each arg_in) (members_of (tree_at bytes.now forest.now.items item))) }
    ensures within { IfOk result (λ found. IfSome found (λ params.
        All (λ param. param.name < length forest.now.items) params.items)) }
{
    let Some(members) = members(bytes, forest, item) else {
        return Ok(None);
    };
    args_of(alloc, bytes, forest, members)
}

/// The attributes of an operation, in the list that an item is.
fn attrs_in(
    alloc: Global,
    bytes: &[u8],
    forest: &Forest,
    item: usize,
) -> Result<Option<Vec<Param>>, AllocError>
    requires reading { IsReading bytes.now forest.now }
    requires item_in { item < length forest.now.items }
    ensures value { IfOk result (λ found.
        option_map (λ params. params_by (tree_at bytes.now forest.now.items) params.items) found
        ≡ option_and_then (each attr_in) (members_of (tree_at bytes.now forest.now.items item))) }
    ensures within { IfOk result (λ found. IfSome found (λ params.
        All (λ param. param.name < length forest.now.items) params.items)) }
{
    let Some(members) = members(bytes, forest, item) else {
        return Ok(None);
    };
    attrs_of(alloc, bytes, forest, members)
}

/// The arguments of a goal, in the list that an item is.
fn gargs_in(
    alloc: Global,
    bytes: &[u8],
    forest: &Forest,
    item: usize,
) -> Result<Option<Vec<Param>>, AllocError>
    requires reading { IsReading bytes.now forest.now }
    requires item_in { item < length forest.now.items }
    ensures value { IfOk result (λ found.
        option_map (λ params. params_by (tree_at bytes.now forest.now.items) params.items) found
        ≡ option_and_then (each garg_in) (members_of (tree_at bytes.now forest.now.items item))) }
    ensures within { IfOk result (λ found. IfSome found (λ params.
        All (λ param. param.name < length forest.now.items) params.items)) }
{
    let Some(members) = members(bytes, forest, item) else {
        return Ok(None);
    };
    gargs_of(alloc, bytes, forest, members)
}

/// Items, where there is one or more.
fn some_of(items: &[usize]) -> Option<&[usize]>
    ensures trees { (tree : ℕ → Tree) → option_map (λ some. map tree some.now) result ≡ some_of (map tree items.now) }
    ensures same { IfSome result (λ some. some.now ≡ items.now) }
{
    match items {
        [] => None,
        [_, ..] => Some(items),
    }
}

/// The items in the list that an item is, where there is one or more.
fn results_in<'a>(bytes: &[u8], forest: &'a Forest, item: usize) -> Option<&'a [usize]>
    requires reading { IsReading bytes.now forest.now }
    requires item_in { item < length forest.now.items }
    ensures trees { option_map (λ items. map (tree_at bytes.now forest.now.items) items.now) result
        ≡ option_and_then some_of (members_of (tree_at bytes.now forest.now.items item)) }
    ensures within { IfSome result (λ items. All (λ item. item < length forest.now.items) items.now) }
{
    some_of(members(bytes, forest, item)?)
}

/// The numeral that an item is.
fn numeral_in(bytes: &[u8], forest: &Forest, item: usize) -> Option<u64>
    requires reading { IsReading bytes.now forest.now }
    requires item_in { item < length forest.now.items }
    ensures { result ≡ numeral_in (tree_at bytes.now forest.now.items item) }
{
    numeral(forest.atom(bytes, item)?)
}

/// The parts of an operation, by its items after `op`.
fn op_of<'a>(
    alloc: Global,
    bytes: &[u8],
    forest: &'a Forest,
    name: usize,
    args: usize,
    attrs: usize,
    results: usize,
) -> Result<Option<Parts<'a>>, AllocError>
    requires reading { IsReading bytes.now forest.now }
    requires name_in { name < length forest.now.items }
    requires args_in { args < length forest.now.items }
    requires attrs_in { attrs < length forest.now.items }
    requires results_in { results < length forest.now.items }
    ensures value { IfOk result (λ found. option_map (parts_by (tree_at bytes.now forest.now.items)) found
        ≡ op_of (tree_at bytes.now forest.now.items name) (tree_at bytes.now forest.now.items args)
        (tree_at bytes.now forest.now.items attrs) (tree_at bytes.now forest.now.items results)) }
    ensures within { IfOk result (λ found. IfSome found (AreWithin (length forest.now.items))) }
{
    let Some(name) = name_in(bytes, forest, name) else {
        return Ok(None);
    };
    let Some(args) = args_in(alloc, bytes, forest, args)? else {
        return Ok(None);
    };
    let Some(attrs) = attrs_in(alloc, bytes, forest, attrs)? else {
        return Ok(None);
    };
    let Some(results) = results_in(bytes, forest, results) else {
        return Ok(None);
    };
    Ok(Some(Parts {
        is_goal: false,
        name,
        args,
        attrs,
        cost: 0,
        results,
    }))
}

/// The parts of an operation, by what follows `op`.
fn op_from<'a>(
    alloc: Global,
    bytes: &[u8],
    forest: &'a Forest,
    items: &[usize],
) -> Result<Option<Parts<'a>>, AllocError>
    requires reading { IsReading bytes.now forest.now }
    requires items_in { All (λ item. item < length forest.now.items) items.now }
    ensures value { IfOk result (λ found. option_map (parts_by (tree_at bytes.now forest.now.items)) found
        ≡ op_from (map (tree_at bytes.now forest.now.items) items.now)) }
    ensures within { IfOk result (λ found. IfSome found (AreWithin (length forest.now.items))) }
{
    if items.len() != 4 {
        return Ok(None);
    }
    op_of(alloc, bytes, forest, items[0], items[1], items[2], items[3])
}

/// The parts of a goal, by its items after `goal`.
fn goal_of<'a>(
    alloc: Global,
    bytes: &[u8],
    forest: &'a Forest,
    name: usize,
    args: usize,
    cost: usize,
    results: usize,
) -> Result<Option<Parts<'a>>, AllocError>
    requires reading { IsReading bytes.now forest.now }
    requires name_in { name < length forest.now.items }
    requires args_in { args < length forest.now.items }
    requires cost_in { cost < length forest.now.items }
    requires results_in { results < length forest.now.items }
    ensures value { IfOk result (λ found. option_map (parts_by (tree_at bytes.now forest.now.items)) found
        ≡ goal_of (tree_at bytes.now forest.now.items name) (tree_at bytes.now forest.now.items args)
        (tree_at bytes.now forest.now.items cost) (tree_at bytes.now forest.now.items results)) }
    ensures within { IfOk result (λ found. IfSome found (AreWithin (length forest.now.items))) }
{
    let Some(name) = name_in(bytes, forest, name) else {
        return Ok(None);
    };
    let Some(args) = gargs_in(alloc, bytes, forest, args)? else {
        return Ok(None);
    };
    let Some(cost) = numeral_in(bytes, forest, cost) else {
        return Ok(None);
    };
    let Some(results) = results_in(bytes, forest, results) else {
        return Ok(None);
    };
    Ok(Some(Parts {
        is_goal: true,
        name,
        args,
        attrs: Vec::new(alloc),
        cost,
        results,
    }))
}

/// The parts of a goal, by what follows `goal`.
fn goal_from<'a>(
    alloc: Global,
    bytes: &[u8],
    forest: &'a Forest,
    items: &[usize],
) -> Result<Option<Parts<'a>>, AllocError>
    requires reading { IsReading bytes.now forest.now }
    requires items_in { All (λ item. item < length forest.now.items) items.now }
    ensures value { IfOk result (λ found. option_map (parts_by (tree_at bytes.now forest.now.items)) found
        ≡ goal_from (map (tree_at bytes.now forest.now.items) items.now)) }
    ensures within { IfOk result (λ found. IfSome found (AreWithin (length forest.now.items))) }
{
    if items.len() != 4 {
        return Ok(None);
    }
    goal_of(alloc, bytes, forest, items[0], items[1], items[2], items[3])
}

/// The parts of a definition, by its members.
fn parts_from<'a>(
    alloc: Global,
    bytes: &[u8],
    forest: &'a Forest,
    items: &[usize],
) -> Result<Option<Parts<'a>>, AllocError>
    requires reading { IsReading bytes.now forest.now }
    requires items_in { All (λ item. item < length forest.now.items) items.now }
    ensures value { IfOk result (λ found. option_map (parts_by (tree_at bytes.now forest.now.items)) found
        ≡ parts_from (map (tree_at bytes.now forest.now.items) items.now)) }
    ensures within { IfOk result (λ found. IfSome found (AreWithin (length forest.now.items))) }
{
    let [head, rest @ ..] = items else {
        return Ok(None);
    };
    if is_word(bytes, forest, *head, b"op".as_slice()) {
        return op_from(alloc, bytes, forest, rest);
    }
    if is_word(bytes, forest, *head, b"goal".as_slice()) {
        return goal_from(alloc, bytes, forest, rest);
    }
    Ok(None)
}

/// The parts of the definition that an item is.
pub(crate) fn parts_in<'a>(
    alloc: Global,
    bytes: &[u8],
    forest: &'a Forest,
    item: usize,
) -> Result<Option<Parts<'a>>, AllocError>
    requires reading { IsReading bytes.now forest.now }
    requires item_in { item < length forest.now.items }
    ensures value { IfOk result (λ found. option_map (parts_by (tree_at bytes.now forest.now.items)) found
        ≡ parts_in (tree_at bytes.now forest.now.items item)) }
    ensures within { IfOk result (λ found. IfSome found (AreWithin (length forest.now.items))) }
    ensures named { IfOk result (λ found. IfSome found (λ parts.
        is_name_in (tree_at bytes.now forest.now.items parts.name) ≡ true)) }
{
    let Some(members) = members(bytes, forest, item) else {
        return Ok(None);
    };
    parts_from(alloc, bytes, forest, members)
}

/// Whether two items are `isel-spec` and `1`.
fn is_head(bytes: &[u8], forest: &Forest, word: usize, version: usize) -> bool
    requires reading { IsReading bytes.now forest.now }
    requires word_in { word < length forest.now.items }
    requires version_in { version < length forest.now.items }
    ensures { result ≡ is_head (tree_at bytes.now forest.now.items word)
        (tree_at bytes.now forest.now.items version) }
{
    is_word(bytes, forest, word, b"isel-spec".as_slice())
        && is_word(bytes, forest, version, b"1".as_slice())
}

/// The head of a file, by its members: the item of the width of a pointer, and its number.
fn head_from(bytes: &[u8], forest: &Forest, items: &[usize]) -> Option<(usize, u64)>
    requires reading { IsReading bytes.now forest.now }
    requires items_in { All (λ item. item < length forest.now.items) items.now }
    ensures value { option_map {U = Tree × ℕ} (λ head. (tree_at bytes.now forest.now.items head.0, head.1)) result
        ≡ head_from (map (tree_at bytes.now forest.now.items) items.now) }
    ensures within { IfSome result (λ head. head.0 < length forest.now.items) }
{
    let [word, version, pointer] = items else {
        return None;
    };
    if !is_head(bytes, forest, *word, *version) {
        return None;
    }
    let width = numeral_in(bytes, forest, *pointer)?;
    Some((*pointer, width))
}

/// The head of a file that an item is.
pub(crate) fn head_in(bytes: &[u8], forest: &Forest, item: usize) -> Option<(usize, u64)>
    requires reading { IsReading bytes.now forest.now }
    requires item_in { item < length forest.now.items }
    ensures value { option_map {U = Tree × ℕ} (λ head. (tree_at bytes.now forest.now.items head.0, head.1)) result
        ≡ head_in (tree_at bytes.now forest.now.items item) }
    ensures within { IfSome result (λ head. head.0 < length forest.now.items) }
{
    head_from(bytes, forest, members(bytes, forest, item)?)
}
