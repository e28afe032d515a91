//! The scope of a definition: the names of its arguments and attributes, each with the input that it stands for.

ghost use Rattle.std.specs.Prelude.{◌≡◌, ◌<◌, [], ◌∷◌, ◌++◌, Some, None, IfOk, OnOk, map, length, true, false};
ghost use Rattle.std.specs.List.{All, list_any};
ghost use Rattle.std.specs.Str.{bytes_eq};
ghost use Rattle.bv_terms.specs.Term.{Apply, End};
ghost use Rattle.bv_terms.specs.Table.{Extends};
ghost use Rattle.bv_terms.specs.declared.op.Op.TheVariants.{Input};
ghost use Rattle.sexp_read.specs.Forest.{IsReading, tree_at};
ghost use Rattle.sexp_read.specs.Tree.{Tree};
ghost use Rattle.sexp_read.specs.Words.{is_name};
ghost use Rattle.term_text.specs.Build.{Builds};
ghost use Rattle.term_text.specs.Scope.{AreNamesIn, terms_under};
ghost use Rattle.spec_reader.specs.Form.{is_name_in, parts_in};
ghost use Rattle.spec_reader.specs.Parts.{parts_by, params_by, AreWithin};
ghost use Rattle.spec_reader.specs.Walk.{names_fault, params_of, scope_from};

use crate::form::{Param, Parts};
use crate::names::name_of;
use bv_terms::{Op, Sort, TermId, Terms};
use collections::NameMap;
use sexp_read::{Forest, name};
use std::alloc::{AllocError, Global};

/// What a definition binds, the arguments first.
fn params_of(alloc: Global, args: &[Param], attrs: &[Param]) -> Result<Vec<Param>, AllocError>
    ensures { IfOk result (λ params. params.items ≡ args.now ++ attrs.now) }
{
    let mut params = Vec::from_slice(alloc, args)?;
    params.extend_from_slice(attrs)?;
    Ok(params)
}

/// The node of an input. An `Err` is out of memory: each sort that is read has a width from 1 to 64.
fn input(terms: &mut Terms, number: u32, sort: Sort) -> Result<TermId, AllocError>
    ensures { Builds terms.old terms.new result (Apply (Input number sort) End) }
{
    match terms.make(Op::Input { number, sort }, &[]) {
        Ok(made) => Ok(made),
        Err(_) => Err(AllocError),
    }
}

/// Adds a name that is new.
fn add_name(
    alloc: Global,
    word: &[u8],
    at: TermId,
    names: &mut NameMap<TermId>,
) -> Result<(), AllocError>
    requires named { is_name word.now ≡ true }
    requires new { list_any (bytes_eq word.now) (map (λ e. e.0) names.old) ≡ false }
    ensures { OnOk result (names.new ≡ names.old ++ (word.now, at) ∷ []) }
{
    let name = name(word).unwrap();
    names.insert(String::from_str(alloc, name)?, at)?;
    Ok(())
}

/// The names of these, each with the input of its place.
fn scope_from(
    alloc: Global,
    bytes: &[u8],
    forest: &Forest,
    params: &[Param],
    terms: &mut Terms,
) -> Result<NameMap<TermId>, AllocError>
    requires reading { IsReading bytes.now forest.now }
    requires params_in { All (λ q. q.name < length forest.now.items) params.now }
    requires named { All (λ q. is_name_in (tree_at bytes.now forest.now.items q.name) ≡ true) params.now }
    requires few { names_fault [] (map (λ q. tree_at bytes.now forest.now.items q.name) params.now) ≡ None }
    ensures scope { IfOk result (λ names. AreNamesIn terms.new names × (terms_under terms.new names
        ≡ scope_from 0 (params_by (tree_at bytes.now forest.now.items) params.now))) }
    ensures extends { Extends terms.old terms.new }
{
    let mut names = NameMap::new(alloc);
    for place in 0..params.len() {
        // No table has room for more inputs.
        if place >= u32::MAX as usize {
            return Err(AllocError);
        }
        let param = params[place];
        let at = input(terms, place as u32, param.sort)?;
        add_name(alloc, name_of(bytes, forest, param.name), at, &mut names)?;
    }
    Ok(names)
}

/// The names of a definition's arguments and attributes, each with the input that it stands for.
pub(crate) fn scope_of(
    alloc: Global,
    bytes: &[u8],
    forest: &Forest,
    parts: &Parts<'_>,
    terms: &mut Terms,
) -> Result<NameMap<TermId>, AllocError>
    requires reading { IsReading bytes.now forest.now }
    requires parts_in { AreWithin (length forest.now.items) parts.now }
    requires formed { (tree : Tree)
        × (parts_in tree ≡ Some (parts_by (tree_at bytes.now forest.now.items) parts.now)) }
    requires few { names_fault [] (map (λ q. q.name)
        (params_of (parts_by (tree_at bytes.now forest.now.items) parts.now))) ≡ None }
    ensures scope { IfOk result (λ names. AreNamesIn terms.new names × (terms_under terms.new names
        ≡ scope_from 0 (params_of (parts_by (tree_at bytes.now forest.now.items) parts.now)))) }
    ensures extends { Extends terms.old terms.new }
{
    let params = params_of(alloc, parts.args.as_slice(), parts.attrs.as_slice())?;
    scope_from(alloc, bytes, forest, params.as_slice(), terms)
}
