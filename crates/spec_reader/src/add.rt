//! A definition at the end of a file.

ghost use Rattle.std.specs.Prelude.{◌≡◌, ◌<◌, ◌≤◌, [], ◌∷◌, ◌++◌, Some, None, IfOk, map, length, true, false};
ghost use Rattle.std.specs.List.{All};
ghost use Rattle.std.specs.String.{string_bytes};
ghost use Rattle.bv_terms.specs.Sorts.{width_of};
ghost use Rattle.bv_terms.specs.Table.{term_at};
ghost use Rattle.sexp_read.specs.Forest.{IsReading, tree_at};
ghost use Rattle.sexp_read.specs.Tree.{Tree};
ghost use Rattle.sexp_read.specs.Words.{is_name};
ghost use Rattle.term_text.specs.Build.{AreNodes, terms_at};
ghost use Rattle.isel_spec.specs.File.{stays_in, is_sound};
ghost use Rattle.isel_spec.specs.Spec.{file};
ghost use Rattle.spec_reader.specs.Form.{parts_in, is_name_in};
ghost use Rattle.spec_reader.specs.Added.{named_operation, named_goal};
ghost use Rattle.spec_reader.specs.Parts.{parts_by, AreWithin};
ghost use Rattle.spec_reader.specs.Walk.{definition_fault, results_fault, params_of, sorts_of, with_definition};

use crate::form::{Param, Parts};
use crate::names::name_of;
use bv_terms::{Sort, TermId};
use collections::Seq;
use isel_spec::{GoalDef, Kind, OpDef, Spec};
use sexp_read::{Forest, name};
use std::alloc::{AllocError, Global};

/// The sorts of these.
fn sorts_of(alloc: Global, params: &[Param]) -> Result<Seq<Sort>, AllocError>
    ensures { IfOk result (λ sorts. sorts ≡ map (λ q. q.sort) params.now) }
{
    let mut sorts = Vec::new(alloc);
    for param in params {
        sorts.push(param.sort)?;
    }
    Ok(Seq::from_vec(sorts))
}

/// The widths of the sorts of these.
fn widths_of(alloc: Global, params: &[Param]) -> Result<Seq<u8>, AllocError>
    ensures { IfOk result (λ widths. widths ≡ map (λ q. width_of q.sort) params.now) }
{
    let mut widths = Vec::new(alloc);
    for param in params {
        widths.push(param.sort.width())?;
    }
    Ok(Seq::from_vec(widths))
}

/// The kinds of these with their sorts.
fn kinds_of(alloc: Global, params: &[Param]) -> Result<Seq<(Kind, Sort)>, AllocError>
    ensures { IfOk result (λ kinds. kinds ≡ map (λ q. (q.kind, q.sort)) params.now) }
{
    let mut kinds = Vec::new(alloc);
    for param in params {
        kinds.push((param.kind, param.sort))?;
    }
    Ok(Seq::from_vec(kinds))
}

/// A word that is a name, as text.
fn text_of(alloc: Global, word: &[u8]) -> Result<String, AllocError>
    requires { is_name word.now ≡ true }
    ensures { IfOk result (λ text. string_bytes text ≡ word.now) }
{
    String::from_str(alloc, name(word).unwrap())
}

/// The file with an operation at its end.
fn with_operation(
    alloc: Global,
    bytes: &[u8],
    forest: &Forest,
    spec: Spec,
    parts: &Parts<'_>,
    results: Vec<TermId>,
) -> Result<Spec, AllocError>
    requires reading { IsReading bytes.now forest.now }
    requires name_in { parts.now.name < length forest.now.items }
    requires named { is_name_in (tree_at bytes.now forest.now.items parts.now.name) ≡ true }
    requires operation { parts.now.is_goal ≡ false }
    requires sound { is_sound spec.pointer spec.terms (spec.ops ++ named_operation
        (parts_by (tree_at bytes.now forest.now.items) parts.now) results.items ∷ []) spec.goals ≡ true }
    ensures { IfOk result (λ more. file more ≡ with_definition (file spec)
        (parts_by (tree_at bytes.now forest.now.items) parts.now) (terms_at spec.terms results.items)) }
{
    let name = text_of(alloc, name_of(bytes, forest, parts.name))?;
    let def = OpDef {
        args: sorts_of(alloc, parts.args.as_slice())?,
        attrs: widths_of(alloc, parts.attrs.as_slice())?,
        results: Seq::from_vec(results),
    };
    let mut spec = spec;
    spec.add_op(name, def)?;
    Ok(spec)
}

/// The file with a goal at its end.
fn with_goal(
    alloc: Global,
    bytes: &[u8],
    forest: &Forest,
    spec: Spec,
    parts: &Parts<'_>,
    results: Vec<TermId>,
) -> Result<Spec, AllocError>
    requires reading { IsReading bytes.now forest.now }
    requires name_in { parts.now.name < length forest.now.items }
    requires named { is_name_in (tree_at bytes.now forest.now.items parts.now.name) ≡ true }
    requires cheap { parts.now.cost ≤ 65535 }
    requires goal { parts.now.is_goal ≡ true }
    requires sound { is_sound spec.pointer spec.terms spec.ops (spec.goals ++ named_goal
        (parts_by (tree_at bytes.now forest.now.items) parts.now) results.items ∷ []) ≡ true }
    ensures { IfOk result (λ more. file more ≡ with_definition (file spec)
        (parts_by (tree_at bytes.now forest.now.items) parts.now) (terms_at spec.terms results.items)) }
{
    let name = text_of(alloc, name_of(bytes, forest, parts.name))?;
    let def = GoalDef {
        args: kinds_of(alloc, parts.args.as_slice())?,
        results: Seq::from_vec(results),
        cost: parts.cost as u32,
    };
    let mut spec = spec;
    spec.add_goal(name, def)?;
    Ok(spec)
}

/// The file with a definition at its end.
pub(crate) fn with_definition(
    alloc: Global,
    bytes: &[u8],
    forest: &Forest,
    spec: Spec,
    parts: &Parts<'_>,
    results: Vec<TermId>,
    span: (usize, usize),
) -> Result<Spec, AllocError>
    requires reading { IsReading bytes.now forest.now }
    requires parts_in { AreWithin (length forest.now.items) parts.now }
    requires formed { (tree : Tree)
        × (parts_in tree ≡ Some (parts_by (tree_at bytes.now forest.now.items) parts.now)) }
    requires sound { definition_fault (file spec) span
        (parts_by (tree_at bytes.now forest.now.items) parts.now) ≡ None }
    requires count { length results.items ≡ length parts.now.results.now }
    requires nodes { AreNodes spec.terms results.items }
    requires stay { All (λ at. stays_in
        (sorts_of (params_of (parts_by (tree_at bytes.now forest.now.items) parts.now)))
        (term_at spec.terms at) ≡ true) results.items }
    requires shaped { results_fault (parts_by (tree_at bytes.now forest.now.items) parts.now)
        (terms_at spec.terms results.items) span ≡ None }
    ensures { IfOk result (λ more. file more ≡ with_definition (file spec)
        (parts_by (tree_at bytes.now forest.now.items) parts.now) (terms_at spec.terms results.items)) }
{
    if parts.is_goal {
        with_goal(alloc, bytes, forest, spec, parts, results)
    } else {
        with_operation(alloc, bytes, forest, spec, parts, results)
    }
}
