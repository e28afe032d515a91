//! The sources of a sort that may be named after some nodes, and the choices of them for arguments and results.

ghost use Rattle.std.specs.Prelude.{◌≡◌, ◌<◌, ◌≤◌, ◌++◌, length, map, filter, slice_get, All, Some, IfOk, OnOk};
ghost use Rattle.std.specs.Prelude.{option_and_then};
ghost use Rattle.std.specs.List.{range_with_len};
ghost use Rattle.bv_terms.specs.declared.op.TermId.{TermId};
ghost use Rattle.bv_terms.specs.Table.{term_at};
ghost use Rattle.bv_terms.specs.WellSorted.{sort_of};
ghost use Rattle.isel_spec.specs.File.{Goal, sorts_in};
ghost use Rattle.isel_spec.specs.Spec.{file};
ghost use Rattle.pattern_core.specs.declared.pattern.Src.TheVariants.{Input, Out};
ghost use Rattle.pattern_core.specs.Pattern.{operation_sort, source_sort};
ghost use Rattle.plain_search.specs.Patterns.{choices, result_count, outs_of, is_sort, sources_of};

use crate::choices::choices_of;
use bv_terms::{Sort, TermId, Terms};
use collections::Seq;
use isel_spec::{Kind, Spec};
use pattern_core::{Node, Src};
use std::alloc::{AllocError, Global};

/// Adds those of a goal's inputs that are of a sort, in order.
fn add_inputs(args: &[(Kind, Sort)], wanted: Sort, found: &mut Vec<Src>) -> Result<(), AllocError>
    requires { length args.now ≤ 4 }
    ensures { OnOk result (found.new.items ≡ found.old.items ++ map (λ k. Input k)
        (filter (λ k. is_sort (Some wanted) (slice_get (sorts_in args.now) k)) (range_with_len 0 (length args.now)))) }
{
    for (place, argument) in args.iter().enumerate() {
        if wanted.is_same(argument.1) {
            found.push(Src::Input(place as u8))?;
        }
    }
    Ok(())
}

/// Adds those of an operation's results that are of a sort, in order, as results of a node.
fn add_results(
    terms: &Terms,
    results: &[TermId],
    node: u8,
    wanted: Sort,
    found: &mut Vec<Src>,
) -> Result<(), AllocError>
    requires few { length results.now ≤ 3 }
    requires there { All (λ (at : TermId). at.0 < length terms.now.nodes) results.now }
    ensures { OnOk result (found.new.items ≡ found.old.items ++ map (λ r. Out node r)
        (filter (λ r. is_sort (Some wanted)
        (option_and_then (sort_of terms.now.pointer) (slice_get (map (term_at terms.now) results.now) r)))
        (range_with_len 0 (length results.now)))) }
{
    for (place, at) in results.iter().enumerate() {
        if wanted.is_same(terms.sort(*at)) {
            found.push(Src::Out {
                node,
                result: place as u8,
            })?;
        }
    }
    Ok(())
}

/// Adds those results of a node of this operation that are of a sort, in order.
fn add_node(
    spec: &Spec,
    op: u16,
    node: u8,
    wanted: Sort,
    found: &mut Vec<Src>,
) -> Result<(), AllocError>
    ensures { OnOk result (found.new.items ≡ found.old.items ++ map (λ r. Out node r)
        (filter (λ r. is_sort (Some wanted) (operation_sort (file spec.now) (slice_get (file spec.now).ops op) r))
        (range_with_len 0 (result_count (slice_get (file spec.now).ops op))))) }
{
    let op = usize::from(op);
    if op >= spec.ops.len() {
        return Ok(());
    }
    let results = spec.op(op).results.as_slice();
    add_results(&spec.terms, results, node, wanted, found)
}

/// Adds those results of some nodes that are of a sort, in order.
fn add_nodes(
    spec: &Spec,
    nodes: &[Node],
    wanted: Sort,
    found: &mut Vec<Src>,
) -> Result<(), AllocError>
    requires { length nodes.now ≤ 6 }
    ensures { (g : Goal) → OnOk result (found.new.items ≡ found.old.items ++ filter
        (λ source. is_sort (Some wanted) (source_sort (file spec.now) g nodes.now (length nodes.now) source))
        (outs_of (file spec.now) 0 nodes.now)) }
{
    for (place, node) in nodes.iter().enumerate() {
        add_node(spec, node.op, place as u8, wanted, found)?;
    }
    Ok(())
}

/// The sources of a sort after some nodes, in order.
fn sources_of(
    alloc: Global,
    spec: &Spec,
    goal: u32,
    nodes: &[Node],
    wanted: Sort,
) -> Result<Seq<Src>, AllocError>
    requires there { goal < length spec.now.goals }
    requires few { length nodes.now ≤ 6 }
    ensures { (g : Goal) → slice_get (file spec.now).goals goal ≡ Some g → IfOk result (λ found.
        found ≡ sources_of (file spec.now) g nodes.now (Some wanted)) }
{
    let mut found = Vec::new(alloc);
    add_inputs(spec.goal(goal).args.as_slice(), wanted, &mut found)?;
    add_nodes(spec, nodes, wanted, &mut found)?;
    Ok(Seq::from_vec(found))
}

/// The sources of each of some sorts after some nodes.
fn argument_sources(
    alloc: Global,
    spec: &Spec,
    goal: u32,
    nodes: &[Node],
    sorts: &[Sort],
) -> Result<Vec<Seq<Src>>, AllocError>
    requires there { goal < length spec.now.goals }
    requires few { length nodes.now ≤ 6 }
    ensures { (g : Goal) → slice_get (file spec.now).goals goal ≡ Some g → IfOk result (λ found.
        found.items ≡ map (λ s. sources_of (file spec.now) g nodes.now (Some s)) sorts.now) }
{
    let mut found = Vec::new(alloc);
    for sort in sorts {
        found.push(sources_of(alloc, spec, goal, nodes, *sort)?)?;
    }
    Ok(found)
}

/// The choices of arguments for sorts after some nodes: a source of each sort, in lexicographic order.
pub(crate) fn argument_choices(
    alloc: Global,
    spec: &Spec,
    goal: u32,
    nodes: &[Node],
    sorts: &[Sort],
) -> Result<Vec<Seq<Src>>, AllocError>
    requires there { goal < length spec.now.goals }
    requires few { length nodes.now ≤ 6 }
    ensures { (g : Goal) → slice_get (file spec.now).goals goal ≡ Some g → IfOk result (λ found. found.items
        ≡ choices (map (λ s. sources_of (file spec.now) g nodes.now (Some s)) sorts.now)) }
{
    let lists = argument_sources(alloc, spec, goal, nodes, sorts)?;
    choices_of(alloc, &lists)
}

/// The sources of each of the goal's results after some nodes.
fn result_sources(
    alloc: Global,
    spec: &Spec,
    goal: u32,
    nodes: &[Node],
) -> Result<Vec<Seq<Src>>, AllocError>
    requires there { goal < length spec.now.goals }
    requires few { length nodes.now ≤ 6 }
    ensures { (g : Goal) → slice_get (file spec.now).goals goal ≡ Some g → IfOk result (λ found.
        found.items ≡ map (λ t. sources_of (file spec.now) g nodes.now (sort_of (file spec.now).pointer t)) g.results) }
{
    let mut found = Vec::new(alloc);
    for at in spec.goal(goal).results.as_slice() {
        let sort = spec.terms.sort(*at);
        found.push(sources_of(alloc, spec, goal, nodes, sort)?)?;
    }
    Ok(found)
}

/// The choices of sources for the goal's results after some nodes.
pub(crate) fn result_choices(
    alloc: Global,
    spec: &Spec,
    goal: u32,
    nodes: &[Node],
) -> Result<Vec<Seq<Src>>, AllocError>
    requires there { goal < length spec.now.goals }
    requires few { length nodes.now ≤ 6 }
    ensures { (g : Goal) → slice_get (file spec.now).goals goal ≡ Some g → IfOk result (λ found. found.items
        ≡ choices (map (λ t. sources_of (file spec.now) g nodes.now (sort_of (file spec.now).pointer t)) g.results)) }
{
    let lists = result_sources(alloc, spec, goal, nodes)?;
    choices_of(alloc, &lists)
}
