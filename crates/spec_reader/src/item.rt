//! What an item defines, added to the file so far.

ghost use Rattle.std.specs.Prelude.{◌≡◌, ◌<◌, ◌⊎◌, Some, None, Ok, Err, [], length, map, IfOk, MatchResult, true};
ghost use Rattle.std.specs.List.{All};
ghost use Rattle.bv_terms.specs.Table.{term_at, Extends};
ghost use Rattle.sexp_read.specs.Tree.{Tree};
ghost use Rattle.sexp_read.specs.Forest.{IsReading, tree_at};
ghost use Rattle.term_text.specs.Build.{AreNodes, terms_at};
ghost use Rattle.isel_spec.specs.File.{stays_in};
ghost use Rattle.isel_spec.specs.Spec.{file};
ghost use Rattle.spec_reader.specs.declared.fault.SpecKind.TheVariants.{NoMemory};
ghost use Rattle.spec_reader.specs.Form.{is_name_in, parts_in};
ghost use Rattle.spec_reader.specs.Parts.{parts_by, AreWithin};
ghost use Rattle.spec_reader.specs.Results.{AreResults};
ghost use Rattle.spec_reader.specs.Walk.{names_fault, params_of, sorts_of, scope_from, results_read};
ghost use Rattle.spec_reader.specs.Walk.{definition_fault, definition_read, item_read};

use crate::add::with_definition;
use crate::fault::{SpecFault, SpecKind, fault_at};
use crate::form::{Parts, parts_in};
use crate::limits::{count_fault, limit_fault};
use crate::memory::results_fault;
use crate::names::{own_name_fault, params_fault};
use crate::results::results_read;
use crate::scope::scope_of;
use bv_terms::{TermId, Terms};
use isel_spec::Spec;
use sexp_read::Forest;
use std::alloc::{AllocError, Global};

/// What is wrong with a definition before its terms are looked at.
fn definition_fault(
    alloc: Global,
    bytes: &[u8],
    forest: &Forest,
    spec: &Spec,
    parts: &Parts<'_>,
    span: (usize, usize),
) -> Result<Option<SpecFault>, AllocError>
    requires reading { IsReading bytes.now forest.now }
    requires parts_in { AreWithin (length forest.now.items) parts.now }
    requires named { is_name_in (tree_at bytes.now forest.now.items parts.now.name) ≡ true }
    ensures { IfOk result (λ fault. fault
        ≡ definition_fault (file spec.now) span (parts_by (tree_at bytes.now forest.now.items) parts.now)) }
{
    if let Some(fault) = count_fault(spec, parts, span) {
        return Ok(Some(fault));
    }
    if let Some(fault) = own_name_fault(spec, bytes, forest, parts.name) {
        return Ok(Some(fault));
    }
    if let Some(fault) = limit_fault(parts, span) {
        return Ok(Some(fault));
    }
    params_fault(alloc, bytes, forest, parts)
}

/// The nodes of a definition's results, under the names of its arguments and attributes.
fn nodes_read(
    alloc: Global,
    bytes: &[u8],
    forest: &Forest,
    parts: &Parts<'_>,
    terms: &mut Terms,
) -> Result<Vec<TermId>, SpecFault>
    requires reading { IsReading bytes.now forest.now }
    requires parts_in { AreWithin (length forest.now.items) parts.now }
    requires formed { (tree : Tree) × (parts_in tree ≡ Some (parts_by (tree_at bytes.now forest.now.items) parts.now)) }
    requires few { names_fault []
        (map (λ q. q.name) (params_of (parts_by (tree_at bytes.now forest.now.items) parts.now))) ≡ None }
    ensures read { AreResults terms.new (results_read terms.old.pointer
        (scope_from 0 (params_of (parts_by (tree_at bytes.now forest.now.items) parts.now)))
        (map (tree_at bytes.now forest.now.items) parts.now.results.now)) result }
    ensures extends { Extends terms.old terms.new }
{
    match scope_of(alloc, bytes, forest, parts, terms) {
        Ok(names) => results_read(alloc, bytes, forest, parts.results, &names, terms),
        Err(_) => Err(fault_at(SpecKind::NoMemory, (0, 0))),
    }
}

/// The file with the nodes of a definition's results in its table.
fn spec_read(
    alloc: Global,
    bytes: &[u8],
    forest: &Forest,
    parts: &Parts<'_>,
    spec: Spec,
) -> Result<(Spec, Vec<TermId>), SpecFault>
    requires reading { IsReading bytes.now forest.now }
    requires parts_in { AreWithin (length forest.now.items) parts.now }
    requires formed { (tree : Tree) × (parts_in tree ≡ Some (parts_by (tree_at bytes.now forest.now.items) parts.now)) }
    requires few { names_fault []
        (map (λ q. q.name) (params_of (parts_by (tree_at bytes.now forest.now.items) parts.now))) ≡ None }
    ensures read { MatchResult result
        (λ found. AreNodes found.0.terms found.1.items × (results_read spec.pointer
        (scope_from 0 (params_of (parts_by (tree_at bytes.now forest.now.items) parts.now)))
        (map (tree_at bytes.now forest.now.items) parts.now.results.now) ≡ Ok (terms_at found.0.terms found.1.items)))
        (λ fault. (fault.kind ≡ NoMemory) ⊎ (results_read spec.pointer
        (scope_from 0 (params_of (parts_by (tree_at bytes.now forest.now.items) parts.now)))
        (map (tree_at bytes.now forest.now.items) parts.now.results.now) ≡ Err fault)) }
    ensures same { IfOk result (λ found. file found.0 ≡ file spec) }
{
    let Spec {
        pointer,
        mut terms,
        ops,
        goals,
    } = spec;
    match nodes_read(alloc, bytes, forest, parts, &mut terms) {
        Ok(nodes) => Ok((
            Spec {
                pointer,
                terms,
                ops,
                goals,
            },
            nodes,
        )),
        Err(fault) => Err(fault),
    }
}

/// The file with a definition whose terms are read, where nothing is wrong with its results together.
fn definition_added(
    alloc: Global,
    bytes: &[u8],
    forest: &Forest,
    parts: &Parts<'_>,
    spec: Spec,
    nodes: Vec<TermId>,
    span: (usize, usize),
) -> Result<Spec, SpecFault>
    requires reading { IsReading bytes.now forest.now }
    requires parts_in { AreWithin (length forest.now.items) parts.now }
    requires formed { (tree : Tree) × (parts_in tree ≡ Some (parts_by (tree_at bytes.now forest.now.items) parts.now)) }
    requires sound { definition_fault (file spec) span
        (parts_by (tree_at bytes.now forest.now.items) parts.now) ≡ None }
    requires within { AreNodes spec.terms nodes.items }
    requires read { results_read spec.pointer
        (scope_from 0 (params_of (parts_by (tree_at bytes.now forest.now.items) parts.now)))
        (map (tree_at bytes.now forest.now.items) parts.now.results.now) ≡ Ok (terms_at spec.terms nodes.items) }
    ensures { MatchResult result
        (λ more. definition_read (file spec) span (parts_by (tree_at bytes.now forest.now.items) parts.now)
        ≡ Ok (file more))
        (λ fault. (fault.kind ≡ NoMemory) ⊎ (definition_read (file spec) span
        (parts_by (tree_at bytes.now forest.now.items) parts.now) ≡ Err fault)) }
{
    let Ok(wrong) = results_fault(alloc, &spec.terms, parts, nodes.as_slice(), span) else {
        return Err(fault_at(SpecKind::NoMemory, (0, 0)));
    };
    if let Some(fault) = wrong {
        return Err(fault);
    }
    match with_definition(alloc, bytes, forest, spec, parts, nodes, span) {
        Ok(more) => Ok(more),
        Err(_) => Err(fault_at(SpecKind::NoMemory, (0, 0))),
    }
}

/// The file with what an item of this span defines.
fn definition_read(
    alloc: Global,
    bytes: &[u8],
    forest: &Forest,
    parts: &Parts<'_>,
    spec: Spec,
    span: (usize, usize),
) -> Result<Spec, SpecFault>
    requires reading { IsReading bytes.now forest.now }
    requires parts_in { AreWithin (length forest.now.items) parts.now }
    requires formed { (tree : Tree) × (parts_in tree ≡ Some (parts_by (tree_at bytes.now forest.now.items) parts.now)) }
    requires named { is_name_in (tree_at bytes.now forest.now.items parts.now.name) ≡ true }
    ensures { MatchResult result
        (λ more. definition_read (file spec) span (parts_by (tree_at bytes.now forest.now.items) parts.now)
        ≡ Ok (file more))
        (λ fault. (fault.kind ≡ NoMemory) ⊎ (definition_read (file spec) span
        (parts_by (tree_at bytes.now forest.now.items) parts.now) ≡ Err fault)) }
{
    let Ok(wrong) = definition_fault(alloc, bytes, forest, &spec, parts, span) else {
        return Err(fault_at(SpecKind::NoMemory, (0, 0)));
    };
    if let Some(fault) = wrong {
        return Err(fault);
    }
    match spec_read(alloc, bytes, forest, parts, spec) {
        Ok((spec, nodes)) => definition_added(alloc, bytes, forest, parts, spec, nodes, span),
        Err(fault) => Err(fault),
    }
}

/// The file with what an item of it defines.
pub(crate) fn item_read(
    alloc: Global,
    bytes: &[u8],
    forest: &Forest,
    item: usize,
    spec: Spec,
) -> Result<Spec, SpecFault>
    requires reading { IsReading bytes.now forest.now }
    requires item_in { item < length forest.now.items }
    ensures { MatchResult result
        (λ more. item_read (file spec) (tree_at bytes.now forest.now.items item) ≡ Ok (file more))
        (λ fault. (fault.kind ≡ NoMemory)
        ⊎ (item_read (file spec) (tree_at bytes.now forest.now.items item) ≡ Err fault)) }
{
    let Ok(found) = parts_in(alloc, bytes, forest, item) else {
        return Err(fault_at(SpecKind::NoMemory, (0, 0)));
    };
    let Some(parts) = found else {
        return Err(fault_at(SpecKind::Head, forest.span(item)));
    };
    definition_read(alloc, bytes, forest, &parts, spec, forest.span(item))
}
