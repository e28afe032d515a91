//! The terms of a definition's results.

ghost use Rattle.std.specs.Prelude.{◌≡◌, ◌<◌, length, map};
ghost use Rattle.std.specs.List.{All};
ghost use Rattle.bv_terms.specs.Table.{Extends};
ghost use Rattle.sexp_read.specs.Forest.{IsReading, tree_at};
ghost use Rattle.term_text.specs.Scope.{AreNamesIn, terms_under};
ghost use Rattle.spec_reader.specs.Walk.{kind_of, term_fault, result_read, results_read};
ghost use Rattle.spec_reader.specs.Results.{IsResult, AreResults};

use crate::fault::{SpecFault, SpecKind, fault_at};
use bv_terms::{TermId, Terms};
use collections::NameMap;
use sexp_read::Forest;
use std::alloc::Global;
use term_text::{TermFault, TermKind, read_term};

fn kind_of(kind: TermKind) -> SpecKind
    ensures { result ≡ kind_of kind }
{
    match kind {
        TermKind::Unknown => SpecKind::Unknown,
        TermKind::Literal => SpecKind::Literal,
        TermKind::Index => SpecKind::Index,
        TermKind::Arity => SpecKind::Arity,
        TermKind::Sorts => SpecKind::Sorts,
        TermKind::Width => SpecKind::Width,
        TermKind::NoMemory => SpecKind::NoMemory,
    }
}

/// A fault of a term as a fault of the file.
fn term_fault(fault: TermFault) -> SpecFault
    ensures { result ≡ term_fault fault }
{
    fault_at(kind_of(fault.kind), (fault.from, fault.to))
}

/// The node of the term that an item is.
fn result_read(
    alloc: Global,
    bytes: &[u8],
    forest: &Forest,
    item: usize,
    names: &NameMap<TermId>,
    terms: &mut Terms,
) -> Result<TermId, SpecFault>
    requires reading { IsReading bytes.now forest.now }
    requires item_in { item < length forest.now.items }
    requires names { AreNamesIn terms.old names.now }
    ensures read { IsResult terms.new (result_read terms.old.pointer (terms_under terms.old names.now)
        (tree_at bytes.now forest.now.items item)) result }
    ensures extends { Extends terms.old terms.new }
{
    match read_term(alloc, bytes, forest, item, names, terms) {
        Ok(at) => Ok(at),
        Err(fault) => Err(term_fault(fault)),
    }
}

/// The nodes of the terms that items are, in order.
pub(crate) fn results_read(
    alloc: Global,
    bytes: &[u8],
    forest: &Forest,
    items: &[usize],
    names: &NameMap<TermId>,
    terms: &mut Terms,
) -> Result<Vec<TermId>, SpecFault>
    requires reading { IsReading bytes.now forest.now }
    requires items_in { All (λ item. item < length forest.now.items) items.now }
    requires names { AreNamesIn terms.old names.now }
    ensures read { AreResults terms.new (results_read terms.old.pointer (terms_under terms.old names.now)
        (map (tree_at bytes.now forest.now.items) items.now)) result }
    ensures extends { Extends terms.old terms.new }
{
    let mut nodes = Vec::new(alloc);
    for item in items {
        let node = result_read(alloc, bytes, forest, *item, names, terms)?;
        nodes.push(node)?;
    }
    Ok(nodes)
}
