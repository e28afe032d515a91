//! What is wrong with the results of a definition together.

ghost use Rattle.std.specs.Prelude.{◌≡◌, ◌≤◌, ℕ, List, IfOk, length};
ghost use Rattle.bv_terms.specs.declared.op.TermId.{TermId};
ghost use Rattle.bv_terms.specs.Subterm.{AreSubterms};
ghost use Rattle.sexp_read.specs.Tree.{Tree};
ghost use Rattle.term_text.specs.Build.{AreNodes, terms_at};
ghost use Rattle.spec_reader.specs.Parts.{parts_by};
ghost use Rattle.spec_reader.specs.Walk.{goal_fault, results_fault};

use crate::accesses::{accessed_bytes, accesses, are_plain};
use crate::fault::{SpecFault, SpecKind, Which, fault_at};
use crate::form::Parts;
use crate::limits::above;
use crate::shape::has_memory_shape;
use bv_terms::{TermId, Terms};
use std::alloc::{AllocError, Global};

/// What is wrong with the pointers and the accessed bytes of a goal. The nodes are those of the results' subterms.
fn goal_fault(
    alloc: Global,
    terms: &Terms,
    parts: &Parts<'_>,
    nodes: &[TermId],
    span: (usize, usize),
) -> Result<Option<SpecFault>, AllocError>
    requires nodes_in { AreNodes terms.now nodes.now }
    requires few { length nodes.now ≤ 256 }
    ensures { (tree : ℕ → Tree) (results : List TermId) → AreNodes terms.now results
        → AreSubterms terms.now results nodes.now → IfOk result (λ fault. fault
        ≡ goal_fault (parts_by tree parts.now) (terms_at terms.now results) span) }
{
    let _size = terms.len();
    if !parts.is_goal {
        return Ok(None);
    }
    let accesses = accesses(alloc, terms, nodes)?;
    if !are_plain(alloc, terms, accesses.as_slice())? {
        return Ok(Some(fault_at(SpecKind::PointerReads, span)));
    }
    let bytes = accessed_bytes(terms, accesses.as_slice());
    Ok(above(Which::Bytes, 32, bytes, span))
}

/// What is wrong with the results of a definition together: too many different subterms, memories that are no one
/// chain on which each load is marked, and for a goal a pointer that depends on a load, or too many accessed bytes.
pub(crate) fn results_fault(
    alloc: Global,
    terms: &Terms,
    parts: &Parts<'_>,
    results: &[TermId],
    span: (usize, usize),
) -> Result<Option<SpecFault>, AllocError>
    requires results_in { AreNodes terms.now results.now }
    ensures { (tree : ℕ → Tree) → IfOk result (λ fault. fault
        ≡ results_fault (parts_by tree parts.now) (terms_at terms.now results.now) span) }
{
    let _size = terms.len();
    let nodes = terms.subterms(alloc, results)?;
    let nodes = nodes.as_slice();
    if nodes.len() > 256 {
        return Ok(above(Which::Nodes, 256, nodes.len() as u64, span));
    }
    if !has_memory_shape(alloc, terms, parts.args.as_slice(), results, nodes)? {
        return Ok(Some(fault_at(SpecKind::MemShape, span)));
    }
    goal_fault(alloc, terms, parts, nodes, span)
}
