//! Which terms are formulas over values.

ghost use Rattle.std.specs.Prelude.{◌≡◌, ◌<◌, ◌↔◌, length, All, IfOk, IsTrue};
ghost use Rattle.std.specs.List.{list_any};
ghost use Rattle.bv_terms.specs.Table.{term_at};
ghost use Rattle.bit_blast.specs.Clauses.{IsFormula};
ghost use Rattle.bit_blast.specs.Memory.{reads_memory, is_memory};

use bv_terms::{Op, Sort, TermId, Terms};
use std::alloc::{AllocError, Global};

/// Whether a node's term is a formula over values: a truth value in which no memory stands. It costs the nodes below
/// it. An `Err` is out of memory.
pub fn is_formula(alloc: Global, terms: &Terms, at: TermId) -> Result<bool, AllocError>
    requires { at.0 < length terms.now.nodes }
    ensures { IfOk result (λ is. IsTrue is ↔ IsFormula terms.now.pointer (term_at terms.now at)) }
{
    let _count = terms.len();
    if !terms.sort(at).is_same(Sort::Bool) {
        return Ok(false);
    }
    let nodes = terms.subterms(alloc, &[at])?;
    Ok(!has_memory(terms, &nodes))
}

/// Whether one of the nodes is a memory that is given.
fn has_memory(terms: &Terms, nodes: &[TermId]) -> bool
    requires { All (λ at. at.0 < length terms.now.nodes) nodes.now }
    ensures { result ≡ list_any (λ at. is_memory (term_at terms.now at)) nodes.now }
{
    for at in nodes {
        if is_memory(terms, *at) {
            return true;
        }
    }
    false
}

/// Whether a node is a memory that is given.
fn is_memory(terms: &Terms, at: TermId) -> bool
    requires { at.0 < length terms.now.nodes }
    ensures { result ≡ is_memory (term_at terms.now at) }
{
    // What each table keeps is known by this call.
    let _count = terms.len();
    let (op, args) = terms.node(at);
    args.is_empty() && reads_memory(*op)
}

/// Whether the operation is an input that is a memory.
fn reads_memory(op: Op) -> bool
    ensures { result ≡ reads_memory op }
{
    match op {
        Op::Input { sort, .. } => sort.is_same(Sort::Mem),
        _ => false,
    }
}
