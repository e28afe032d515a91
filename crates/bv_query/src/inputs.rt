//! The inputs in terms.

ghost use Rattle.std.specs.Prelude.{◌≡◌, ◌<◌, ◌↔◌, All, IfOk, IsTrue, length, map};
ghost use Rattle.std.specs.List.{list_all};
ghost use Rattle.bv_terms.specs.Table.{term_at};
ghost use Rattle.bv_query.specs.Inputs.{read_input, input_of, are_alike, HaveOneSort, AreInputsOf};
ghost use Rattle.bv_query.specs.Inputs.{have_one_sort as are_all_alike};

use bv_terms::{Op, Sort, TermId, Terms};
use std::alloc::{AllocError, Global};

/// Whether no two inputs in these nodes' terms have one number and two sorts. It costs the nodes below them, and a
/// comparison of each input with each other one. An `Err` is out of memory.
pub fn have_one_sort(alloc: Global, terms: &Terms, formulas: &[TermId]) -> Result<bool, AllocError>
    requires { All (λ at. at.0 < length terms.now.nodes) formulas.now }
    ensures { IfOk result (λ one. IsTrue one ↔ HaveOneSort (map (term_at terms.now) formulas.now)) }
{
    let inputs = inputs_of(alloc, terms, formulas)?;
    Ok(are_all_alike(&inputs))
}

/// The number and the sort of each input in these nodes' terms. An `Err` is out of memory.
pub(crate) fn inputs_of(
    alloc: Global,
    terms: &Terms,
    formulas: &[TermId],
) -> Result<Vec<(u32, Sort)>, AllocError>
    requires { All (λ at. at.0 < length terms.now.nodes) formulas.now }
    ensures { IfOk result (λ inputs. AreInputsOf (map (term_at terms.now) formulas.now) inputs.items) }
{
    // What each table keeps is known by this call.
    let _count = terms.len();
    let nodes = terms.subterms(alloc, formulas)?;
    let mut inputs = Vec::new(alloc);
    for at in &nodes {
        if let Some(input) = input(terms, *at) {
            inputs.push(input)?;
        }
    }
    Ok(inputs)
}

/// The number and the sort of the input that a node is.
fn input(terms: &Terms, at: TermId) -> Option<(u32, Sort)>
    requires { at.0 < length terms.now.nodes }
    ensures { result ≡ input_of (term_at terms.now at) }
{
    // What each table keeps is known by this call.
    let _count = terms.len();
    let (op, args) = terms.node(at);
    if !args.is_empty() {
        return None;
    }
    read_input(*op)
}

/// The number and the sort of the input that an operation is.
fn read_input(op: Op) -> Option<(u32, Sort)>
    ensures { result ≡ read_input op }
{
    match op {
        Op::Input { number, sort } => Some((number, sort)),
        _ => None,
    }
}

/// Whether no two of the inputs have one number and two sorts.
fn are_all_alike(inputs: &[(u32, Sort)]) -> bool
    ensures { result ≡ are_all_alike inputs.now }
{
    for input in inputs {
        if !is_alike(*input, inputs) {
            return false;
        }
    }
    true
}

/// Whether none of the others has an input's number and another sort.
fn is_alike(input: (u32, Sort), others: &[(u32, Sort)]) -> bool
    ensures { result ≡ list_all (are_alike input) others.now }
{
    for other in others {
        if !are_alike(input, *other) {
            return false;
        }
    }
    true
}

/// Whether two inputs have two numbers or one sort.
fn are_alike(left: (u32, Sort), right: (u32, Sort)) -> bool
    ensures { result ≡ are_alike left right }
{
    left.0 != right.0 || left.1.is_same(right.1)
}
