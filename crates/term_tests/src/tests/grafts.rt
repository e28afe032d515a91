//! Tests: a term of one table made in another, with terms in place of its inputs.

ghost use Rattle.std.specs.Prelude.{◌<◌, length, map, All, IsTrue};
ghost use Rattle.bv_terms.specs.declared.op.TermId.{TermId};
ghost use Rattle.bv_terms.specs.Table.{term_at};
ghost use Rattle.bv_terms.specs.Replaced.{ReplacementFits, ReplacementsFit};

use bv_terms::*;
use std::alloc::{AllocError, Global};
use std::test::Fail;

/// Whether each input in the table has a term of its sort.
fn replacements_fit(terms: &Terms, from: &Terms, inputs: &[TermId]) -> bool
    requires { All (λ a. a.0 < length terms.now.nodes) inputs.now }
    ensures { IsTrue result → (at : TermId) → at.0 < length from.now.nodes
        → ReplacementsFit terms.now.pointer (map (term_at terms.now) inputs.now) (term_at from.now at) }
{
    for place in 0..from.len() {
        let (op, _) = from.node(TermId(place));
        if !replacement_fits(terms, op, inputs) {
            return false;
        }
    }
    true
}

fn replacement_fits(terms: &Terms, op: &Op, inputs: &[TermId]) -> bool
    requires { All (λ a. a.0 < length terms.now.nodes) inputs.now }
    ensures { IsTrue result → ReplacementFits terms.now.pointer (map (term_at terms.now) inputs.now) op.now }
{
    match *op {
        Op::Input { number, sort } => match inputs.get(number as usize) {
            Some(id) => terms.sort(*id).is_same(sort),
            None => false,
        },
        _ => true,
    }
}

/// The node of a term with its inputs replaced, where there is a term of its sort for each input.
fn graft(
    alloc: Global,
    terms: &mut Terms,
    from: &Terms,
    at: TermId,
    inputs: &[TermId],
) -> Option<Result<TermId, AllocError>> {
    let len = terms.len();
    if from.pointer() != terms.pointer() || at.0 >= from.len() {
        return None;
    }
    if !inputs.iter().all(|input| input.0 < len) || !replacements_fit(terms, from, inputs) {
        return None;
    }
    Some(terms.graft(alloc, from, at, inputs))
}

/// Two inputs, their sum, and the sum without the first.
fn sum_without_first(alloc: Global) -> Result<Terms, MakeFault> {
    let mut terms = Terms::new(alloc, 32);
    let sort = Sort::Bits(8);
    let first = terms.make(Op::Input { number: 0, sort }, &[])?;
    let second = terms.make(Op::Input { number: 1, sort }, &[])?;
    let sum = terms.make(Op::BvAdd, &[first, second])?;
    terms.make(Op::BvSub, &[sum, first])?;
    Ok(terms)
}

/// Whether the node is this operation over these nodes.
fn is_node(terms: &Terms, at: TermId, op: Op, args: &[TermId]) -> bool {
    if at.0 >= terms.len() {
        return false;
    }
    let (found, over) = terms.node(at);
    *found == op && over == args
}

#[test]
fn inputs_become_the_given_terms(rt: HostRuntime) -> Result<(), Fail> {
    let from = sum_without_first(rt.alloc())?;
    let mut terms = Terms::new(rt.alloc(), 32);
    let five = terms.make(
        Op::Bits {
            width: 8,
            number: 5,
        },
        &[],
    )?;
    let inverted = terms.make(Op::BvNot, &[five])?;
    for _ in 0..2 {
        let made = graft(rt.alloc(), &mut terms, &from, TermId(3), &[inverted, five]);
        assert!(rt; made == Some(Ok(TermId(3))));
        assert!(rt; terms.len() == 4);
    }
    assert!(rt; is_node(&terms, TermId(2), Op::BvAdd, &[inverted, five]));
    assert!(rt; is_node(&terms, TermId(3), Op::BvSub, &[TermId(2), inverted]));
    Ok(())
}
