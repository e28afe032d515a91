//! Formulas that are asserted one after the other: what they share, which bits are listed, and that all of them count.

ghost use Rattle.std.specs.Prelude.{◌≤◌, ◌<◌, length, All, IfOk};
ghost use Rattle.bit_blast.specs.Blast.{IsRight};

use super::models::has_model_at;
use super::operators::made;
use bit_blast::{Blaster, is_formula};
use bv_terms::{Op, Sort, TermId, Terms};
use std::alloc::{AllocError, Global};

/// A blaster with one formula more.
fn with_formula(
    alloc: Global,
    blaster: Blaster,
    terms: &Terms,
    formula: TermId,
) -> Result<Blaster, AllocError>
    requires right { IsRight blaster terms.now }
    requires there { formula.0 < length terms.now.nodes }
    ensures { IfOk result (λ b. IsRight b terms.now) }
{
    if !is_formula(alloc, terms, formula)? {
        return Err(AllocError);
    }
    blaster.assert(alloc, terms, formula)
}

/// The blaster of these formulas, in order.
fn with_formulas(alloc: Global, terms: &Terms, formulas: &[TermId]) -> Result<Blaster, AllocError>
    requires { All (λ at. at.0 < length terms.now.nodes) formulas.now }
    ensures { IfOk result (λ b. IsRight b terms.now) }
{
    let mut blaster = Blaster::new(alloc)?;
    for formula in formulas {
        blaster = with_formula(alloc, blaster, terms, *formula)?;
    }
    Ok(blaster)
}

/// An input of four bits.
fn word(terms: &mut Terms, number: u32) -> Result<TermId, AllocError>
    ensures there { IfOk result (λ at. at.0 < length terms.new.nodes) }
    ensures longer { length terms.old.nodes ≤ length terms.new.nodes }
{
    let sort = Sort::Bits(4);
    made(terms, Op::Input { number, sort }, &[])
}

/// Whether the product of two words differs from the product in the other order: a clause without literals says no.
fn has_empty_clause(alloc: Global) -> Result<bool, AllocError> {
    let mut terms = Terms::new(alloc, 64);
    let (x, y) = (word(&mut terms, 0)?, word(&mut terms, 1)?);
    let one = made(&mut terms, Op::BvMul, &[x, y])?;
    let other = made(&mut terms, Op::BvMul, &[y, x])?;
    let equal = made(&mut terms, Op::Eq, &[one, other])?;
    let differ = made(&mut terms, Op::Not, &[equal])?;
    let blaster = with_formulas(alloc, &terms, &[differ])?;
    let clauses = blaster.blasted().cnf.clauses();
    Ok(clauses.iter().any(|clause| clause.lits.is_empty()))
}

/// The numbers of variables after a formula, and after a second one over the same sum.
fn variables_of_two(alloc: Global) -> Result<(usize, usize), AllocError> {
    let mut terms = Terms::new(alloc, 64);
    let (x, y) = (word(&mut terms, 0)?, word(&mut terms, 1)?);
    let sum = made(&mut terms, Op::BvAdd, &[x, y])?;
    let first = made(&mut terms, Op::Eq, &[sum, x])?;
    let second = made(&mut terms, Op::Eq, &[sum, y])?;
    let one = with_formulas(alloc, &terms, &[first])?;
    let both = with_formulas(alloc, &terms, &[first, second])?;
    Ok((
        one.blasted().cnf.variables(),
        both.blasted().cnf.variables(),
    ))
}

/// How many bits are listed of two words whose order stands beside a false truth value.
fn listed_beside_false(alloc: Global) -> Result<usize, AllocError> {
    let mut terms = Terms::new(alloc, 64);
    let (x, y) = (word(&mut terms, 0)?, word(&mut terms, 1)?);
    let less = made(&mut terms, Op::BvUlt, &[x, y])?;
    let no = made(&mut terms, Op::Bool { value: false }, &[])?;
    let both = made(&mut terms, Op::And, &[no, less])?;
    Ok(with_formulas(alloc, &terms, &[both])?.blasted().bits.len())
}

/// Whether there is a model of two formulas at two words: the first is less, and the second is less than 3.
fn holds_at(alloc: Global, left: u64, right: u64) -> Result<bool, AllocError> {
    let mut terms = Terms::new(alloc, 64);
    let (x, y) = (word(&mut terms, 0)?, word(&mut terms, 1)?);
    let three = made(
        &mut terms,
        Op::Bits {
            width: 4,
            number: 3,
        },
        &[],
    )?;
    let less = made(&mut terms, Op::BvUlt, &[x, y])?;
    let small = made(&mut terms, Op::BvUlt, &[y, three])?;
    let blaster = with_formulas(alloc, &terms, &[less, small])?;
    has_model_at(alloc, blaster.blasted(), &[left, right])
}

#[test]
fn products_in_both_orders_share_their_gates(rt: HostRuntime) {
    assert!(rt; has_empty_clause(rt.alloc()) == Ok(true));
}

#[test]
fn a_term_costs_its_gates_once(rt: HostRuntime) {
    let counts = variables_of_two(rt.alloc());
    assert!(rt; matches!(counts, Ok((one, both)) if one == both));
}

#[test]
fn bits_below_a_constant_are_listed(rt: HostRuntime) {
    assert!(rt; listed_beside_false(rt.alloc()) == Ok(8));
}

#[test]
fn all_formulas_count(rt: HostRuntime) {
    for (left, right, holds) in [(1, 2, true), (2, 1, false), (2, 3, false)] {
        assert!(rt; holds_at(rt.alloc(), left, right) == Ok(holds));
    }
}
