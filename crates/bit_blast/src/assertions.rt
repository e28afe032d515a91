//! A formula asserted, part by part.

ghost use Rattle.std.specs.Prelude.{◌≡◌, ◌==◌, ℕ, Bool, true, length, OnOk, IfOk, IfSome};
ghost use Rattle.std.specs.Bool.{beq};
ghost use Rattle.bv_terms.specs.Table.{IsTable, term_at};
ghost use Rattle.circuit.specs.Signal.{signal_true, IsSignalOver};
ghost use Rattle.circuit.specs.Gate.{IsNetlist, Asserts};
ghost use Rattle.word_circuits.specs.Word.{word_number, AreOver};
ghost use Rattle.bit_blast.specs.Words.{wiring, AreWords, AreListed, Moves, IsPartSignal};
ghost use Rattle.bit_blast.specs.Parts.{IsFormulaNode, IsEquation, node_true, part_true};

use crate::nodes::Nodes;
use crate::parts::{Join, Part, flattened};
use bv_terms::{Op, TermId, Terms};
use circuit::{Circuit, Signal};
use std::alloc::{AllocError, Global};

/// The two sides of a part that is an equation.
fn equation(terms: &Terms, part: Part) -> Option<(TermId, TermId)>
    requires table { IsTable terms.now }
    requires formula { IsFormulaNode terms.now part.at }
    ensures { IfSome result (λ sides. IsEquation terms.now part sides.0 sides.1) }
{
    let (op, args) = terms.node(part.at);
    if !part.holds {
        return None;
    }
    if let Op::Eq = *op {
        return Some((args[0], args[1]));
    }
    None
}

/// Asserts that two words are equal, bit by bit: no gate says so.
fn assert_equal(
    alloc: Global,
    circuit: &mut Circuit,
    left: &[Signal],
    right: &[Signal],
) -> Result<(), AllocError>
    requires netlist { IsNetlist circuit.old }
    requires left { AreOver circuit.old left.now }
    requires right { AreOver circuit.old right.now }
    requires width { length right.now ≡ length left.now }
    ensures { OnOk result (Asserts circuit.old circuit.new
        (λ v. word_number v left.now == word_number v right.now)) }
{
    for place in 0..left.len() {
        let (a, b) = (left[place], right[place]);
        circuit.assert_any(alloc, &[a.opposite(), b])?;
        circuit.assert_any(alloc, &[a, b.opposite()])?;
    }
    Ok(())
}

/// Asserts that two nodes have equal values.
fn assert_equation(
    alloc: Global,
    terms: &Terms,
    circuit: &mut Circuit,
    nodes: &mut Nodes,
    part: Part,
    sides: (TermId, TermId),
) -> Result<(), AllocError>
    requires table { IsTable terms.now }
    requires words { AreWords terms.now (wiring circuit.old nodes.old) }
    requires equation { IsEquation terms.now part sides.0 sides.1 }
    ensures moves { OnOk result (Moves terms.now (term_at terms.now part.at) (λ env. part_true terms.now env part)
        (wiring circuit.old nodes.old) (wiring circuit.new nodes.new)) }
    ensures listed { OnOk result (AreListed circuit.new.bits (term_at terms.now part.at)) }
{
    nodes.visit(alloc, terms, circuit, sides.0)?;
    nodes.visit(alloc, terms, circuit, sides.1)?;
    assert_equal(alloc, circuit, nodes.word(sides.0), nodes.word(sides.1))
}

/// The signal, or its opposite.
fn turned(signal: Signal, holds: bool) -> Signal
    ensures value { (v : ℕ → Bool) → signal_true v result ≡ beq (signal_true v signal) holds }
    ensures over { (n : ℕ) → IsSignalOver n signal → IsSignalOver n result }
{
    if holds { signal } else { signal.opposite() }
}

/// The signal of a part.
fn signal(
    alloc: Global,
    terms: &Terms,
    circuit: &mut Circuit,
    nodes: &mut Nodes,
    part: Part,
) -> Result<Signal, AllocError>
    requires table { IsTable terms.now }
    requires words { AreWords terms.now (wiring circuit.old nodes.old) }
    requires formula { IsFormulaNode terms.now part.at }
    ensures moves { OnOk result (Moves terms.now (term_at terms.now part.at) (λ env. true)
        (wiring circuit.old nodes.old) (wiring circuit.new nodes.new)) }
    ensures listed { OnOk result (AreListed circuit.new.bits (term_at terms.now part.at)) }
    ensures value { IfOk result (IsPartSignal circuit.new (term_at terms.now part.at)
        (λ env. part_true terms.now env part)) }
{
    nodes.visit(alloc, terms, circuit, part.at)?;
    let word = nodes.word(part.at);
    Ok(turned(word[0], part.holds))
}

/// Asserts that one of the parts of which a part is joined is true.
fn assert_some(
    alloc: Global,
    terms: &Terms,
    circuit: &mut Circuit,
    nodes: &mut Nodes,
    part: Part,
) -> Result<(), AllocError>
    requires table { IsTable terms.now }
    requires words { AreWords terms.now (wiring circuit.old nodes.old) }
    requires formula { IsFormulaNode terms.now part.at }
    ensures moves { OnOk result (Moves terms.now (term_at terms.now part.at) (λ env. part_true terms.now env part)
        (wiring circuit.old nodes.old) (wiring circuit.new nodes.new)) }
    ensures listed { OnOk result (AreListed circuit.new.bits (term_at terms.now part.at)) }
{
    let parts = flattened(alloc, terms, part, Join::Any)?;
    let mut clause = Vec::new(alloc);
    for next in parts.iter() {
        let signal = signal(alloc, terms, circuit, nodes, *next)?;
        clause.push(signal)?;
    }
    circuit.assert_any(alloc, &clause)
}

/// Asserts a part: an equation bit by bit, and any other as a clause of its own parts.
fn assert_part(
    alloc: Global,
    terms: &Terms,
    circuit: &mut Circuit,
    nodes: &mut Nodes,
    part: Part,
) -> Result<(), AllocError>
    requires table { IsTable terms.now }
    requires words { AreWords terms.now (wiring circuit.old nodes.old) }
    requires formula { IsFormulaNode terms.now part.at }
    ensures moves { OnOk result (Moves terms.now (term_at terms.now part.at) (λ env. part_true terms.now env part)
        (wiring circuit.old nodes.old) (wiring circuit.new nodes.new)) }
    ensures listed { OnOk result (AreListed circuit.new.bits (term_at terms.now part.at)) }
{
    match equation(terms, part) {
        Some(sides) => assert_equation(alloc, terms, circuit, nodes, part, sides),
        None => assert_some(alloc, terms, circuit, nodes, part),
    }
}

/// Asserts a formula.
pub(crate) fn assert_formula(
    alloc: Global,
    terms: &Terms,
    circuit: &mut Circuit,
    nodes: &mut Nodes,
    formula: TermId,
) -> Result<(), AllocError>
    requires table { IsTable terms.now }
    requires words { AreWords terms.now (wiring circuit.old nodes.old) }
    requires formula { IsFormulaNode terms.now formula }
    ensures moves { OnOk result (Moves terms.now (term_at terms.now formula) (λ env. node_true terms.now env formula)
        (wiring circuit.old nodes.old) (wiring circuit.new nodes.new)) }
    ensures listed { OnOk result (AreListed circuit.new.bits (term_at terms.now formula)) }
{
    let whole = Part {
        at: formula,
        holds: true,
    };
    let parts = flattened(alloc, terms, whole, Join::All)?;
    for part in parts.iter() {
        assert_part(alloc, terms, circuit, nodes, *part)?;
    }
    Ok(())
}
