//! The difference from a pattern: some choice that it makes isn't made, or some attribute is another number.

ghost use Rattle.std.specs.Prelude.{◌≡◌, ◌<◌, ◌≤◌, ℕ, length, slice_get, Some, IfOk};
ghost use Rattle.bv_terms.specs.Table.{Extends};
ghost use Rattle.bv_terms.specs.declared.value.Sort.TheVariants as sort;
ghost use Rattle.isel_spec.specs.Spec.{file};
ghost use Rattle.pattern_core.specs.Claim.{Claim, IsClaim};
ghost use Rattle.pattern_core.specs.declared.pattern.Node.{Node};
ghost use Rattle.pattern_core.specs.declared.pattern.Src.{Src};
ghost use Rattle.loc_encode.specs.declared.slots.Slot.TheVariants as slot;
ghost use Rattle.loc_encode.specs.Slots.{IsSlot};
ghost use Rattle.loc_encode.specs.Matching.{NameArgs, HaveAttrs, NameResults, MatchesNode, MatchesNodes};
ghost use Rattle.loc_encode.specs.Matching.{AreNodeSlots, AreResultSlots, IsSized};
ghost use Rattle.loc_encode.specs.Condition.{IsBoth};
ghost use Rattle.loc_encode.specs.Given.{IsGiven, IsPatternFor};
ghost use Rattle.loc_encode.specs.Parts.{IsDifference};

use crate::conditions::{and_choice, and_number, made};
use crate::slots::Slot;
use bv_terms::{Op, TermId, Terms};
use isel_spec::Spec;
use multiset_rank::Multi;
use pattern_core::{Node, Pattern, Src};
use std::alloc::AllocError;

/// The earlier term, and besides that the arguments of the node at a line come from these sources.
fn and_args(
    line: u8,
    args: &[Src],
    earlier: TermId,
    terms: &mut Terms,
) -> Result<TermId, AllocError>
    requires few { length args.now ≤ 4 }
    requires there { earlier.0 < length terms.old.nodes }
    ensures extends { Extends terms.old terms.new }
    ensures there { IfOk result (λ at. at.0 < length terms.new.nodes) }
    ensures both { (c : Claim)
        → ((k : ℕ) (s : Src) → slice_get args.now k ≡ Some s → IsSlot c (slot.Arg line k s) sort.Bool)
        → IfOk result (λ at. IsBoth c terms.old earlier terms.new at (NameArgs line args.now (length args.now))) }
{
    let mut all = earlier;
    for place in 0..args.len() {
        let choice = Slot::Arg {
            line,
            place: place as u8,
            source: args[place],
        };
        all = and_choice(choice, all, terms)?;
    }
    Ok(all)
}

/// The earlier term, and besides that the attributes of the node at a line, which is of the operation, are these
/// numbers of so many bits.
fn and_attrs(
    line: u8,
    op: u16,
    widths: &[u8],
    numbers: &[u64],
    earlier: TermId,
    terms: &mut Terms,
) -> Result<TermId, AllocError>
    requires few { length widths.now ≤ 2 }
    requires same { length widths.now ≡ length numbers.now }
    requires there { earlier.0 < length terms.old.nodes }
    ensures extends { Extends terms.old terms.new }
    ensures there { IfOk result (λ at. at.0 < length terms.new.nodes) }
    ensures both { (c : Claim)
        → ((k w : ℕ) → slice_get widths.now k ≡ Some w → IsSlot c (slot.Attr line op k) (sort.Bits w))
        → IfOk result (λ at. IsBoth c terms.old earlier terms.new at
        (HaveAttrs line op widths.now numbers.now (length widths.now))) }
{
    let mut all = earlier;
    for place in 0..widths.len() {
        let attribute = Slot::Attr {
            line,
            op,
            place: place as u8,
        };
        all = and_number(attribute, widths[place], numbers[place], all, terms)?;
    }
    Ok(all)
}

/// The earlier term, and besides that the results come from these sources.
fn and_results(results: &[Src], earlier: TermId, terms: &mut Terms) -> Result<TermId, AllocError>
    requires few { length results.now ≤ 3 }
    requires there { earlier.0 < length terms.old.nodes }
    ensures extends { Extends terms.old terms.new }
    ensures there { IfOk result (λ at. at.0 < length terms.new.nodes) }
    ensures both { (c : Claim) → AreResultSlots c results.now
        → IfOk result (λ at. IsBoth c terms.old earlier terms.new at (NameResults results.now (length results.now))) }
{
    let mut all = earlier;
    for place in 0..results.len() {
        let choice = Slot::Result {
            place: place as u8,
            source: results[place],
        };
        all = and_choice(choice, all, terms)?;
    }
    Ok(all)
}

/// The earlier term, and besides that the node at a line is this one.
fn and_node(
    spec: &Spec,
    line: u8,
    node: &Node,
    earlier: TermId,
    terms: &mut Terms,
) -> Result<TermId, AllocError>
    requires sized { IsSized (file spec.now) node.now }
    requires there { earlier.0 < length terms.old.nodes }
    ensures extends { Extends terms.old terms.new }
    ensures there { IfOk result (λ at. at.0 < length terms.new.nodes) }
    ensures both { (c : Claim) → c.file ≡ file spec.now → AreNodeSlots c line node.now
        → IfOk result (λ at. IsBoth c terms.old earlier terms.new at (MatchesNode (file spec.now) line node.now)) }
{
    let op = node.op;
    let widths = spec.op(usize::from(op)).attrs.as_slice();
    let kind = and_choice(Slot::Kind { line, op }, earlier, terms)?;
    let attributes = and_attrs(line, op, widths, node.attrs.as_slice(), kind, terms)?;
    and_args(line, node.args.as_slice(), attributes, terms)
}

/// The earlier term, and besides that the nodes are these.
fn and_nodes(
    spec: &Spec,
    nodes: &[Node],
    earlier: TermId,
    terms: &mut Terms,
) -> Result<TermId, AllocError>
    requires few { length nodes.now ≤ 6 }
    requires sized { (k : ℕ) (n : Node) → slice_get nodes.now k ≡ Some n → IsSized (file spec.now) n }
    requires there { earlier.0 < length terms.old.nodes }
    ensures extends { Extends terms.old terms.new }
    ensures there { IfOk result (λ at. at.0 < length terms.new.nodes) }
    ensures both { (c : Claim) → c.file ≡ file spec.now
        → ((k : ℕ) (n : Node) → slice_get nodes.now k ≡ Some n → AreNodeSlots c k n)
        → IfOk result (λ at. IsBoth c terms.old earlier terms.new at
        (MatchesNodes (file spec.now) nodes.now (length nodes.now))) }
{
    let mut all = earlier;
    for line in 0..nodes.len() {
        all = and_node(spec, line as u8, &nodes[line], all, terms)?;
    }
    Ok(all)
}

/// The term that is true of values that stand for a pattern of the claim exactly where it is another one than this.
/// An `Err` is out of memory.
pub(crate) fn difference(
    spec: &Spec,
    goal: u32,
    multi: &Multi,
    pattern: &Pattern,
    terms: &mut Terms,
) -> Result<TermId, AllocError>
    requires given { IsGiven spec.now goal multi.now }
    requires pattern { IsPatternFor spec.now goal multi.now pattern.now }
    ensures extends { Extends terms.old terms.new }
    ensures difference { (c : Claim) → IsClaim spec.now goal multi.now c
        → IfOk result (IsDifference c pattern.now terms.new) }
{
    // That the terms make a table, and so are well-sorted, is known from a call alone.
    spec.terms.len();
    let always = made(Op::Bool { value: true }, &[], terms)?;
    let nodes = and_nodes(spec, pattern.nodes.as_slice(), always, terms)?;
    let same = and_results(pattern.results.as_slice(), nodes, terms)?;
    made(Op::Not, &[same], terms)
}
