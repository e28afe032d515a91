//! The environment that stands for a pattern: its choices are true and all others false, its attributes are its own,
//! and those of other operations are 0.

ghost use Rattle.std.specs.Prelude.{◌≡◌, ◌<◌, ℕ, length, slice_get, Some, IfOk, unwrap_or};
ghost use Rattle.bv_terms.specs.Table.{term_at};
ghost use Rattle.bv_terms.specs.WellSorted.{InputsFit};
ghost use Rattle.isel_spec.specs.Spec.{file};
ghost use Rattle.pattern_core.specs.Claim.{Claim, IsClaim, IsPatternOf};
ghost use Rattle.pattern_core.specs.Pattern.{same_source};
ghost use Rattle.pattern_core.specs.Walk.{IsCanonical};
ghost use Rattle.pattern_core.specs.declared.pattern.Pattern.{Pattern};
ghost use Rattle.loc_encode.specs.Standing.{StandsFor, is_source, is_op, arg_at};
ghost use Rattle.loc_encode.specs.Numbers.{slot_at};
ghost use Rattle.loc_encode.specs.Parts.{IsTrueAt};
ghost use Rattle.loc_encode.specs.Encoded.{IsSought};
ghost use Rattle.loc_encode.specs.Given.{IsGiven, IsPatternFor, IsRightFor};
ghost use Rattle.loc_encode.specs.SlotValues.{attr_number, attr_value, slot_value};

use crate::encoded::Encoded;
use crate::slots::{SLOTS, Slot};
use bv_terms::{Env, Terms, Value};
use collections::Seq;
use isel_spec::Spec;
use pattern_core::{Node, Pattern, Src};
use std::alloc::{AllocError, Global};

/// Whether two sources are equal. It is a function so that clauses can name the test.
fn is_same(left: Src, right: Src) -> bool
    ensures { result ≡ same_source left right }
{
    left == right
}

/// Whether there is this source in a place.
fn is_source(sources: &[Src], place: u8, source: Src) -> bool
    ensures { result ≡ is_source (slice_get sources.now place) source }
{
    let place = usize::from(place);
    if place >= sources.len() {
        return false;
    }
    is_same(sources[place], source)
}

/// Whether the argument in a place of the node at a line comes from this source.
fn is_arg(nodes: &[Node], line: u8, place: u8, source: Src) -> bool
    ensures { result ≡ is_source (arg_at (slice_get nodes.now line) place) source }
{
    let line = usize::from(line);
    if line >= nodes.len() {
        return false;
    }
    is_source(nodes[line].args.as_slice(), place, source)
}

/// Whether the node at a line is of this operation.
fn is_op(nodes: &[Node], line: u8, op: u16) -> bool
    ensures { result ≡ is_op (slice_get nodes.now line) op }
{
    let line = usize::from(line);
    if line >= nodes.len() {
        return false;
    }
    nodes[line].op == op
}

/// The number in a place; 0 where there is none.
fn number_at(numbers: &[u64], place: u8) -> u64
    ensures { result ≡ unwrap_or (slice_get numbers.now place) 0 }
{
    let place = usize::from(place);
    if place >= numbers.len() {
        return 0;
    }
    numbers[place]
}

/// The attribute in a place of the node at a line, where that node is of the operation, and else 0.
fn attr_number(nodes: &[Node], line: u8, op: u16, place: u8) -> u64
    ensures { result ≡ attr_number (slice_get nodes.now line) op place }
{
    let line = usize::from(line);
    if line >= nodes.len() {
        return 0;
    }
    if nodes[line].op != op {
        return 0;
    }
    number_at(nodes[line].attrs.as_slice(), place)
}

/// The value of an attribute's input.
fn attr_value(spec: &Spec, nodes: &[Node], line: u8, op: u16, place: u8) -> Value
    ensures { result ≡ attr_value (slice_get (file spec.now).ops op) (slice_get nodes.now line) op place }
{
    let number = attr_number(nodes, line, op, place);
    let op = usize::from(op);
    if op >= spec.ops.len() {
        return Value::Bool(false);
    }
    let widths = spec.op(op).attrs.as_slice();
    let place = usize::from(place);
    if place >= widths.len() {
        return Value::Bool(false);
    }
    Value::Bits {
        width: widths[place],
        number,
    }
}

/// The value of a slot's input.
fn slot_value(spec: &Spec, pattern: &Pattern, slot: Slot) -> Value
    ensures { result ≡ slot_value (file spec.now) pattern.now slot }
{
    let nodes = pattern.nodes.as_slice();
    match slot {
        Slot::Kind { line, op } => Value::Bool(is_op(nodes, line, op)),
        Slot::Attr { line, op, place } => attr_value(spec, nodes, line, op, place),
        Slot::Arg {
            line,
            place,
            source,
        } => Value::Bool(is_arg(nodes, line, place, source)),
        Slot::Result { place, source } => {
            Value::Bool(is_source(pattern.results.as_slice(), place, source))
        }
    }
}

/// The values of all inputs.
fn slot_values(alloc: Global, spec: &Spec, pattern: &Pattern) -> Result<Vec<Value>, AllocError>
    ensures { IfOk result (λ v. (k : ℕ) → k < 1746
        → slice_get v.items k ≡ Some (slot_value (file spec.now) pattern.now (slot_at k))) }
{
    let mut values = Vec::new(alloc);
    for number in 0..SLOTS {
        values.push(slot_value(spec, pattern, Slot::at(number)))?;
    }
    Ok(values)
}

/// An environment that stands for the pattern, and for no other of the goal with this multiset. Where the pattern is
/// canonical, gives the goal's results at the kept examples and is no blocked one, the environment makes the formula
/// true, so that `decode` gives the pattern again. An `Err` is out of memory.
pub fn assign(
    alloc: Global,
    spec: &Spec,
    terms: &Terms,
    encoded: &Encoded,
    pattern: &Pattern,
) -> Result<Env, AllocError>
    requires given { IsGiven spec.now encoded.now.goal encoded.now.multi }
    requires right { IsRightFor spec.now encoded.now terms.now }
    requires pattern { IsPatternFor spec.now encoded.now.goal encoded.now.multi pattern.now }
    ensures stands { (c : Claim) → IsClaim spec.now encoded.now.goal encoded.now.multi c
        → IfOk result (λ env. StandsFor c env.values pattern.now) }
    ensures fits { IfOk result (λ env. InputsFit env.values (term_at terms.now encoded.now.formula)) }
    ensures holds { (c : Claim) → IsClaim spec.now encoded.now.goal encoded.now.multi c
        → IsSought c encoded.now pattern.now → IsCanonical pattern.now
        → IfOk result (λ env. IsTrueAt terms.now encoded.now.formula env.values) }
    ensures only { (c : Claim) (q : Pattern) → IsClaim spec.now encoded.now.goal encoded.now.multi c → IsPatternOf c q
        → IfOk result (λ env. StandsFor c env.values q → q ≡ pattern.now) }
{
    let _ = terms;
    // That the terms make a table, and so are well-sorted, is known from a call alone.
    spec.terms.len();
    let values = slot_values(alloc, spec, pattern)?;
    Ok(Env {
        values: Seq::from_vec(values),
    })
}
