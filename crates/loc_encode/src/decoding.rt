//! The pattern for which values of the formula's inputs stand: the choices that are made, and the attributes.

ghost use Rattle.std.specs.Prelude.{◌≡◌, ◌↔◌, ◌<◌, ◌≤◌, ℕ, List, All, Contains, length, take, slice_get, Some, IfOk};
ghost use Rattle.std.specs.Prelude.{IsTrue, true};
ghost use Rattle.bv_terms.specs.declared.value.Sort.{Sort};
ghost use Rattle.bv_terms.specs.declared.value.Value.TheVariants as val;
ghost use Rattle.bv_terms.specs.Table.{IsTable, term_at};
ghost use Rattle.bv_terms.specs.WellSorted.{sort_of, InputsFit};
ghost use Rattle.isel_spec.specs.File.{Goal};
ghost use Rattle.isel_spec.specs.Spec.{file};
ghost use Rattle.pattern_core.specs.Claim.{Claim, IsClaim, IsPatternOf};
ghost use Rattle.pattern_core.specs.declared.pattern.Node.{Node};
ghost use Rattle.pattern_core.specs.declared.pattern.Pattern.{Pattern};
ghost use Rattle.pattern_core.specs.declared.pattern.Src.{Src};
ghost use Rattle.pattern_core.specs.declared.pattern.Src.TheVariants.{Input};
ghost use Rattle.pattern_core.specs.Pattern.{source_sort};
ghost use Rattle.loc_encode.specs.declared.slots.Slot.TheVariants as slot;
ghost use Rattle.loc_encode.specs.Slots.{slot_number};
ghost use Rattle.loc_encode.specs.Standing.{StandsFor};
ghost use Rattle.loc_encode.specs.Parts.{IsTrueAt};
ghost use Rattle.loc_encode.specs.Encoded.{IsSought};
ghost use Rattle.loc_encode.specs.Given.{IsGiven, IsRightFor};
ghost use Rattle.loc_encode.specs.SlotValues.{truth_in, number_in, IsChosenOp, IsChosenSource};

use crate::encoded::Encoded;
use crate::slots::{SOURCES, Slot, source_at};
use crate::source_sorts::source_sort;
use bv_terms::{Env, Sort, TermId, Terms, Value};
use collections::Seq;
use isel_spec::Spec;
use pattern_core::{Node, Pattern, Src};
use std::alloc::{AllocError, Global};

/// Whether the value of an input is true.
fn is_true(values: &[Value], number: u32) -> bool
    ensures { result ≡ truth_in (slice_get values.now number) }
{
    let number = number as usize;
    if number >= values.len() {
        return false;
    }
    match values[number] {
        Value::Bool(truth) => truth,
        Value::Bits { .. } => false,
    }
}

/// The number of the bit-vector that the value of an input is; 0 where it is none.
fn number_of(values: &[Value], number: u32) -> u64
    ensures { result ≡ number_in (slice_get values.now number) }
{
    let number = number as usize;
    if number >= values.len() {
        return 0;
    }
    match values[number] {
        Value::Bool(_) => 0,
        Value::Bits { number, .. } => number,
    }
}

/// The operation that is chosen at a line.
fn op_at(ops: &[u16], values: &[Value], line: u8) -> u16
    requires { 0 < length ops.now }
    ensures among { Contains ops.now result }
    ensures chosen { (op : ℕ) → IsChosenOp values.now line ops.now op → result ≡ op }
{
    for place in 0..ops.len() {
        let op = ops[place];
        if is_true(values, Slot::Kind { line, op }.number()) {
            return op;
        }
    }
    ops[0]
}

/// Whether a sort is this one, where there is one.
fn is_sort(found: Option<Sort>, sort: Sort) -> bool
    ensures { IsTrue result ↔ (found ≡ Some sort) }
{
    let Some(other) = found else {
        return false;
    };
    other.is_same(sort)
}

/// Whether a source is of the sort, and its choice is made.
fn is_chosen(
    spec: &Spec,
    goal: u32,
    nodes: &[Node],
    sort: Sort,
    values: &[Value],
    source: Src,
    number: u32,
) -> bool
    requires { goal < length spec.now.goals }
    ensures { (g : Goal) → slice_get (file spec.now).goals goal ≡ Some g
        → (IsTrue result ↔ ((source_sort (file spec.now) g nodes.now (length nodes.now) source ≡ Some sort)
        × (truth_in (slice_get values.now number) ≡ true))) }
{
    let found = source_sort(spec, goal, nodes, source);
    if !is_sort(found, sort) {
        return false;
    }
    is_true(values, number)
}

/// The source of a sort that is chosen among those that may be named after these nodes, where the choices of the place
/// have numbers from the first on.
fn source_of(
    spec: &Spec,
    goal: u32,
    nodes: &[Node],
    sort: Sort,
    values: &[Value],
    first: u32,
) -> Src
    requires there { goal < length spec.now.goals }
    requires small { first < 100000 }
    requires few { length nodes.now ≤ 6 }
    ensures { (g : Goal) (s : Src) → slice_get (file spec.now).goals goal ≡ Some g
        → IsChosenSource (file spec.now) g nodes.now sort values.now first s → result ≡ s }
{
    for number in 0..SOURCES {
        let source = source_at(number);
        if is_chosen(spec, goal, nodes, sort, values, source, first + number) {
            return source;
        }
    }
    Src::Input(0)
}

/// The attributes of the operation at a line.
fn attrs_at(
    alloc: Global,
    widths: &[u8],
    line: u8,
    op: u16,
    values: &[Value],
) -> Result<Seq<u64>, AllocError>
    requires { length widths.now ≤ 2 }
    ensures { (numbers : List ℕ) → length numbers ≡ length widths.now
        → ((k w a : ℕ) → slice_get widths.now k ≡ Some w → slice_get numbers k ≡ Some a
        → slice_get values.now (slot_number (slot.Attr line op k)) ≡ Some (val.Bits w a))
        → IfOk result (λ r. r ≡ numbers) }
{
    let mut numbers = Vec::new(alloc);
    for place in 0..widths.len() {
        let attribute = Slot::Attr {
            line,
            op,
            place: place as u8,
        };
        numbers.push(number_of(values, attribute.number()))?;
    }
    Ok(Seq::from_vec(numbers))
}

/// The sources of the arguments of these sorts at a line, after these nodes.
fn args_at(
    alloc: Global,
    spec: &Spec,
    goal: u32,
    nodes: &[Node],
    line: u8,
    sorts: &[Sort],
    values: &[Value],
) -> Result<Seq<Src>, AllocError>
    requires there { goal < length spec.now.goals }
    requires few { length nodes.now ≤ 6 }
    requires sorts { length sorts.now ≤ 4 }
    ensures { (g : Goal) (args : List Src) → slice_get (file spec.now).goals goal ≡ Some g
        → length args ≡ length sorts.now
        → ((k : ℕ) (t : Sort) (s : Src) → slice_get sorts.now k ≡ Some t → slice_get args k ≡ Some s
        → IsChosenSource (file spec.now) g nodes.now t values.now
        (slot_number (slot.Arg line k (Input 0))) s)
        → IfOk result (λ r. r ≡ args) }
{
    let mut args = Vec::new(alloc);
    for place in 0..sorts.len() {
        let first = Slot::Arg {
            line,
            place: place as u8,
            source: Src::Input(0),
        };
        args.push(source_of(spec, goal, nodes, sorts[place], values, first.number()))?;
    }
    Ok(Seq::from_vec(args))
}

/// The sources of the results, whose terms are these of the file.
fn results_at(
    alloc: Global,
    spec: &Spec,
    goal: u32,
    nodes: &[Node],
    results: &[TermId],
    values: &[Value],
) -> Result<Seq<Src>, AllocError>
    requires there { goal < length spec.now.goals }
    requires few { length nodes.now ≤ 6 }
    requires results { length results.now ≤ 3 }
    requires terms { All (λ at. at.0 < length spec.now.terms.nodes) results.now }
    ensures { (g : Goal) (sources : List Src) → slice_get (file spec.now).goals goal ≡ Some g
        → length sources ≡ length results.now
        → ((k : ℕ) (at : _) (t : Sort) (s : Src) → slice_get results.now k ≡ Some at
        → sort_of spec.now.terms.pointer (term_at spec.now.terms at) ≡ Some t → slice_get sources k ≡ Some s
        → IsChosenSource (file spec.now) g nodes.now t values.now (slot_number (slot.Result k (Input 0))) s)
        → IfOk result (λ r. r ≡ sources) }
{
    let mut sources = Vec::new(alloc);
    for place in 0..results.len() {
        let first = Slot::Result {
            place: place as u8,
            source: Src::Input(0),
        };
        let sort = spec.terms.sort(results[place]);
        sources.push(source_of(spec, goal, nodes, sort, values, first.number()))?;
    }
    Ok(Seq::from_vec(sources))
}

/// The node at a line, after those of the earlier lines.
fn node_at(
    alloc: Global,
    spec: &Spec,
    goal: u32,
    ops: &[u16],
    nodes: &[Node],
    line: u8,
    values: &[Value],
) -> Result<Node, AllocError>
    requires given { IsGiven spec.now goal ops.now }
    requires after { length nodes.now ≡ line }
    requires line { line < length ops.now }
    requires few { length ops.now ≤ 6 }
    ensures { (c : Claim) (p : Pattern) (n : Node) → IsClaim spec.now goal ops.now c → IsPatternOf c p
        → StandsFor c values.now p → nodes.now ≡ take line p.nodes → slice_get p.nodes line ≡ Some n
        → IfOk result (λ r. r ≡ n) }
{
    let op = op_at(ops, values, line);
    let definition = spec.op(usize::from(op));
    let attrs = attrs_at(alloc, definition.attrs.as_slice(), line, op, values)?;
    let args = args_at(
        alloc,
        spec,
        goal,
        nodes,
        line,
        definition.args.as_slice(),
        values,
    )?;
    Ok(Node { op, attrs, args })
}

/// The nodes at all lines.
fn nodes_at(
    alloc: Global,
    spec: &Spec,
    goal: u32,
    ops: &[u16],
    values: &[Value],
) -> Result<Vec<Node>, AllocError>
    requires given { IsGiven spec.now goal ops.now }
    requires few { length ops.now ≤ 6 }
    ensures few { IfOk result (λ v. length v.items ≤ 6) }
    ensures nodes { (c : Claim) (p : Pattern) → IsClaim spec.now goal ops.now c → IsPatternOf c p
        → StandsFor c values.now p → IfOk result (λ v. v.items ≡ p.nodes) }
{
    let mut nodes = Vec::new(alloc);
    for line in 0..ops.len() {
        let node = node_at(alloc, spec, goal, ops, nodes.as_slice(), line as u8, values)?;
        nodes.push(node)?;
    }
    Ok(nodes)
}

/// The pattern for which the values stand.
fn pattern_of(
    alloc: Global,
    spec: &Spec,
    goal: u32,
    ops: &[u16],
    values: &[Value],
) -> Result<Pattern, AllocError>
    requires given { IsGiven spec.now goal ops.now }
    requires few { length ops.now ≤ 6 }
    ensures { (c : Claim) (p : Pattern) → IsClaim spec.now goal ops.now c → IsPatternOf c p
        → StandsFor c values.now p → IfOk result (λ r. r ≡ p) }
{
    let nodes = nodes_at(alloc, spec, goal, ops, values)?;
    let terms = spec.goal(goal).results.as_slice();
    let results = results_at(alloc, spec, goal, nodes.as_slice(), terms, values)?;
    Ok(Pattern {
        nodes: Seq::from_vec(nodes),
        results,
    })
}

/// The pattern for which an environment stands that makes the formula true: one of the goal with the multiset, its
/// nodes in the order of the lines, that gives the goal's results at each kept example and is no blocked one. An `Err`
/// is out of memory.
pub fn decode(
    alloc: Global,
    spec: &Spec,
    terms: &Terms,
    encoded: &Encoded,
    env: &Env,
) -> Result<Pattern, AllocError>
    requires given { IsGiven spec.now encoded.now.goal encoded.now.multi }
    requires right { IsRightFor spec.now encoded.now terms.now }
    requires fits { InputsFit env.now.values (term_at terms.now encoded.now.formula) }
    requires holds { IsTrueAt terms.now encoded.now.formula env.now.values }
    ensures sought { (c : Claim) → IsClaim spec.now encoded.now.goal encoded.now.multi c
        → IfOk result (IsSought c encoded.now) }
    ensures stands { (c : Claim) → IsClaim spec.now encoded.now.goal encoded.now.multi c
        → IfOk result (StandsFor c env.now.values) }
{
    let ops = encoded.multi.ops();
    pattern_of(alloc, spec, encoded.goal, ops, env.values.as_slice())
}
