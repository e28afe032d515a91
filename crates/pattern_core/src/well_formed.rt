//! Whether a pattern is well-formed for a goal: each test of a part is exact, and so is the whole.

ghost use Rattle.std.specs.Prelude.{◌≡◌, ◌↔◌, ℕ, ◌+◌, ◌<◌, ◌≤◌, ◌^◌, List, length, map, Some, slice_get, IsTrue};
ghost use Rattle.std.specs.Prelude.{count_by, min, if◌then◌else◌};
ghost use Rattle.bv_terms.specs.declared.value.Sort.{Sort};
ghost use Rattle.bv_terms.specs.declared.value.Sort.TheVariants as sort;
ghost use Rattle.bv_terms.specs.WellSorted.{sort_of};
ghost use Rattle.pattern_core.specs.declared.pattern.Src.{Src};
ghost use Rattle.pattern_core.specs.declared.pattern.Src.TheVariants.{Input, Out};
ghost use Rattle.pattern_core.specs.declared.pattern.Node.{Node};
ghost use Rattle.isel_spec.specs.File.{Goal};
ghost use Rattle.isel_spec.specs.Spec.{file};
ghost use Rattle.pattern_core.specs.Pattern.{operation_sort, source_sort, Pairwise, IsFitting, AreFitting, IsOf};
ghost use Rattle.pattern_core.specs.Pattern.{IsAmong, IsUsed, same_source, times_named, IsLinearAt, IsWellFormed};

use crate::pattern::{Node, Pattern, Src};
use bv_terms::Sort;
use isel_spec::Spec;

/// The most inputs of a goal.
const MOST_INPUTS: u8 = 4;

/// The most results of an operation.
const MOST_RESULTS: u8 = 3;

/// Whether there is a sort, namely this one.
fn has_sort(found: Option<Sort>, sort: Sort) -> bool
    ensures { IsTrue result ↔ (found ≡ Some sort) }
{
    let Some(other) = found else {
        return false;
    };
    other.is_same(sort)
}

/// The sort of a result of an operation, where the file has the operation and it has the result.
fn operation_sort(spec: &Spec, op: u16, place: u8) -> Option<Sort>
    ensures { result ≡ operation_sort (file spec.now) (slice_get (file spec.now).ops op) place }
{
    let op = usize::from(op);
    if op >= spec.ops.len() {
        return None;
    }
    let results = spec.op(op).results.as_slice();
    let place = usize::from(place);
    if place >= results.len() {
        return None;
    }
    Some(spec.terms.sort(results[place]))
}

/// The sort of an input of the goal, where it has the input.
fn input_sort(spec: &Spec, goal: u32, input: u8) -> Option<Sort>
    requires { goal < length spec.now.goals }
    ensures { (g : Goal) → slice_get (file spec.now).goals goal ≡ Some g → result ≡ slice_get g.args input }
{
    let arguments = spec.goal(goal).args.as_slice();
    let input = usize::from(input);
    if input >= arguments.len() {
        return None;
    }
    let (_, sort) = arguments[input];
    Some(sort)
}

/// The sort of a source of a node or a result that stands after `count` nodes, where it has one.
fn source_sort(spec: &Spec, goal: u32, nodes: &[Node], count: usize, source: Src) -> Option<Sort>
    requires there { goal < length spec.now.goals }
    requires within { count ≤ length nodes.now }
    ensures { (g : Goal) → slice_get (file spec.now).goals goal ≡ Some g
        → result ≡ source_sort (file spec.now) g nodes.now count source }
{
    match source {
        Src::Input(input) => input_sort(spec, goal, input),
        Src::Out { node, result } => {
            let node = usize::from(node);
            if node >= count {
                return None;
            }
            operation_sort(spec, nodes[node].op, result)
        }
    }
}

/// Whether sources of a node or of results that stand after `count` nodes have these sorts.
fn have_sorts(
    spec: &Spec,
    goal: u32,
    nodes: &[Node],
    count: usize,
    sources: &[Src],
    sorts: &[Sort],
) -> bool
    requires there { goal < length spec.now.goals }
    requires within { count ≤ length nodes.now }
    ensures { (g : Goal) → slice_get (file spec.now).goals goal ≡ Some g →
        (IsTrue result
        ↔ (map (source_sort (file spec.now) g nodes.now count) sources.now ≡ map (λ (s : Sort). Some s) sorts.now)) }
{
    if sources.len() != sorts.len() {
        return false;
    }
    for place in 0..sources.len() {
        let found = source_sort(spec, goal, nodes, count, sources[place]);
        if !has_sort(found, sorts[place]) {
            return false;
        }
    }
    true
}

/// Whether the results of a pattern have the sorts of the goal's results.
fn have_result_sorts(spec: &Spec, goal: u32, nodes: &[Node], sources: &[Src]) -> bool
    requires { goal < length spec.now.goals }
    ensures { (g : Goal) → slice_get (file spec.now).goals goal ≡ Some g →
        (IsTrue result
        ↔ (map (source_sort (file spec.now) g nodes.now (length nodes.now)) sources.now
        ≡ map (sort_of spec.now.pointer) g.results)) }
{
    let results = spec.goal(goal).results.as_slice();
    if sources.len() != results.len() {
        return false;
    }
    for place in 0..sources.len() {
        let found = source_sort(spec, goal, nodes, nodes.len(), sources[place]);
        if !has_sort(found, spec.terms.sort(results[place])) {
            return false;
        }
    }
    true
}

/// Whether a number is below 2^width.
fn is_within(width: u8, number: u64) -> bool
    ensures { IsTrue result ↔ (number < 2 ^ width) }
{
    if width < 64 {
        number < 1 << width
    } else {
        true
    }
}

/// Whether there is a number for each width, below 2^width.
fn are_within(widths: &[u8], numbers: &[u64]) -> bool
    ensures { IsTrue result ↔ Pairwise (λ w a. a < 2 ^ w) widths.now numbers.now }
{
    if widths.len() != numbers.len() {
        return false;
    }
    for place in 0..widths.len() {
        if !is_within(widths[place], numbers[place]) {
            return false;
        }
    }
    true
}

/// Whether a node's operation is in the file, and its attributes and arguments fit.
fn is_fitting(spec: &Spec, goal: u32, nodes: &[Node], place: usize) -> bool
    requires there { goal < length spec.now.goals }
    requires within { place < length nodes.now }
    ensures { (g : Goal) → slice_get (file spec.now).goals goal ≡ Some g →
        (n : Node) → slice_get nodes.now place ≡ Some n
        → (IsTrue result ↔ IsFitting (file spec.now) g nodes.now place n) }
{
    let node = &nodes[place];
    let op = usize::from(node.op);
    if op >= spec.ops.len() {
        return false;
    }
    let operation = spec.op(op);
    if !are_within(operation.attrs.as_slice(), node.attrs.as_slice()) {
        return false;
    }
    let arguments = node.args.as_slice();
    have_sorts(
        spec,
        goal,
        nodes,
        place,
        arguments,
        operation.args.as_slice(),
    )
}

/// Whether each node's operation is in the file, and its attributes and arguments fit.
fn are_fitting(spec: &Spec, goal: u32, nodes: &[Node]) -> bool
    requires { goal < length spec.now.goals }
    ensures { (g : Goal) → slice_get (file spec.now).goals goal ≡ Some g
        → (IsTrue result ↔ AreFitting (file spec.now) g nodes.now) }
{
    for place in 0..nodes.len() {
        if !is_fitting(spec, goal, nodes, place) {
            return false;
        }
    }
    true
}

/// Whether a source is a result of the node.
fn is_of(source: Src, node: usize) -> bool
    ensures { IsTrue result ↔ IsOf node source }
{
    match source {
        Src::Input(_) => false,
        Src::Out { node: other, .. } => usize::from(other) == node,
    }
}

/// Whether one of the sources is a result of the node.
fn is_among(sources: &[Src], node: usize) -> bool
    ensures { IsTrue result ↔ IsAmong node sources.now }
{
    for source in sources {
        if is_of(*source, node) {
            return true;
        }
    }
    false
}

/// Whether a node or a result of the pattern uses the node.
fn is_used(pattern: &Pattern, node: usize) -> bool
    ensures { IsTrue result ↔ IsUsed pattern.now node }
{
    for other in pattern.nodes.as_slice() {
        if is_among(other.args.as_slice(), node) {
            return true;
        }
    }
    is_among(pattern.results.as_slice(), node)
}

/// Whether each node of the pattern is used.
fn are_used(pattern: &Pattern) -> bool
    ensures { IsTrue result ↔ ((k : ℕ) → k < length pattern.now.nodes → IsUsed pattern.now k) }
{
    for node in 0..pattern.nodes.len() {
        if !is_used(pattern, node) {
            return false;
        }
    }
    true
}

/// Whether two sources are equal. It is a function so that clauses can name the test.
fn is_same(left: Src, right: Src) -> bool
    ensures { result ≡ same_source left right }
{
    left == right
}

/// One more than a count where a test holds; a count goes no further than 2.
fn one_more(times: u8, holds: bool) -> u8
    requires { times ≤ 2 }
    ensures { result ≡ min (times + (if holds then 1 else 0)) 2 }
{
    if holds && times < 2 { times + 1 } else { times }
}

/// How often a source is among these and was before, where 2 stands for more than once too.
fn times_among(sources: &[Src], source: Src, before: u8) -> u8
    requires { before ≤ 2 }
    ensures { result ≡ min (before + count_by (same_source source) sources.now) 2 }
{
    let mut times = before;
    for other in sources {
        times = one_more(times, is_same(source, *other));
    }
    times
}

/// How often a pattern names a source, where 2 stands for more than once too.
fn times_named(pattern: &Pattern, source: Src) -> u8
    ensures { result ≡ min (times_named pattern.now source) 2 }
{
    let mut times = 0;
    for node in pattern.nodes.as_slice() {
        times = times_among(node.args.as_slice(), source, times);
    }
    times_among(pattern.results.as_slice(), source, times)
}

/// Whether the pattern names a source once.
fn is_named_once(pattern: &Pattern, source: Src) -> bool
    ensures { IsTrue result ↔ (times_named pattern.now source ≡ 1) }
{
    times_named(pattern, source) == 1
}

/// Whether the pattern names a source once, if that is a memory.
fn is_linear_at(spec: &Spec, goal: u32, pattern: &Pattern, source: Src) -> bool
    requires { goal < length spec.now.goals }
    ensures { (g : Goal) → slice_get (file spec.now).goals goal ≡ Some g →
        (IsTrue result ↔ IsLinearAt (file spec.now) g pattern.now source) }
{
    let nodes = pattern.nodes.as_slice();
    let found = source_sort(spec, goal, nodes, nodes.len(), source);
    if !has_sort(found, Sort::Mem) {
        return true;
    }
    is_named_once(pattern, source)
}

/// Whether the pattern names each input once that is a memory.
fn are_inputs_linear(spec: &Spec, goal: u32, pattern: &Pattern) -> bool
    requires { goal < length spec.now.goals }
    ensures { (g : Goal) → slice_get (file spec.now).goals goal ≡ Some g →
        (IsTrue result ↔ ((k : ℕ) → k < 4 → IsLinearAt (file spec.now) g pattern.now (Input k))) }
{
    for input in 0..MOST_INPUTS {
        if !is_linear_at(spec, goal, pattern, Src::Input(input)) {
            return false;
        }
    }
    true
}

/// Whether the pattern names each result of a node once that is a memory.
fn is_node_linear(spec: &Spec, goal: u32, pattern: &Pattern, node: u8) -> bool
    requires { goal < length spec.now.goals }
    ensures { (g : Goal) → slice_get (file spec.now).goals goal ≡ Some g →
        (IsTrue result ↔ ((r : ℕ) → r < 3 → IsLinearAt (file spec.now) g pattern.now (Out node r))) }
{
    for place in 0..MOST_RESULTS {
        let source = Src::Out {
            node,
            result: place,
        };
        if !is_linear_at(spec, goal, pattern, source) {
            return false;
        }
    }
    true
}

/// Whether the pattern names each memory once.
fn is_linear(spec: &Spec, goal: u32, pattern: &Pattern) -> bool
    requires there { goal < length spec.now.goals }
    requires few { length pattern.now.nodes ≤ 6 }
    ensures { (g : Goal) → slice_get (file spec.now).goals goal ≡ Some g →
        (IsTrue result ↔ ((s : Src) → IsLinearAt (file spec.now) g pattern.now s)) }
{
    for node in 0..pattern.nodes.len() {
        if !is_node_linear(spec, goal, pattern, node as u8) {
            return false;
        }
    }
    are_inputs_linear(spec, goal, pattern)
}

/// Whether the pattern is well-formed for the goal in that place of the file: it has at most six
/// nodes, its operations are in the file, each attribute is below 2^width, each argument and each
/// result has a source of its sort, an input or an earlier node, each node is used by another or by a
/// result, and each memory is named once. It takes no memory.
pub fn is_well_formed(spec: &Spec, goal: u32, pattern: &Pattern) -> bool
    requires { goal < length spec.now.goals }
    ensures { (g : Goal) → slice_get (file spec.now).goals goal ≡ Some g
        → (IsTrue result ↔ IsWellFormed (file spec.now) g pattern.now) }
{
    let nodes = pattern.nodes.as_slice();
    if nodes.len() > 6 || !are_fitting(spec, goal, nodes) {
        return false;
    }
    if !is_linear(spec, goal, pattern) {
        return false;
    }
    let results = pattern.results.as_slice();
    have_result_sorts(spec, goal, nodes, results) && are_used(pattern)
}
