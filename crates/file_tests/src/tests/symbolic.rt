//! Patterns and goals of a file that was read as terms over two inputs: one table has equal terms once, so they are
//! compared by their nodes.

ghost use Rattle.std.specs.Prelude.{◌≡◌, ◌<◌, length, map, Some, IsTrue, slice_get};
ghost use Rattle.bv_terms.specs.WellSorted.{sort_of};
ghost use Rattle.bv_terms.specs.Table.{term_at};
ghost use Rattle.isel_spec.specs.File.{Goal};
ghost use Rattle.isel_spec.specs.Spec.{file};
ghost use Rattle.pattern_core.specs.Symbolic.{AreIn};

use bv_terms::{Op, Sort, TermId, Terms};
use collections::Seq;
use isel_spec::{Kind, Spec};
use pattern_core::{Node, Pattern, Src, as_terms, goal_terms, is_well_formed};
use spec_reader::read_spec;
use std::alloc::{AllocError, Global};
use std::test::Fail;

const LESS: &str = "(isel-spec 1 32) \
    (op sub2 ((a (_ BitVec 2)) (b (_ BitVec 2))) () ((bvsub a b))) \
    (op plus2 ((a (_ BitVec 2))) ((k (_ BitVec 2))) ((bvadd a k))) \
    (goal less2 ((reg a (_ BitVec 2)) (reg b (_ BitVec 2))) 1 ((bvadd (bvsub b a) #b11)))";

/// Whether a node's term is of the sort.
fn has_sort(terms: &Terms, at: TermId, sort: Sort) -> bool
    requires { at.0 < length terms.now.nodes }
    ensures { IsTrue result → sort_of terms.now.pointer (term_at terms.now at) ≡ Some sort }
{
    terms.sort(at).is_same(sort)
}

/// Whether there are two arguments and two nodes of the table, of their sorts.
fn are_two(terms: &Terms, args: &[(Kind, Sort)], inputs: &[TermId]) -> bool
    ensures within { IsTrue result → AreIn terms.now inputs.now }
    ensures sorts { IsTrue result → map (sort_of terms.now.pointer) (map (term_at terms.now) inputs.now)
        ≡ map (λ s. Some s) (map (λ a. a.1) args.now) }
{
    let [first, second] = args else {
        return false;
    };
    let [one, other] = inputs else {
        return false;
    };
    if one.0 >= terms.len() || other.0 >= terms.len() {
        return false;
    }
    has_sort(terms, *one, first.1) && has_sort(terms, *other, second.1)
}

/// Whether the nodes can stand for the inputs of the first goal.
fn do_terms_fit(spec: &Spec, terms: &Terms, inputs: &[TermId]) -> bool
    ensures pointer { IsTrue result → terms.now.pointer ≡ spec.now.pointer }
    ensures within { IsTrue result → AreIn terms.now inputs.now }
    ensures sorts { IsTrue result → (g : Goal) → slice_get (file spec.now).goals 0 ≡ Some g
        → map (sort_of terms.now.pointer) (map (term_at terms.now) inputs.now) ≡ map (λ s. Some s) g.args }
{
    if terms.pointer() != spec.pointer {
        return false;
    }
    match spec.goals.get(0) {
        Some((_, goal)) => are_two(terms, goal.args.as_slice(), inputs),
        None => false,
    }
}

/// The nodes of the first goal's results, where the inputs fit it.
fn goal_nodes(
    alloc: Global,
    spec: &Spec,
    inputs: &[TermId],
    terms: &mut Terms,
) -> Result<Option<Vec<TermId>>, AllocError>
    requires { 0 < length spec.now.goals }
{
    if !do_terms_fit(spec, terms, inputs) {
        return Ok(None);
    }
    let nodes = goal_terms(alloc, spec, 0, inputs, terms)?;
    Ok(Some(nodes))
}

/// The nodes of a pattern's results, where the inputs and the pattern fit the first goal.
fn pattern_nodes(
    alloc: Global,
    spec: &Spec,
    pattern: &Pattern,
    inputs: &[TermId],
    terms: &mut Terms,
) -> Result<Option<Vec<TermId>>, AllocError>
    requires { 0 < length spec.now.goals }
{
    if !do_terms_fit(spec, terms, inputs) {
        return Ok(None);
    }
    if !is_well_formed(spec, 0, pattern) {
        return Ok(None);
    }
    let nodes = as_terms(alloc, spec, 0, pattern, inputs, terms)?;
    Ok(Some(nodes))
}

/// The node of the input of that number.
fn input(terms: &mut Terms, number: u32) -> Result<TermId, AllocError> {
    let sort = Sort::Bits(2);
    match terms.make(Op::Input { number, sort }, &[]) {
        Ok(node) => Ok(node),
        Err(_) => Err(AllocError),
    }
}

/// The first operation over two inputs, and the second one over it and a number.
fn pattern_of(alloc: Global, inputs: [u8; 2], number: u64) -> Result<Pattern, AllocError> {
    let [first, second] = inputs;
    let over_inputs = Vec::from_slice(alloc, &[Src::Input(first), Src::Input(second)])?;
    let over_node = Vec::from_slice(alloc, &[Src::Out { node: 0, result: 0 }])?;
    let numbers = Vec::from_slice(alloc, &[number])?;
    let mut nodes = Seq::new(alloc);
    nodes.push(Node {
        op: 0,
        attrs: Seq::new(alloc),
        args: Seq::from_vec(over_inputs),
    })?;
    nodes.push(Node {
        op: 1,
        attrs: Seq::from_vec(numbers),
        args: Seq::from_vec(over_node),
    })?;
    let results = Vec::from_slice(alloc, &[Src::Out { node: 1, result: 0 }])?;
    Ok(Pattern {
        nodes,
        results: Seq::from_vec(results),
    })
}

/// Whether the pattern and the first goal are the same terms; `None` where they cannot be made.
fn are_same(alloc: Global, spec: &Spec, pattern: &Pattern) -> Result<Option<bool>, AllocError> {
    if spec.goals.len() == 0 {
        return Ok(None);
    }
    let mut terms = Terms::new(alloc, 32);
    let inputs = [input(&mut terms, 0)?, input(&mut terms, 1)?];
    let Some(of_goal) = goal_nodes(alloc, spec, &inputs, &mut terms)? else {
        return Ok(None);
    };
    let Some(of_pattern) = pattern_nodes(alloc, spec, pattern, &inputs, &mut terms)? else {
        return Ok(None);
    };
    Ok(Some(of_goal.as_slice() == of_pattern.as_slice()))
}

/// The inputs under the first operation, the attribute of the second, and whether that is the goal.
const CASES: [([u8; 2], u64, bool); 3] = [
    ([1, 0], 3, true),
    ([0, 1], 3, false),
    ([1, 0], 2, false),
];

#[test]
fn patterns_and_goals_are_terms(rt: HostRuntime) -> Result<(), Fail> {
    let spec = read_spec(rt.alloc(), LESS.as_bytes())
        .ok()
        .ok_or("the file is read")?;
    for (inputs, number, wanted) in CASES {
        let pattern = pattern_of(rt.alloc(), inputs, number)?;
        assert!(rt; are_same(rt.alloc(), &spec, &pattern)? == Some(wanted));
    }
    Ok(())
}
