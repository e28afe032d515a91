//! What patterns and goals compute on a file that was read.

ghost use Rattle.std.specs.Prelude.{◌≡◌, ◌<◌, length, Some, IsTrue, map, slice_get};
ghost use Rattle.bv_terms.specs.Sorts.{HasSort, HaveSorts};
ghost use Rattle.isel_spec.specs.File.{Goal};
ghost use Rattle.isel_spec.specs.Spec.{file};

use bv_terms::{Sort, Value};
use collections::Seq;
use isel_spec::{Kind, Spec};
use pattern_core::{Node, Pattern, Src, eval, eval_goal, is_well_formed};
use spec_reader::read_spec;
use std::alloc::{AllocError, Global};
use std::test::Fail;

const OR1: &str = "(isel-spec 1 32) \
    (op ior1 ((a (_ BitVec 1)) (b (_ BitVec 1))) () ((bvor a b))) \
    (op xor1 ((a (_ BitVec 1)) (b (_ BitVec 1))) () ((bvxor a b))) \
    (goal or1 ((reg a (_ BitVec 1)) (reg b (_ BitVec 1))) 1 ((bvor a b)))";

/// Whether a value is one bit, and so is the sort.
fn is_bit(sort: Sort, value: Value) -> bool
    ensures { IsTrue result → HasSort sort value }
{
    let Sort::Bits(1) = sort else {
        return false;
    };
    let Value::Bits { width: 1, number } = value else {
        return false;
    };
    number < 2
}

/// Whether there are two arguments and two values, each of one bit.
fn are_two_bits(args: &[(Kind, Sort)], values: &[Value]) -> bool
    ensures { IsTrue result → HaveSorts (map (λ a. a.1) args.now) values.now }
{
    let [first, second] = args else {
        return false;
    };
    let [one, other] = values else {
        return false;
    };
    is_bit(first.1, *one) && is_bit(second.1, *other)
}

/// Whether the values fit the first goal.
fn do_inputs_fit(spec: &Spec, values: &[Value]) -> bool
    ensures { IsTrue result → (g : Goal) → slice_get (file spec.now).goals 0 ≡ Some g → HaveSorts g.args values.now }
{
    match spec.goals.get(0) {
        Some((_, goal)) => are_two_bits(goal.args.as_slice(), values),
        None => false,
    }
}

fn bit(number: u64) -> Value {
    Value::Bits { width: 1, number }
}

/// The pattern of that operation over both inputs.
fn pattern_of(alloc: Global, op: u16) -> Result<Pattern, AllocError> {
    let args = Vec::from_slice(alloc, &[Src::Input(0), Src::Input(1)])?;
    let node = Node {
        op,
        attrs: Seq::new(alloc),
        args: Seq::from_vec(args),
    };
    let mut nodes = Seq::new(alloc);
    nodes.push(node)?;
    let results = Vec::from_slice(alloc, &[Src::Out { node: 0, result: 0 }])?;
    Ok(Pattern {
        nodes,
        results: Seq::from_vec(results),
    })
}

/// Whether the pattern is one for the first goal, and gives that bit.
fn gives(
    alloc: Global,
    spec: &Spec,
    pattern: &Pattern,
    inputs: &[Value],
    wanted: u64,
) -> Result<bool, AllocError>
    requires there { 0 < length spec.now.goals }
    requires inputs { (g : Goal) → slice_get (file spec.now).goals 0 ≡ Some g → HaveSorts g.args inputs.now }
{
    if !is_well_formed(spec, 0, pattern) {
        return Ok(false);
    }
    let found = eval(alloc, spec, 0, pattern, inputs)?;
    Ok(found.as_slice() == [bit(wanted)].as_slice())
}

/// Two inputs, what the goal and the pattern of the same operation give, and what the other pattern gives.
type Case = (u64, u64, u64, u64);

const CASES: [Case; 4] = [(0, 0, 0, 0), (0, 1, 1, 1), (1, 0, 1, 1), (1, 1, 1, 0)];

/// Whether the goal gives that bit.
fn goal_gives(alloc: Global, spec: &Spec, inputs: &[Value], wanted: u64) -> Result<bool, AllocError>
    requires there { 0 < length spec.now.goals }
    requires inputs { (g : Goal) → slice_get (file spec.now).goals 0 ≡ Some g → HaveSorts g.args inputs.now }
{
    let found = eval_goal(alloc, spec, 0, inputs)?;
    Ok(found.as_slice() == [bit(wanted)].as_slice())
}

/// Whether the goal and both patterns have their values at the inputs of a case.
fn is_right(
    alloc: Global,
    spec: &Spec,
    or: &Pattern,
    xor: &Pattern,
    case: Case,
) -> Result<bool, AllocError>
    requires there { 0 < length spec.now.goals }
{
    let (a, b, by_or, by_xor) = case;
    let inputs = [bit(a), bit(b)];
    if !do_inputs_fit(spec, &inputs) || !goal_gives(alloc, spec, &inputs, by_or)? {
        return Ok(false);
    }
    Ok(gives(alloc, spec, or, &inputs, by_or)? && gives(alloc, spec, xor, &inputs, by_xor)?)
}

/// Whether they have them in all cases.
fn are_right(alloc: Global, spec: &Spec) -> Result<bool, AllocError> {
    if spec.goals.len() != 1 {
        return Ok(false);
    }
    let or = pattern_of(alloc, 0)?;
    let xor = pattern_of(alloc, 1)?;
    for case in CASES {
        if !is_right(alloc, spec, &or, &xor, case)? {
            return Ok(false);
        }
    }
    Ok(true)
}

#[test]
fn patterns_and_goals_have_their_values(rt: HostRuntime) -> Result<(), Fail> {
    let spec = read_spec(rt.alloc(), OR1.as_bytes())
        .ok()
        .ok_or("the file is read")?;
    assert!(rt; are_right(rt.alloc(), &spec)?);
    Ok(())
}
