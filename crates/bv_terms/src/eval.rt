//! One step of the evaluator: the value of an operation, where the values of its arguments stand by place.
//!
//! A place whose node has inputs without a fitting value may hold any value. So each step is safe on
//! any values, and right on those that fit.
ghost use Rattle.std.specs.Prelude.{◌≡◌, ℕ, ◌^◌, ◌<◌, ◌≤◌, List, None, All, length, [], ◌∷◌};
ghost use Rattle.std.specs.Prelude.{slice_get, take, unwrap_or, false};
ghost use Rattle.bv_terms.specs.Term.{op_value};
ghost use Rattle.bv_terms.specs.Signature.{arity, refusal};
ghost use Rattle.bv_terms.specs.Eval.{values_in, IsValueOf};

use crate::node::MOST_ARGS;
use crate::op::{Op, TermId};
use crate::value::{Sort, Value};
use crate::words;

/// The value of an operation over nodes whose values stand in `room`. The first places of `args` are its arguments.
pub(crate) fn apply(op: &Op, args: &[TermId; MOST_ARGS], inputs: &[Value], room: &[Value]) -> Value
    requires { All (λ a. a.0 < length room.now) args.now }
    ensures { IsValueOf inputs.now op.now (values_in room.now (take (arity op.now) args.now)) result }
{
    match *op {
        Op::Input { number, .. } => input(inputs, number),
        Op::Bool { value } => Value::Bool(value),
        Op::Bits { width, number } => Value::Bits { width, number },
        Op::Not
        | Op::BvNot
        | Op::BvNeg
        | Op::Extract { .. }
        | Op::ZeroExtend { .. }
        | Op::SignExtend { .. } => unary(op, room[args[0].0]),
        Op::Ite => choice(room[args[0].0], room[args[1].0], room[args[2].0]),
        Op::MLoad { .. } | Op::MMark { .. } | Op::MStore { .. } => Value::Bool(false),
        _ => binary(op, room[args[0].0], room[args[1].0]),
    }
}

/// The input of that number, or a truth value where there is none.
fn input(inputs: &[Value], number: u32) -> Value
    ensures { result ≡ unwrap_or (slice_get inputs.now number) (Value.Bool false) }
{
    match inputs.get(number as usize) {
        Some(value) => *value,
        None => Value::Bool(false),
    }
}

/// The value of an operation of one argument.
fn unary(op: &Op, value: Value) -> Value
    ensures { (inputs : List Value) → IsValueOf inputs op.now (value ∷ []) result }
{
    match value {
        Value::Bool(p) => Value::Bool(!p),
        Value::Bits { width, number } => word(op, width, number),
    }
}

/// The value of an operation of one bit-vector.
fn word(op: &Op, width: u8, s: u64) -> Value
    ensures { (p : ℕ) → refusal p op.now (Sort.Bits width ∷ []) ≡ None → width ≤ 64 → s < 2 ^ width
        → (inputs : List Value) → result ≡ op_value inputs op.now (Value.Bits width s ∷ []) }
{
    match *op {
        Op::BvNot => words::not(width, s),
        Op::BvNeg => words::neg(width, s),
        Op::Extract { high, low } => words::extract(high, low, s),
        Op::ZeroExtend { by } => words::zero_extend(width, by, s),
        Op::SignExtend { by } => words::sign_extend(width, by, s),
        _ => Value::Bool(false),
    }
}

/// The value of an operation of two arguments.
fn binary(op: &Op, first: Value, second: Value) -> Value
    ensures { (inputs : List Value) → IsValueOf inputs op.now (first ∷ second ∷ []) result }
{
    match (first, second) {
        (Value::Bool(p), Value::Bool(q)) => Value::Bool(connective(op, p, q)),
        (
            Value::Bits { width, number: s },
            Value::Bits {
                width: low_width,
                number: t,
            },
        ) => two_words(op, width, s, low_width, t),
        _ => Value::Bool(false),
    }
}

/// The value of an operation of two truth values.
fn connective(op: &Op, p: bool, q: bool) -> bool
    ensures { (inputs : List Value) → Value.Bool result ≡ op_value inputs op.now (Value.Bool p ∷ Value.Bool q ∷ []) }
{
    match *op {
        Op::And => p && q,
        Op::Or => p || q,
        Op::Xor => p != q,
        Op::Implies => !p || q,
        Op::Eq => p == q,
        _ => false,
    }
}

/// The value of an operation of two bit-vectors.
fn two_words(op: &Op, width: u8, s: u64, low_width: u8, t: u64) -> Value
    ensures { (p : ℕ) → refusal p op.now (Sort.Bits width ∷ Sort.Bits low_width ∷ []) ≡ None
        → width ≤ 64 → s < 2 ^ width → t < 2 ^ low_width → (inputs : List Value)
        → result ≡ op_value inputs op.now (Value.Bits width s ∷ Value.Bits low_width t ∷ []) }
{
    match *op {
        Op::Eq => Value::Bool(width == low_width && s == t),
        Op::BvAnd => words::and(width, s, t),
        Op::BvOr => words::or(width, s, t),
        Op::BvXor => words::xor(width, s, t),
        Op::BvAdd => words::add(width, s, t),
        Op::BvSub => words::sub(width, s, t),
        Op::BvMul => words::mul(width, s, t),
        Op::BvUdiv => words::udiv(width, s, t),
        Op::BvUrem => words::urem(width, s, t),
        Op::BvShl => words::shl(width, s, t),
        Op::BvLshr => words::lshr(width, s, t),
        Op::BvAshr => words::ashr(width, s, t),
        Op::BvUlt => Value::Bool(words::ult(s, t)),
        Op::BvUle => Value::Bool(words::ule(s, t)),
        Op::BvSlt => Value::Bool(words::slt(width, s, t)),
        Op::BvSle => Value::Bool(words::sle(width, s, t)),
        Op::Concat => words::concat(width, s, low_width, t),
        _ => Value::Bool(false),
    }
}

/// One of two values, by a condition.
fn choice(condition: Value, first: Value, second: Value) -> Value
    ensures { (inputs : List Value) → result ≡ op_value inputs Op.Ite (condition ∷ first ∷ second ∷ []) }
{
    match condition {
        Value::Bool(true) => first,
        Value::Bool(false) => second,
        Value::Bits { .. } => Value::Bool(false),
    }
}
