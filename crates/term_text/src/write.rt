//! The text of terms. A term may be nested too deeply for a recursion, so what is still to be written is a stack.

ghost use Rattle.std.specs.Prelude.{◌≡◌, ◌<◌, ◌≤◌, ◌+◌, ◌^◌, ◌++◌, ◌∷◌, [], IfOk, OnOk, Ok, map, length, reverse};
ghost use Rattle.std.specs.String.{string_bytes};
ghost use Rattle.bv_terms.specs.Table.{term_at};
ghost use Rattle.sexp_read.specs.Tree.{Tree};
ghost use Rattle.term_text.specs.Reading.{Scope, term_read};
ghost use Rattle.term_text.specs.Text.{constant_text, op_text, term_text, InputsAreNamed, InputsAreInScope, IsTextOf};
ghost use Rattle.term_text.specs.Writing.{piece_text, stack_text, piece_size, stack_size, term_size};
ghost use Rattle.term_text.specs.Writing.{IsPiece, ArePieces};

use bv_terms::{Op, TermId, Terms};
use std::alloc::{AllocError, Global};

/// The most bytes of a text.
const MOST_BYTES: usize = 1 << 30;

/// A piece of a term's text.
#[derive(Clone, Copy)]
pub(crate) enum Piece {
    /// A space and the text of a node's term.
    Operand(TermId),
    /// The parenthesis that ends an operation.
    Close,
}

/// Adds a constant, or the name of an input.
fn push_constant(out: &mut String, names: &[String], op: Op) -> Result<(), AllocError>
    ensures { OnOk result (string_bytes out.new
        ≡ string_bytes out.old ++ constant_text (map string_bytes names.now) op) }
{
    match op {
        Op::Input { number, .. } => match names.get(number as usize) {
            Some(name) => out.push_str(name),
            None => Ok(()),
        },
        Op::Bool { value: true } => out.push_str("true"),
        Op::Bool { value: false } => out.push_str("false"),
        Op::Bits { width, number } => write!(out, "(_ bv{number} {width})"),
        _ => Ok(()),
    }
}

/// Adds the head of an operation's list.
fn push_op(out: &mut String, op: Op) -> Result<(), AllocError>
    ensures { OnOk result (string_bytes out.new ≡ string_bytes out.old ++ op_text op) }
{
    match op {
        Op::Not => out.push_str("not"),
        Op::And => out.push_str("and"),
        Op::Or => out.push_str("or"),
        Op::Xor => out.push_str("xor"),
        Op::Implies => out.push_str("=>"),
        Op::Eq => out.push_str("="),
        Op::Ite => out.push_str("ite"),
        Op::BvNot => out.push_str("bvnot"),
        Op::BvNeg => out.push_str("bvneg"),
        Op::BvAnd => out.push_str("bvand"),
        Op::BvOr => out.push_str("bvor"),
        Op::BvXor => out.push_str("bvxor"),
        Op::BvAdd => out.push_str("bvadd"),
        Op::BvSub => out.push_str("bvsub"),
        Op::BvMul => out.push_str("bvmul"),
        Op::BvUdiv => out.push_str("bvudiv"),
        Op::BvUrem => out.push_str("bvurem"),
        Op::BvShl => out.push_str("bvshl"),
        Op::BvLshr => out.push_str("bvlshr"),
        Op::BvAshr => out.push_str("bvashr"),
        Op::BvUlt => out.push_str("bvult"),
        Op::BvUle => out.push_str("bvule"),
        Op::BvSlt => out.push_str("bvslt"),
        Op::BvSle => out.push_str("bvsle"),
        Op::Concat => out.push_str("concat"),
        Op::Extract { high, low } => write!(out, "(_ extract {high} {low})"),
        Op::ZeroExtend { by } => write!(out, "(_ zero_extend {by})"),
        Op::SignExtend { by } => write!(out, "(_ sign_extend {by})"),
        Op::MLoad { bytes } => write!(out, "mload {bytes}"),
        Op::MMark { bytes } => write!(out, "mmark {bytes}"),
        Op::MStore { bytes } => write!(out, "mstore {bytes}"),
        _ => Ok(()),
    }
}

/// Puts operands on the stack, the first one uppermost.
fn push_operands(stack: &mut Vec<Piece>, args: &[TermId]) -> Result<(), AllocError>
    ensures { OnOk result (stack.new.items ≡ stack.old.items ++ map Piece.Operand (reverse args.now)) }
{
    for place in (0..args.len()).rev() {
        stack.push(Piece::Operand(args[place]))?;
    }
    Ok(())
}

/// Writes how a node's term begins, and puts what follows of it on the stack.
fn begin(
    out: &mut String,
    stack: &mut Vec<Piece>,
    terms: &Terms,
    at: TermId,
    names: &[String],
) -> Result<(), AllocError>
    requires there { at.0 < length terms.now.nodes }
    requires pieces { ArePieces terms.now stack.old.items }
    ensures text { let names = map string_bytes names.now in
        OnOk result (string_bytes out.new ++ stack_text names terms.now stack.new.items
        ≡ string_bytes out.old ++ term_text names (term_at terms.now at)
        ++ stack_text names terms.now stack.old.items) }
    ensures less { OnOk result (stack_size terms.now stack.new.items
        < stack_size terms.now stack.old.items + term_size (term_at terms.now at)) }
    ensures pieces { OnOk result (ArePieces terms.now stack.new.items) }
{
    // What the table keeps: the arguments of a node are earlier nodes.
    let _ = terms.len();
    let (op, args) = terms.node(at);
    if args.is_empty() {
        return push_constant(out, names, *op);
    }
    out.push_str("(")?;
    push_op(out, *op)?;
    stack.push(Piece::Close)?;
    push_operands(stack, args)
}

/// Writes a piece, or how it begins, and puts what follows of it on the stack.
fn write_piece(
    out: &mut String,
    stack: &mut Vec<Piece>,
    terms: &Terms,
    piece: Piece,
    names: &[String],
) -> Result<(), AllocError>
    requires piece { IsPiece terms.now piece }
    requires pieces { ArePieces terms.now stack.old.items }
    ensures text { let names = map string_bytes names.now in
        OnOk result (string_bytes out.new ++ stack_text names terms.now stack.new.items
        ≡ string_bytes out.old ++ piece_text names terms.now piece ++ stack_text names terms.now stack.old.items) }
    ensures less { OnOk result (stack_size terms.now stack.new.items
        < stack_size terms.now stack.old.items + piece_size terms.now piece) }
    ensures pieces { OnOk result (ArePieces terms.now stack.new.items) }
{
    match piece {
        Piece::Operand(at) => {
            out.push_str(" ")?;
            begin(out, stack, terms, at, names)
        }
        Piece::Close => out.push_str(")"),
    }
}

/// The text of a node's term, where input `k` has the name in place `k`. Each operation is written by its operator, and
/// a bit-vector as `(_ bvX n)`. An `Err` is out of memory, also for a text of more than 2^30 bytes.
pub fn write_term(
    alloc: Global,
    terms: &Terms,
    at: TermId,
    names: &[String],
) -> Result<String, AllocError>
    requires there { at.0 < length terms.now.nodes }
    requires named { InputsAreNamed (map string_bytes names.now) (term_at terms.now at) }
    ensures text { IfOk result
        (λ text. string_bytes text ≡ term_text (map string_bytes names.now) (term_at terms.now at)) }
    ensures short { IfOk result (λ text. length (string_bytes text) ≤ 2 ^ 30) }
    // What is written is read as the same term, where the names stand for the inputs.
    ensures read_back { IfOk result (λ text. (tree : Tree) × IsTextOf (string_bytes text) tree
        × ((scope : Scope) → InputsAreInScope (map string_bytes names.now) scope (term_at terms.now at)
        → term_read terms.now.pointer scope tree ≡ Ok (term_at terms.now at))) }
{
    // What the table keeps: each of its terms is well-sorted.
    let _ = terms.len();
    let mut out = String::new(alloc);
    let mut stack = Vec::new(alloc);
    begin(&mut out, &mut stack, terms, at, names)?;
    while out.len() <= MOST_BYTES {
        let Some(piece) = stack.pop() else {
            return Ok(out);
        };
        write_piece(&mut out, &mut stack, terms, piece, names)?;
    }
    Err(AllocError)
}
