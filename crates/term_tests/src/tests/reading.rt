//! Tests: terms that are read, their values and their faults, and terms that are written and read back.

ghost use Rattle.std.specs.Prelude.{◌<◌, length, map, IfOk, IsTrue};
ghost use Rattle.std.specs.String.{string_bytes};
ghost use Rattle.bv_terms.specs.declared.op.TermId.{TermId};
ghost use Rattle.bv_terms.specs.Table.{term_at};
ghost use Rattle.term_text.specs.Scope.{AreNamesIn};
ghost use Rattle.term_text.specs.Text.{InputIsNamed, InputsAreNamed};

use crate::tests::terms::{env_of, value_of};
use bv_terms::*;
use collections::NameMap;
use sexp_read::{is_name, read};
use std::alloc::Global;
use std::test::Fail;
use term_text::*;

/// A memory, a pointer of two bits, two bit-vectors of 8 bits, one of 64, and a truth value.
const INPUTS: [(&str, Sort); 6] = [
    ("m", Sort::Mem),
    ("p", Sort::Bits(2)),
    ("a", Sort::Bits(8)),
    ("b", Sort::Bits(8)),
    ("w", Sort::Bits(64)),
    ("c", Sort::Bool),
];

/// The names of inputs, each with its node.
pub(crate) fn inputs_in(
    alloc: Global,
    terms: &mut Terms,
    inputs: &[(&str, Sort)],
) -> Result<NameMap<TermId>, Fail>
    ensures { IfOk result (AreNamesIn terms.new) }
{
    let mut names = NameMap::new(alloc);
    let mut number = 0;
    for (name, sort) in inputs {
        let node = terms
            .make(
                Op::Input {
                    number,
                    sort: *sort,
                },
                &[],
            )
            .ok()
            .ok_or("the input is made")?;
        if names.contains(name) || number == u32::MAX {
            return Err(Fail::from("the names differ"));
        }
        names.insert(String::from_str(alloc, name)?, node)?;
        number += 1;
    }
    Ok(names)
}

/// What a text's first item is read as.
pub(crate) fn read_first(
    alloc: Global,
    text: &[u8],
    names: &NameMap<TermId>,
    terms: &mut Terms,
) -> Result<Result<TermId, TermFault>, Fail>
    requires { AreNamesIn terms.old names.now }
    ensures { AreNamesIn terms.new names.now }
{
    let forest = read(alloc, text).ok().ok_or("the bytes are a text")?;
    let len = forest.items.len();
    match forest.top().first() {
        Some(first) if *first < len => Ok(read_term(alloc, text, &forest, *first, names, terms)),
        _ => Err(Fail::from("there is an item")),
    }
}

/// The fault of a text, with the inputs in scope.
fn fault_of(alloc: Global, text: &str) -> Result<Option<TermFault>, Fail> {
    let mut terms = Terms::new(alloc, 2);
    let names = inputs_in(alloc, &mut terms, &INPUTS)?;
    Ok(read_first(alloc, text.as_bytes(), &names, &mut terms)?.err())
}

/// What the text shows, the text, and the kind and the span of its fault.
const FAULTS: [(&str, &str, TermKind, usize, usize); 60] = [
    ("a name out of scope", "x", TermKind::Unknown, 0, 1),
    ("a word that is no name", " $", TermKind::Unknown, 1, 2),
    ("a numeral", "1", TermKind::Unknown, 0, 1),
    ("an underscore", "_", TermKind::Unknown, 0, 1),
    ("no digit", "#b", TermKind::Literal, 0, 2),
    ("a digit too large", "#b2", TermKind::Literal, 0, 3),
    ("no base", "#o7", TermKind::Literal, 0, 3),
    ("no hexadecimal digit", "#xg", TermKind::Literal, 0, 3),
    (
        "65 binary digits",
        "#b00000000000000000000000000000000000000000000000000000000000000000",
        TermKind::Literal,
        0,
        67,
    ),
    (
        "17 hexadecimal digits",
        "#x00000000000000000",
        TermKind::Literal,
        0,
        19,
    ),
    ("an empty list", "()", TermKind::Unknown, 0, 2),
    ("no operator", "(foo a)", TermKind::Unknown, 1, 4),
    ("a name as an operator", "(a)", TermKind::Unknown, 1, 2),
    (
        "a list of a word as an operator",
        "((bvnot) a)",
        TermKind::Unknown,
        1,
        8,
    ),
    (
        "numbers of an operator that has none",
        "((_ bvnot 1) a)",
        TermKind::Unknown,
        1,
        12,
    ),
    (
        "no underscore before numbers",
        "((x extract 1 0) a)",
        TermKind::Unknown,
        1,
        16,
    ),
    (
        "no numbers where there should be",
        "(extract a)",
        TermKind::Unknown,
        1,
        8,
    ),
    (
        "a list as an operator's word",
        "((_ (repeat) 1) a)",
        TermKind::Unknown,
        1,
        15,
    ),
    (
        "too few numbers",
        "((_ extract 1) a)",
        TermKind::Index,
        1,
        14,
    ),
    (
        "too many numbers",
        "((_ repeat 1 1) a)",
        TermKind::Index,
        1,
        15,
    ),
    ("no number", "((_ repeat) a)", TermKind::Index, 1, 11),
    (
        "a leading zero",
        "((_ repeat 01) a)",
        TermKind::Index,
        1,
        14,
    ),
    (
        "2^32",
        "((_ rotate_left 4294967296) a)",
        TermKind::Index,
        1,
        27,
    ),
    (
        "a list as a number",
        "((_ zero_extend (1)) a)",
        TermKind::Index,
        1,
        20,
    ),
    (
        "a number past the width",
        "(_ bv256 8)",
        TermKind::Literal,
        0,
        11,
    ),
    (
        "2^64 at width 64",
        "(_ bv18446744073709551616 64)",
        TermKind::Literal,
        0,
        29,
    ),
    ("width 65", "(_ bv1 65)", TermKind::Literal, 0, 10),
    ("width 0", "(_ bv0 0)", TermKind::Literal, 0, 9),
    ("a list as a width", "(_ bv0 (8))", TermKind::Literal, 0, 11),
    (
        "no number after bv",
        "(_ bvadd 8)",
        TermKind::Literal,
        0,
        11,
    ),
    (
        "a constant of four items",
        "(_ bv1 8 8)",
        TermKind::Unknown,
        0,
        11,
    ),
    (
        "an operator's head alone",
        "(_ extract 1 0)",
        TermKind::Unknown,
        0,
        15,
    ),
    ("no constant", "(_ repeat 8)", TermKind::Unknown, 0, 12),
    ("an underscore alone", "(_)", TermKind::Unknown, 0, 3),
    ("let alone", "(let)", TermKind::Arity, 0, 5),
    ("let without a name", "(let () a)", TermKind::Arity, 0, 10),
    (
        "let with two bodies",
        "(let ((x a)) x x)",
        TermKind::Arity,
        0,
        17,
    ),
    (
        "let with a word in place of its list",
        "(let x a)",
        TermKind::Arity,
        0,
        9,
    ),
    (
        "let without a term",
        "(let ((x)) x)",
        TermKind::Arity,
        0,
        13,
    ),
    (
        "let with a list in place of a name",
        "(let (((x) a)) a)",
        TermKind::Arity,
        0,
        17,
    ),
    (
        "let of no name",
        "(let ((x a) (1 a)) a)",
        TermKind::Unknown,
        13,
        14,
    ),
    (
        "let of a truth value",
        "(let ((true a)) a)",
        TermKind::Unknown,
        7,
        11,
    ),
    (
        "let of no name twice",
        "(let ((1 a) (1 a)) a)",
        TermKind::Unknown,
        7,
        8,
    ),
    (
        "let of a name twice",
        "(let ((x a) (x b)) x)",
        TermKind::Arity,
        0,
        21,
    ),
    (
        "let's form before its terms",
        "(let ((x y) (z)) x)",
        TermKind::Arity,
        0,
        19,
    ),
    (
        "let's terms before its body",
        "(let ((x y)) z)",
        TermKind::Unknown,
        9,
        10,
    ),
    (
        "a bound term does not see the name",
        "(let ((x a) (y x)) y)",
        TermKind::Unknown,
        15,
        16,
    ),
    ("three bytes", "(mload 3 m p)", TermKind::Index, 7, 8),
    (
        "more bytes than addresses",
        "(mload 8 m p)",
        TermKind::Index,
        7,
        8,
    ),
    (
        "a number of bytes past a byte's range",
        "(mmark 257 m p)",
        TermKind::Index,
        7,
        10,
    ),
    (
        "a memory in place of the bytes",
        "(mload m p)",
        TermKind::Index,
        7,
        8,
    ),
    ("no number of bytes", "(mload)", TermKind::Arity, 0, 7),
    (
        "too many arguments of a store",
        "(mstore 1 m p a a)",
        TermKind::Arity,
        0,
        18,
    ),
    (
        "arguments before their number",
        "(bvnot x y)",
        TermKind::Unknown,
        7,
        8,
    ),
    ("one argument too few", "(bvadd a)", TermKind::Arity, 0, 9),
    (
        "the number of arguments before their sorts",
        "(bvsub a b c)",
        TermKind::Arity,
        0,
        13,
    ),
    (
        "the first that does not fit",
        "(bvadd a b c w)",
        TermKind::Sorts,
        11,
        12,
    ),
    (
        "a sort before a number",
        "((_ extract 8 0) c)",
        TermKind::Sorts,
        17,
        18,
    ),
    (
        "a bit past the width",
        "((_ extract 8 0) a)",
        TermKind::Index,
        0,
        19,
    ),
    ("65 bits", "(concat w #b1)", TermKind::Width, 0, 14),
];

#[test]
fn the_first_fault_of_a_text(rt: HostRuntime) -> Result<(), Fail> {
    for (name, text, kind, from, to) in FAULTS {
        assert!(rt;
            fault_of(rt.alloc(), text)? == Some(TermFault { kind, from, to }),
            "{name}"
        );
    }
    Ok(())
}

/// The value of a term without inputs.
fn value_in(alloc: Global, text: &str) -> Result<Option<Value>, Fail> {
    let mut terms = Terms::new(alloc, 32);
    let names = inputs_in(alloc, &mut terms, &[])?;
    match read_first(alloc, text.as_bytes(), &names, &mut terms)? {
        Ok(at) => Ok(value_of(&terms, at, &env_of(alloc, 1, [0, 0])?)),
        Err(_) => Ok(None),
    }
}

/// A term, and its value at width 8.
const VALUES: [(&str, u64); 16] = [
    ("(bvsdiv #x80 #xff)", 0x80),
    ("(bvsdiv #xf9 #x00)", 0x01),
    ("(bvsrem #x80 #x00)", 0x80),
    ("(bvsmod #xf9 #x03)", 0x02),
    ("(bvashr #x80 #x09)", 0xff),
    ("(bvudiv #x07 #x00)", 0xff),
    ("(_ bv255 8)", 0xff),
    ("#b10000001", 0x81),
    ("#xAf", 0xaf),
    ("(let ((x #x01) (y #x02)) (bvsub x y))", 0xff),
    (
        "(let ((x #x01)) (let ((x #x02) (y x)) (bvadd x y y)))",
        0x04,
    ),
    ("(ite (=> true true false) #x00 #x11)", 0x11),
    ("((_ rotate_left 9) #x81)", 0x03),
    ("((_ repeat 2) ((_ extract 7 4) #xa0))", 0xaa),
    ("(bvand (bvxor #x0f #xff #x01) #xf3)", 0xf1),
    ("(ite (distinct #x01 #x02 #x01) #x00 #x01)", 0x01),
];

#[test]
fn values_of_terms(rt: HostRuntime) -> Result<(), Fail> {
    for (text, number) in VALUES {
        assert!(rt;
            value_in(rt.alloc(), text)? == Some(Value::Bits { width: 8, number }),
            "{text}"
        );
    }
    Ok(())
}

/// A front, a piece so many times, and a back.
fn repeated(
    alloc: Global,
    front: &[u8],
    piece: &[u8],
    count: usize,
    back: &[u8],
) -> Result<Vec<u8>, Fail> {
    let mut text = Vec::new(alloc);
    text.extend_from_slice(front)?;
    for _ in 0..count {
        text.extend_from_slice(piece)?;
    }
    text.extend_from_slice(back)?;
    Ok(text)
}

/// How many nodes the table has after a text was read, with the inputs in scope, or the kind of its fault.
fn nodes_of(alloc: Global, text: &[u8]) -> Result<Result<usize, TermKind>, Fail> {
    let mut terms = Terms::new(alloc, 2);
    let names = inputs_in(alloc, &mut terms, &INPUTS)?;
    match read_first(alloc, text, &names, &mut terms)? {
        Ok(_) => Ok(Ok(terms.len())),
        Err(fault) => Ok(Err(fault.kind)),
    }
}

#[test]
fn a_hundred_thousand_arguments_make_as_deep_a_term(rt: HostRuntime) -> Result<(), Fail> {
    let text = repeated(rt.alloc(), b"(bvadd a", b" a", 99_999, b")")?;
    assert!(rt; nodes_of(rt.alloc(), &text)? == Ok(100_005));
    Ok(())
}

#[test]
fn a_name_that_is_doubled_thirty_times_makes_thirty_nodes(rt: HostRuntime) -> Result<(), Fail> {
    let front = repeated(
        rt.alloc(),
        b"(let ((x a)) ",
        b"(let ((x (bvadd x x))) ",
        30,
        b"x",
    )?;
    let text = repeated(rt.alloc(), &front, b")", 31, b"")?;
    assert!(rt; nodes_of(rt.alloc(), &text)? == Ok(36));
    Ok(())
}

/// `distinct` of so many different constants of 12 bits.
fn different(alloc: Global, count: u32) -> Result<Vec<u8>, Fail> {
    let digits = b"0123456789abcdef";
    let mut text = Vec::new(alloc);
    text.extend_from_slice(b"(distinct")?;
    for number in 0..count {
        text.extend_from_slice(b" #x")?;
        for shift in [8, 4, 0] {
            text.push(digits[(number >> shift & 15) as usize])?;
        }
    }
    text.push(b')')?;
    Ok(text)
}

#[test]
fn each_pair_of_five_hundred_constants_is_compared(rt: HostRuntime) -> Result<(), Fail> {
    let text = different(rt.alloc(), 500)?;
    // The inputs and constants, two nodes for each of the 124,750 pairs, and what joins these.
    assert!(rt; nodes_of(rt.alloc(), &text)? == Ok(6 + 500 + 3 * 124_750 - 1));
    Ok(())
}

/// The names of the inputs.
fn words(alloc: Global) -> Result<Vec<String>, Fail> {
    let mut words = Vec::new(alloc);
    for (name, _) in INPUTS {
        words.push(String::from_str(alloc, name)?)?;
    }
    Ok(words)
}

/// Whether an input that an operation reads has a name.
fn is_named(op: &Op, names: &[String]) -> bool
    ensures { IsTrue result → InputIsNamed (map string_bytes names.now) op.now }
{
    match *op {
        Op::Input { number, .. } => match names.get(number as usize) {
            Some(name) => is_name(name.as_bytes()),
            None => false,
        },
        _ => true,
    }
}

/// Whether each input in the table has a name.
fn are_named(terms: &Terms, names: &[String]) -> bool
    ensures { IsTrue result → (at : TermId) → at.0 < length terms.now.nodes
        → InputsAreNamed (map string_bytes names.now) (term_at terms.now at) }
{
    for place in 0..terms.len() {
        let (op, _) = terms.node(TermId(place));
        if !is_named(op, names) {
            return false;
        }
    }
    true
}

/// The text of the term that a text is.
fn written(alloc: Global, terms: &Terms, at: TermId) -> Result<String, Fail> {
    let words = words(alloc)?;
    if at.0 >= terms.len() || !are_named(terms, &words) {
        return Err(Fail::from("the inputs have names"));
    }
    Ok(write_term(alloc, terms, at, &words)?)
}

/// Whether a text is read as a term that is written as another text, and whether that is read as the same term.
fn comes_back(alloc: Global, text: &str, other: &str) -> Result<bool, Fail> {
    let mut terms = Terms::new(alloc, 2);
    let names = inputs_in(alloc, &mut terms, &INPUTS)?;
    let Ok(at) = read_first(alloc, text.as_bytes(), &names, &mut terms)? else {
        return Ok(false);
    };
    let again = written(alloc, &terms, at)?;
    let same = again.as_str() == other;
    Ok(same && read_first(alloc, again.as_bytes(), &names, &mut terms)? == Ok(at))
}

/// A text, and how its term is written.
const WRITTEN: [(&str, &str); 8] = [
    ("(bvadd a b)", "(bvadd a b)"),
    (
        "(ite (bvult a b) #b1 #b0)",
        "(ite (bvult a b) (_ bv1 1) (_ bv0 1))",
    ),
    (
        "((_ extract 8 8) (bvadd ((_ zero_extend 1) a) ((_ zero_extend 1) b)))",
        "((_ extract 8 8) (bvadd ((_ zero_extend 1) a) ((_ zero_extend 1) b)))",
    ),
    (
        "(mstore 1 (mmark 1 m p) p (bvor (mload 1 m p) a))",
        "(mstore 1 (mmark 1 m p) p (bvor (mload 1 m p) a))",
    ),
    ("(=> c true c)", "(=> c (=> true c))"),
    (
        "(distinct a b #xff)",
        "(and (and (not (= a b)) (not (= a (_ bv255 8)))) (not (= b (_ bv255 8))))",
    ),
    (
        "(bvnor (bvsub a b) (bvshl a b))",
        "(bvnot (bvor (bvsub a b) (bvshl a b)))",
    ),
    (
        "(let ((x (bvnot a))) (concat x x b))",
        "(concat (concat (bvnot a) (bvnot a)) b)",
    ),
];

#[test]
fn a_term_that_is_written_is_read_back(rt: HostRuntime) -> Result<(), Fail> {
    for (text, other) in WRITTEN {
        assert!(rt; comes_back(rt.alloc(), text, other)?, "{text}");
    }
    Ok(())
}
