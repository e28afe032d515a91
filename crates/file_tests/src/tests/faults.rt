//! Tests: the first fault of a text and its place, by cases one for each kind and each place that a kind can have,
//! with
//! the order between two faults in one text.

use sexp_read::numeral;
use spec_reader::{SpecFault, SpecKind, Which, read_spec};
use std::alloc::{AllocError, Global};
use std::test::Fail;

/// The name of a kind, which is that of the limit where it is one.
fn word_of(kind: SpecKind) -> &'static str {
    match kind {
        SpecKind::NotText => "NotText",
        SpecKind::Unclosed => "Unclosed",
        SpecKind::Stray => "Stray",
        SpecKind::Deep => "Deep",
        SpecKind::Unknown => "Unknown",
        SpecKind::Literal => "Literal",
        SpecKind::Index => "Index",
        SpecKind::Arity => "Arity",
        SpecKind::Sorts => "Sorts",
        SpecKind::Width => "Width",
        SpecKind::Head => "Head",
        SpecKind::TwiceNamed => "TwiceNamed",
        SpecKind::Limit { which, .. } => limit_of(which),
        SpecKind::MemShape => "MemShape",
        SpecKind::PointerReads => "PointerReads",
        SpecKind::NoMemory => "NoMemory",
    }
}

fn limit_of(which: Which) -> &'static str {
    match which {
        Which::Ops => "Ops",
        Which::Goals => "Goals",
        Which::Args => "Args",
        Which::Attrs => "Attrs",
        Which::Results => "Results",
        Which::Nodes => "Nodes",
        Which::Name => "Name",
        Which::Cost => "Cost",
        Which::Pointer => "Pointer",
        Which::Bytes => "Bytes",
    }
}

/// What was met at a limit, and else 0.
fn found_by(kind: SpecKind) -> u64 {
    match kind {
        SpecKind::Limit { found, .. } => found,
        _ => 0,
    }
}

/// A text without the marks `[` and `]`, and how many bytes stand before each of them.
#[derive(Drop)]
pub(super) struct Marked {
    pub(super) text: Vec<u8>,
    pub(super) from: usize,
    pub(super) to: usize,
}

pub(super) fn without_marks(alloc: Global, bytes: &[u8]) -> Result<Marked, AllocError> {
    let mut text = Vec::new(alloc);
    let mut from = 0;
    let mut to = 0;
    for byte in bytes {
        match *byte {
            b'[' => from = text.len(),
            b']' => to = text.len(),
            other => text.push(other)?,
        }
    }
    Ok(Marked { text, from, to })
}

/// Whether the first fault of a text is of this kind, with this number met, from the one mark to the other.
fn has_fault(alloc: Global, bytes: &[u8], word: &str, found: u64) -> Result<bool, AllocError> {
    let marked = without_marks(alloc, bytes)?;
    match read_spec(alloc, &marked.text) {
        Err(SpecFault { kind, from, to }) => Ok(
            word_of(kind) == word
                && found_by(kind) == found
                && from == marked.from
                && to == marked.to,
        ),
        Ok(_) => Ok(false),
    }
}

/// Cases, a line each: the kind, for a limit what was met, what the case shows, and the text, with the fault's place
/// between marks.
const FILES: &str = "\
Head 0 nothing: []
Head 0 only a comment: ; (isel-spec 1 32)[]
Head 0 a word: [isel-spec] 1 32
Head 0 another word: [(isel 1 32)] x
Head 0 another version: [(isel-spec 2 32)]
Head 0 a version with a zero: [(isel-spec 01 32)]
Head 0 no pointer: [(isel-spec 1)]
Head 0 a pointer too many: [(isel-spec 1 32 32)]
Head 0 a pointer that is no numeral: [(isel-spec 1 032)]
Head 0 a definition before the head: [(op o () () (#b1))] (isel-spec 1 32)
Pointer 0 a pointer of no bits: (isel-spec 1 [0]) x
Pointer 65 a pointer of 65 bits: (isel-spec 1 [65])
Pointer 18446744073709551615 a pointer past all machine words: (isel-spec 1 [99999999999999999999])
NotText 0 a byte above all texts: (isel-spec 1 32) [\x7f]
NotText 0 in a comment: (isel-spec 1 32) ; [\0] (
NotText 0 before a list that is never closed: (isel-spec 1 32) ( [\x7f]
Stray 0 a list closed twice: (isel-spec 1 0)[)] (
Unclosed 0 the outermost of two: (isel-spec 1 0) [(]op o (
Ops 0 no definition: (isel-spec 1 64)[]
Ops 0 no operation: (isel-spec 1 1) (goal g () 0 (#b1)) ; end[]
Goals 0 no goal: (isel-spec 1 32) (op o () () (#b1)) []
Head 0 a second head: (isel-spec 1 32) [(isel-spec 1 32)]
";

/// The same, where the head and the operation `(op p () () (#b1))` stand in front.
const DEFINITIONS: &str = "\
Head 0 a word: [o]
Head 0 an empty list: [()]
Head 0 a list as the head: [((op) o () () (#b1))]
Head 0 another head: [(ops o () () (#b1))]
Head 0 too few parts: [(op o () (#b1))]
Head 0 too many parts: [(op o () () (#b1) (commutative))]
Head 0 no result: [(op o () () ())]
Head 0 a result that is no list: [(op o () () #b1)]
Head 0 no name: [(op 1o () () (#b1))]
Head 0 a truth value as a name: [(op true () () (#b1))]
Head 0 a list as a name: [(op (o) () () (#b1))]
Head 0 an argument that is no list: [(op o (a) () (#b1))]
Head 0 an argument of no name: [(op o ((false Bool)) () (#b1))]
Head 0 an argument of no sort: [(op o ((a Boolean)) () (#b1))]
Head 0 an argument of another family: [(op o ((a (_ Float 8))) () (#b1))]
Head 0 an argument of no bits: [(op o ((a (_ BitVec 0))) () (#b1))]
Head 0 an argument of 65 bits: [(op o ((a (_ BitVec 65))) () (#b1))]
Head 0 an argument with a kind: [(op o ((reg a Bool)) () (#b1))]
Head 0 an attribute of no bit-vector: [(op o () ((k Bool)) (#b1))]
Head 0 a goal's argument of no kind: [(goal g ((a Bool)) 0 (#b1))]
Head 0 a goal's argument of another kind: [(goal g ((var a Bool)) 0 (#b1))]
Head 0 a memory in a register: [(goal g ((reg m Mem)) 0 (m))]
Head 0 a truth value in the memory: [(goal g ((mem a Bool)) 0 (a))]
Head 0 no cost: [(goal g () (#b1))]
Head 0 a cost with a leading zero: [(goal g () 00 (#b1))]
Head 0 a list as a cost: [(goal g () () (#b1))]
Head 0 the form before a name that stands twice: [(op p () () ())]
TwiceNamed 0 two operations of a name: (op [p] () () (x))
TwiceNamed 0 an operation and a goal of a name: (goal [p] () 70000 (#b1))
TwiceNamed 0 two goals of a name: (goal g () 0 (#b1)) (goal [g] () 0 (#b1))
TwiceNamed 0 two arguments of a name: (op o ((a Bool) ([a] Bool)) () (x))
TwiceNamed 0 an argument and an attribute of a name: (op o ((a Bool)) (([a] (_ BitVec 1))) (x))
Unknown 0 a definition and its argument of a name are none: (op a ((a Bool)) () ([x]))
Name 65 65 letters: (op [aaaaaaaabbbbbbbbaaaaaaaabbbbbbbbaaaaaaaabbbbbbbbaaaaaaaabbbbbbbbc] () () (x))
Name 65 an argument of 65 letters: (op o (([aaaaaaaabbbbbbbbaaaaaaaabbbbbbbbaaaaaaaabbbbbbbbaaaaaaaabbbbbbbbc] \
Bool)) () (x))
Unknown 0 64 letters are few enough: (op aaaaaaaabbbbbbbbaaaaaaaabbbbbbbbaaaaaaaabbbbbbbbaaaaaaaabbbbbbbb () () ([x]))
Args 5 five arguments: [(op o ((a Bool) (a Bool) (c Bool) (d Bool) (e Bool)) () (x))]
Attrs 3 three attributes: [(op o () ((a (_ BitVec 1)) (b (_ BitVec 1)) (b (_ BitVec 1))) (x))]
Results 4 four results: [(goal g () 70000 (x x x x))]
Cost 65536 too high a cost: [(goal g ((reg a Bool) (reg a Bool)) 65536 (x))]
Cost 18446744073709551615 a cost past all machine words: [(goal g () 18446744073709551616 (x))]
Args 5 arguments before the cost: [(goal g ((reg a Bool) (reg b Bool) (reg c Bool) (reg d Bool) (reg e Bool)) 70000 \
(x))]
Unknown 0 another definition's name: (op o ((x Bool)) () (x)) (goal g () 0 ([x]))
Unknown 0 the first of two results: (goal g () 0 ([y] #b2))
Literal 0 the second result: (goal g ((reg a Bool)) 0 (a [#b2]))
Index 0 a bit past the width: (goal g () 0 ([((_ extract 1 0) #b1)]))
Arity 0 one operand too few: (goal g () 0 ([(bvadd #b1)]))
Sorts 0 two widths: (op bad ((a (_ BitVec 8)) (b (_ BitVec 4))) () ((bvand a [b])))
Width 0 65 bits: (goal g ((reg a (_ BitVec 64))) 0 ([(concat a #b1)]))
MemShape 0 a memory twice: [(goal g ((mem m Mem) (reg p (_ BitVec 32))) 1 (m m))]
MemShape 0 a memory that is not given back: [(op o ((m Mem)) () (#b1))]
MemShape 0 two memories: [(op o ((m Mem) (n Mem)) () (m n))]
MemShape 0 a load that is not marked: [(op o ((m Mem) (p (_ BitVec 32))) () (m (mload 1 m p)))]
MemShape 0 a mark of fewer bytes: [(op o ((m Mem) (p (_ BitVec 32))) () ((mmark 1 m p) (mload 2 m p)))]
MemShape 0 a memory off the chain: [(op o ((m Mem) (p (_ BitVec 32))) () ((mmark 1 m p) (mload 1 (mstore 1 m p \
#x00) p)))]
MemShape 0 before what a pointer reads: [(goal g ((mem m Mem) (reg p (_ BitVec 32))) 1 (m (mload 4 m (mload 4 m p))))]
PointerReads 0 a mark where a load leads: [(goal g ((mem m Mem) (reg p (_ BitVec 32))) 1 ((mmark 4 (mmark 4 m p) \
(mload 4 m p))))]
Goals 0 an operation may go where a load leads: (op o ((m Mem) (p (_ BitVec 32))) () ((mmark 4 (mmark 4 m p) (mload \
4 m p))))[]
Bytes 33 eight bytes four times and one: [(goal g ((mem m Mem) (reg p (_ BitVec 32))) 1 ((mmark 1 (mmark 8 (mmark 8 \
(mmark 8 (mmark 8 m p) (bvneg p)) (bvnot p)) (bvnot (bvneg p))) p)))]
";

/// The parts of a case's line.
fn case_of(line: &str) -> Option<(&str, u64, &str, &str)> {
    let (word, rest) = line.split_once(" ")?;
    let (found, rest) = rest.split_once(" ")?;
    let (name, text) = rest.split_once(": ")?;
    Some((word, numeral(found.as_bytes())?, name, text))
}

/// Whether the text of a case, after what stands in front of it, has its fault.
fn is_right(
    alloc: Global,
    front: &str,
    word: &str,
    found: u64,
    text: &str,
) -> Result<bool, AllocError> {
    let mut whole = String::from_str(alloc, front)?;
    whole.push_str(text)?;
    has_fault(alloc, whole.as_bytes(), word, found)
}

#[test]
fn the_first_fault_of_a_text(rt: HostRuntime) -> Result<(), Fail> {
    for line in FILES.lines() {
        let (word, found, name, text) = case_of(line).ok_or("a case")?;
        assert!(rt; is_right(rt.alloc(), "", word, found, text)?, "{name}");
    }
    Ok(())
}

#[test]
fn the_first_fault_of_a_definition(rt: HostRuntime) -> Result<(), Fail> {
    let front = "(isel-spec 1 32) (op p () () (#b1)) ";
    for line in DEFINITIONS.lines() {
        let (word, found, name, text) = case_of(line).ok_or("a case")?;
        assert!(rt; is_right(rt.alloc(), front, word, found, text)?, "{name}");
    }
    Ok(())
}

/// Adds a piece so many times, each with a number of three digits in it.
fn push_numbered(
    text: &mut Vec<u8>,
    front: &str,
    count: usize,
    back: &str,
) -> Result<(), AllocError> {
    for number in 0..count {
        text.extend_from_slice(front.as_bytes())?;
        for unit in [100, 10, 1] {
            text.push(b"0123456789"[number / unit % 10])?;
        }
        text.extend_from_slice(back.as_bytes())?;
    }
    Ok(())
}

/// A file of so many operations and goals, and what follows.
fn file_of(alloc: Global, ops: usize, goals: usize, back: &str) -> Result<Vec<u8>, AllocError> {
    let mut text = Vec::new(alloc);
    text.extend_from_slice(b"(isel-spec 1 32)")?;
    push_numbered(&mut text, "(op o", ops, " () () (#b1))")?;
    push_numbered(&mut text, "(goal g", goals, " () 0 (#b1))")?;
    text.extend_from_slice(back.as_bytes())?;
    Ok(text)
}

#[test]
fn one_definition_too_many(rt: HostRuntime) -> Result<(), Fail> {
    let alloc = rt.alloc();
    let most = file_of(alloc, 64, 256, "")?;
    assert!(rt; read_spec(alloc, &most).is_ok());
    let ops = file_of(alloc, 64, 0, "[(op x () () (y))]")?;
    assert!(rt; has_fault(alloc, &ops, "Ops", 65)?);
    let goals = file_of(alloc, 1, 256, "[(goal x () 0 (y))]")?;
    assert!(rt; has_fault(alloc, &goals, "Goals", 257)?);
    Ok(())
}

/// A file whose goal has so many different subterms.
fn file_of_sum(alloc: Global, count: usize) -> Result<Vec<u8>, AllocError> {
    let mut text = file_of(alloc, 1, 0, "[(goal g ((reg a (_ BitVec 8))) 0 ((bvadd")?;
    for _ in 0..count {
        text.extend_from_slice(b" a")?;
    }
    text.extend_from_slice(b")))]")?;
    Ok(text)
}

#[test]
fn one_subterm_too_many(rt: HostRuntime) -> Result<(), Fail> {
    let alloc = rt.alloc();
    let most = without_marks(alloc, &file_of_sum(alloc, 256)?)?;
    assert!(rt; read_spec(alloc, &most.text).is_ok());
    let more = file_of_sum(alloc, 257)?;
    assert!(rt; has_fault(alloc, &more, "Nodes", 257)?);
    Ok(())
}

#[test]
fn one_list_too_deep(rt: HostRuntime) -> Result<(), Fail> {
    let fault = SpecFault {
        kind: SpecKind::Deep,
        from: 256,
        to: 257,
    };
    assert!(rt; read_spec(rt.alloc(), &[b'('; 258]).err() == Some(fault));
    Ok(())
}
