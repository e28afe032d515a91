//! Tests: what a file says that was read, and files of each kind that are read.

use bv_terms::Sort;
use collections::Seq;
use isel_spec::{Kind, Spec};
use spec_reader::read_spec;
use std::alloc::{AllocError, Global};
use std::test::Fail;

/// Cases, a line each: what the case shows, and what follows the head and the operation `(op p () () (#b1))`.
const FILES: &str = "\
names as operators: (op bvand ((bvor (_ BitVec 4))) () ((bvsub bvor #x1))) (goal g () 0 (#b1))
a comment: (goal g () 0 (#b1)) ; (
goals before operations: (goal g () 0 (#b1)) (op o ((a Bool)) () (a))
64 bits: (goal g ((reg a (_ BitVec 64)) (imm b (_ BitVec 64))) 65535 ((bvadd a b)))
an argument of a definition's name: (goal g ((reg g Bool)) 0 (g))
arguments, attributes and results as many as there may be: (op o ((a Bool) (b Bool) (c Bool) (d Bool)) \
((k (_ BitVec 1)) (l (_ BitVec 64))) (a k l)) (goal g () 0 (#b1))
bytes that are counted once: (goal g ((mem m Mem) (reg p (_ BitVec 32))) 1 ((mstore 8 (mmark 8 (mmark 8 (mmark 8 \
(mmark 8 m p) p) (bvneg p)) (bvnot p)) (bvneg p) (mload 8 m p))))
a memory that is given back: (goal g ((mem m Mem)) 1 (m))
a load of what was stored: (op o ((m Mem) (p (_ BitVec 32)) (v (_ BitVec 8))) () \
((mmark 1 (mstore 1 m p v) p) (mload 1 (mstore 1 m p v) p))) (goal g () 0 (#b1))
";

/// Whether a file is read, with what stands in front.
fn is_read(alloc: Global, text: &str) -> Result<bool, AllocError> {
    let mut whole = String::from_str(alloc, "(isel-spec 1 32) (op p () () (#b1)) ")?;
    whole.push_str(text)?;
    Ok(read_spec(alloc, whole.as_bytes()).is_ok())
}

#[test]
fn files_that_are_read(rt: HostRuntime) -> Result<(), Fail> {
    for line in FILES.lines() {
        let (name, text) = line.split_once(": ").ok_or("a case")?;
        assert!(rt; is_read(rt.alloc(), text)?, "{name}");
    }
    Ok(())
}

/// The name, the numbers of arguments, attributes and results of an operation.
fn op_at(spec: &Spec, place: usize) -> Option<(&str, usize, usize, usize)> {
    let (name, def) = spec.ops.get(place)?;
    Some((name, def.args.len(), def.attrs.len(), def.results.len()))
}

/// The name, the numbers of arguments and results, and the cost of a goal.
fn goal_at(spec: &Spec, place: usize) -> Option<(&str, usize, usize, u32)> {
    let (name, def) = spec.goals.get(place)?;
    Some((name, def.args.len(), def.results.len(), def.cost))
}

/// The kind and the sort of an argument of the first goal.
fn argument_at(spec: &Spec, place: usize) -> Option<(Kind, Sort)> {
    let (_, def) = spec.goals.get(0)?;
    Some(*def.args.as_slice().get(place)?)
}

const FILE: &str = "\
(isel-spec 1 16)
(goal add ((mem m Mem) (reg p (_ BitVec 16)) (imm x (_ BitVec 8))) 7 ((mmark 1 m p) (bvadd (mload 1 m p) x)))
(op load ((m Mem) (p (_ BitVec 16))) () ((mmark 1 m p) (mload 1 m p)))
(op const () ((k (_ BitVec 8))) (k))
(goal less ((reg a (_ BitVec 8)) (reg b (_ BitVec 8))) 65535 ((bvult a b)))
";

#[test]
fn a_file_that_was_read_says_what_its_text_says(rt: HostRuntime) -> Result<(), Fail> {
    let spec = read_spec(rt.alloc(), FILE.as_bytes()).ok().ok_or("a file")?;
    assert!(rt; spec.pointer == 16 && spec.ops.len() == 2 && spec.goals.len() == 2);
    assert!(rt; op_at(&spec, 0) == Some(("load", 2, 0, 2)));
    assert!(rt; op_at(&spec, 1) == Some(("const", 0, 1, 1)));
    assert!(rt; goal_at(&spec, 0) == Some(("add", 3, 2, 7)));
    assert!(rt; goal_at(&spec, 1) == Some(("less", 2, 1, 65535)));
    assert!(rt; argument_at(&spec, 0) == Some((Kind::Mem, Sort::Mem)));
    assert!(rt; argument_at(&spec, 2) == Some((Kind::Imm, Sort::Bits(8))));
    Ok(())
}
