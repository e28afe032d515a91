//! What a run ends with, on whole files: with ample memory it does not answer that memory ran out.

use isel_base::{MemFiles, MemSink};
use isel_cmd::run_here;
use std::alloc::{AllocError, Global};
use std::test::Fail;

/// Or on one bit, from or and exclusive or.
const OR1: &str = "(isel-spec 1 32)\n\
    (op ior1 ((a (_ BitVec 1)) (b (_ BitVec 1))) () ((bvor a b)))\n\
    (op xor1 ((a (_ BitVec 1)) (b (_ BitVec 1))) () ((bvxor a b)))\n\
    (goal or1 ((reg a (_ BitVec 1)) (reg b (_ BitVec 1))) 1 ((bvor a b)))\n";

const OR1_LIBRARY: &str = "(isel-library 1)\n\
    (goal or1 complete 1\n \
    (rule ((ior1 i0 i1)) (n0.0))\n \
    (rule ((ior1 i1 i0)) (n0.0))\n\
    )\n";

/// A goal that is one operation, and one that is its input.
const TWO_GOALS: &str = "(isel-spec 1 32)\n\
    (op not2 ((a (_ BitVec 2))) () ((bvnot a)))\n\
    (goal flip ((reg a (_ BitVec 2))) 1 ((bvnot a)))\n\
    (goal same ((reg a (_ BitVec 2))) 0 (a))\n";

const TWO_ANSWERS: &str = "(isel-library 1)\n\
    (goal flip complete 1\n \
    (rule ((not2 i0)) (n0.0))\n\
    )\n\
    (goal same complete 0\n \
    (rule () (i0))\n\
    )\n";

/// A goal that takes two operations.
const NAND1: &str = "(isel-spec 1 32)\n\
    (op not1 ((a (_ BitVec 1))) () ((bvnot a)))\n\
    (op and1 ((a (_ BitVec 1)) (b (_ BitVec 1))) () ((bvand a b)))\n\
    (goal nand1 ((reg a (_ BitVec 1)) (reg b (_ BitVec 1))) 1 ((bvnot (bvand a b))))\n";

const NAND1_LIBRARY: &str = "(isel-library 1)\n\
    (goal nand1 complete 2\n \
    (rule ((and1 i0 i1) (not1 n0.0)) (n1.0))\n \
    (rule ((and1 i1 i0) (not1 n0.0)) (n1.0))\n\
    )\n";

/// A goal of 16 input bits.
const ANDN8: &str = "(isel-spec 1 32)\n\
    (op not8 ((a (_ BitVec 8))) () ((bvnot a)))\n\
    (op and8 ((a (_ BitVec 8)) (b (_ BitVec 8))) () ((bvand a b)))\n\
    (goal andn8 ((reg a (_ BitVec 8)) (reg b (_ BitVec 8))) 1 ((bvand (bvnot a) b)))\n";

const ANDN8_LIBRARY: &str = "(isel-library 1)\n\
    (goal andn8 complete 2\n \
    (rule ((not8 i0) (and8 i1 n0.0)) (n1.0))\n \
    (rule ((not8 i0) (and8 n0.0 i1)) (n1.0))\n\
    )\n";

/// The line of its claim with both operations, which has two rules.
const ANDN8_OPEN: &str = " (open (not8 and8))\n";

/// A goal that is its first input, before the operations.
const MOVE4: &str = "(isel-spec 1 32) \
    (goal m ((reg a (_ BitVec 4)) (reg b (_ BitVec 4))) 0 (a)) \
    (op n ((a (_ BitVec 4))) () ((bvnot a)))";

/// An operation that loads.
const LOAD: &str = "(isel-spec 1 32)\n\
    (op load8 ((m Mem) (p (_ BitVec 32))) () ((mmark 1 m p) (mload 1 m p)))\n\
    (goal same ((reg a (_ BitVec 4))) 0 (a))\n";

/// A goal that stores.
const STORE: &str = "(isel-spec 1 32)\n\
    (op not8 ((a (_ BitVec 8))) () ((bvnot a)))\n\
    (goal put8 ((mem m Mem) (reg p (_ BitVec 32)) (reg a (_ BitVec 8))) 1 ((mstore 1 m p a)))\n";

/// A term that names nothing, in the second line.
const UNKNOWN: &str = "(isel-spec 1 32)\n(op not4 ((a (_ BitVec 4))) () ((bvnot b)))\n";

/// The library of a goal for which there is no pattern.
const NO_PATTERN: &str = "(isel-library 1)\n(goal or1 none)\n";

/// The library of a goal that is its input.
const INPUT: &str = "(isel-library 1)\n(goal m complete 0\n (rule () (i0))\n)\n";

/// The words that ask for patterns of one operation.
const ONE: &str = "synth f --bound 1 --budget 100000";

/// A number that no read and no put has.
const NEVER: u64 = u64::MAX;

/// More bytes than a library or a note has.
const LARGE: usize = 1 << 20;

fn words_of(alloc: Global, line: &str) -> Result<Vec<String>, AllocError> {
    let mut words = Vec::new(alloc);
    for word in line.split_whitespace() {
        words.push(String::from_str(alloc, word)?)?;
    }
    Ok(words)
}

/// One file of the name `f`, of whose reads that number fails.
fn files_of(alloc: Global, bytes: &[u8], failing: u64) -> Result<MemFiles, AllocError> {
    let mut files = Vec::new(alloc);
    files.push((
        String::from_str(alloc, "f")?,
        Vec::from_slice(alloc, bytes)?,
    ))?;
    Ok(MemFiles::new(files, LARGE, Vec::from_slice(alloc, &[failing])?))
}

/// A sink that takes that many bytes at a time, and of whose puts that number fails.
fn sink_of(alloc: Global, step: usize, failing: u64) -> Result<MemSink, AllocError> {
    Ok(MemSink::new(alloc, step.max(1), Vec::from_slice(alloc, &[failing])?))
}

/// What a run finds outside: the bytes of the file `f`, which of its reads fails, how many bytes `out` and `notes` take
/// at a time, and which of their puts fail.
#[derive(Clone, Copy)]
struct Outside<'a> {
    bytes: &'a [u8],
    read: u64,
    step: usize,
    put: u64,
    note_put: u64,
}

/// The status of a run, and whether it writes this library and this note.
fn ended(
    alloc: Global,
    line: &str,
    outside: Outside<'_>,
    library: &str,
    note: &str,
) -> Result<(u8, bool, bool), AllocError> {
    let words = words_of(alloc, line)?;
    let mut files = files_of(alloc, outside.bytes, outside.read)?;
    let mut out = sink_of(alloc, outside.step, outside.put)?;
    let mut notes = sink_of(alloc, outside.step, outside.note_put)?;
    let status = run_here(alloc, &words, &mut files, &mut out, &mut notes);
    Ok((
        status,
        out.bytes() == library.as_bytes(),
        notes.bytes() == note.as_bytes(),
    ))
}

/// A file `f` of these bytes, where no read and no put fails.
fn without_faults(bytes: &[u8]) -> Outside<'_> {
    Outside {
        bytes,
        read: NEVER,
        step: LARGE,
        put: NEVER,
        note_put: NEVER,
    }
}

/// Whether a run on that file writes this library, and no note.
fn writes(alloc: Global, line: &str, text: &str, library: &str) -> Result<bool, AllocError> {
    Ok(ended(alloc, line, without_faults(text.as_bytes()), library, "")? == (0, true, true))
}

/// Whether a run on that file refuses it with this note, and writes no library.
fn refuses(alloc: Global, bytes: &[u8], note: &str) -> Result<bool, AllocError> {
    Ok(ended(alloc, ONE, without_faults(bytes), "", note)? == (3, true, true))
}

/// Whether words have no form.
fn has_no_form(alloc: Global, line: &str) -> Result<bool, AllocError> {
    let outside = without_faults(OR1.as_bytes());
    Ok(ended(alloc, line, outside, "", "words: no such form\n")? == (2, true, true))
}

/// That many spaces.
fn spaces(alloc: Global, count: usize) -> Result<Vec<u8>, AllocError> {
    vec![in alloc; b' '; count]
}

/// A name, the words, the bytes of the file `f`, and the library.
const LIBRARIES: [(&str, &str, &str, &str); 8] = [
    ("rules", ONE, OR1, OR1_LIBRARY),
    (
        "no pattern",
        "synth f --bound 0 --budget 100",
        OR1,
        NO_PATTERN,
    ),
    ("an input", ONE, MOVE4, INPUT),
    ("two goals", ONE, TWO_GOALS, TWO_ANSWERS),
    (
        "a bound of 2",
        "synth f --bound 2 --budget 100000",
        NAND1,
        NAND1_LIBRARY,
    ),
    (
        "a bound of 6",
        "synth f --bound 6 --budget 4294967296",
        MOVE4,
        INPUT,
    ),
    (
        "2^16 inputs",
        "synth f --bound 2 --budget 100000",
        ANDN8,
        ANDN8_LIBRARY,
    ),
    // As many units as each claim of one operation has trials.
    (
        "a budget of all trials",
        "synth f --bound 1 --budget 108",
        OR1,
        OR1_LIBRARY,
    ),
];

#[test]
fn accepted_files_have_their_library(rt: HostRuntime) -> Result<(), Fail> {
    for (case, line, text, library) in LIBRARIES {
        let writes = writes(rt.alloc(), line, text, library)?;
        assert!(rt; writes, "{case}");
    }
    Ok(())
}

/// A name, the bytes of the file `f`, and the note.
const REFUSED: [(&str, &str, &str); 7] = [
    ("an operation with a memory", LOAD, "f: MemLater\n"),
    ("a goal with a memory", STORE, "f: MemLater\n"),
    ("a name of nothing", UNKNOWN, "f:2:40: Unknown\n"),
    (
        "an open list",
        "(isel-spec 1 32)\n (op n",
        "f:2:2: Unclosed\n",
    ),
    ("a stray end", "(isel-spec 1 32))", "f:1:17: Stray\n"),
    ("an empty file", "", "f:1:1: Head\n"),
    (
        "no operation",
        "(isel-spec 1 32) ; none\n",
        "f:2:1: Limit\n",
    ),
];

#[test]
fn other_files_are_refused_with_their_reason(rt: HostRuntime) -> Result<(), Fail> {
    for (case, text, note) in REFUSED {
        let refuses = refuses(rt.alloc(), text.as_bytes(), note)?;
        assert!(rt; refuses, "{case}");
    }
    Ok(())
}

#[test]
fn a_file_of_too_many_bytes_is_refused(rt: HostRuntime) -> Result<(), Fail> {
    let most = spaces(rt.alloc(), LARGE)?;
    let more = spaces(rt.alloc(), LARGE + 1)?;
    let looked_at = refuses(rt.alloc(), &most, "f:1:1048577: Head\n")?;
    let too_long = refuses(rt.alloc(), &more, "f: TooLong\n")?;
    assert!(rt; looked_at, "2^20 bytes");
    assert!(rt; too_long, "2^20 + 1 bytes");
    Ok(())
}

const NO_FORM: [&str; 11] = [
    "",
    "synth f --bound 1",
    "synth f --bound 7 --budget 1",
    "synth f --bound 01 --budget 1",
    "synth f --bound 1 --budget 0",
    "synth f --bound 1 --budget 4294967297",
    "synth f --bound 1 --budget +1",
    "synth f --budget 1 --bound 1",
    "synth -f --bound 1 --budget 1",
    "synth f --bound 1 --budget 1 --json",
    "read f --bound 1 --budget 1",
];

#[test]
fn other_words_have_no_form(rt: HostRuntime) -> Result<(), Fail> {
    for line in NO_FORM {
        let none = has_no_form(rt.alloc(), line)?;
        assert!(rt; none, "{line}");
    }
    Ok(())
}

#[test]
fn a_name_without_a_file_cannot_be_read(rt: HostRuntime) -> Result<(), Fail> {
    let outside = without_faults(OR1.as_bytes());
    let ended = ended(
        rt.alloc(),
        "synth g --bound 1 --budget 1",
        outside,
        "",
        "g: ReadFault\n",
    )?;
    assert!(rt; ended == (4, true, true));
    Ok(())
}

/// A name, the bytes of the file `f`, its read that fails, how many bytes the sinks take at a time, the puts of `out`
/// and of `notes` that fail, the status, what is written of the library, and of the note.
const FAULTS: [(&str, &str, u64, usize, u64, u64, u8, &str, &str); 6] = [
    (
        "a read",
        OR1,
        1,
        LARGE,
        NEVER,
        NEVER,
        4,
        "",
        "f: ReadFault\n",
    ),
    ("the first put", OR1, NEVER, LARGE, 0, NEVER, 5, "", ""),
    (
        "the second put",
        OR1,
        NEVER,
        10,
        1,
        NEVER,
        5,
        "(isel-libr",
        "",
    ),
    (
        "no put of ten bytes",
        OR1,
        NEVER,
        10,
        NEVER,
        NEVER,
        0,
        OR1_LIBRARY,
        "",
    ),
    ("the note", UNKNOWN, NEVER, LARGE, NEVER, 0, 5, "", ""),
    (
        "the note's second put",
        UNKNOWN,
        NEVER,
        4,
        NEVER,
        1,
        5,
        "",
        "f:2:",
    ),
];

#[test]
fn failing_reads_and_writes_end_with_their_status(rt: HostRuntime) -> Result<(), Fail> {
    for (case, text, read, step, put, note_put, status, library, note) in FAULTS {
        let outside = Outside {
            bytes: text.as_bytes(),
            read,
            step,
            put,
            note_put,
        };
        let ended = ended(rt.alloc(), ONE, outside, library, note)?;
        assert!(rt; ended == (status, true, true), "{case}");
    }
    Ok(())
}

/// Whether a text stands in another one.
fn stands_in(text: &[u8], whole: &[u8]) -> bool {
    for place in 0..whole.len() {
        if whole[place..].starts_with(text) {
            return true;
        }
    }
    false
}

/// The status of a run on a file, and whether what it writes has that line.
fn lists(alloc: Global, line: &str, text: &str, listed: &str) -> Result<(u8, bool), AllocError> {
    let words = words_of(alloc, line)?;
    let mut files = files_of(alloc, text.as_bytes(), NEVER)?;
    let mut out = sink_of(alloc, LARGE, NEVER)?;
    let mut notes = sink_of(alloc, LARGE, NEVER)?;
    let status = run_here(alloc, &words, &mut files, &mut out, &mut notes);
    Ok((status, stands_in(listed.as_bytes(), out.bytes())))
}

#[test]
fn a_claim_on_which_the_budget_was_spent_is_listed(rt: HostRuntime) -> Result<(), Fail> {
    let listed = lists(
        rt.alloc(),
        "synth f --bound 2 --budget 1",
        ANDN8,
        ANDN8_OPEN,
    )?;
    assert!(rt; listed == (1, true));
    Ok(())
}

/// A file of a goal and so many operations.
fn operations(alloc: Global, count: u32) -> Result<Vec<u8>, AllocError> {
    let mut text = String::from_str(alloc, "(isel-spec 1 32)(goal same ((reg a Bool)) 0 (a))")?;
    for number in 0..count {
        text.push_str(format!(in alloc; "(op f{number} () () (true))")?.as_str())?;
    }
    Vec::from_slice(alloc, text.as_bytes())
}

#[test]
fn a_file_of_too_many_claims_is_refused(rt: HostRuntime) -> Result<(), Fail> {
    let bytes = operations(rt.alloc(), 64)?;
    let outside = without_faults(&bytes);
    let line = "synth f --bound 6 --budget 1";
    let ended = ended(rt.alloc(), line, outside, "", "f: TooMany\n")?;
    assert!(rt; ended == (3, true, true));
    Ok(())
}
