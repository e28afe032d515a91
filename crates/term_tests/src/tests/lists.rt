//! Faults and forests of small texts, and the accessors on one of them.

use sexp_read::*;
use std::test::*;

/// A name, a text, and its fault.
const FAULTS: [(&str, &[u8], SexpFault); 12] = [
    (
        "256 deep, never closed",
        &[b'('; 256],
        SexpFault::Unclosed(0),
    ),
    ("257 deep", &[b'('; 257], SexpFault::Deep(256)),
    ("stray", b"a)", SexpFault::Stray(1)),
    ("no text before a stray", b"\0)", SexpFault::NotText(0)),
    ("a stray before no text", b")\0", SexpFault::Stray(0)),
    ("no text before the end", b"(\x7F", SexpFault::NotText(1)),
    ("no text in a word", b"a\0b", SexpFault::NotText(1)),
    ("no text in a comment", b"; \x80\n", SexpFault::NotText(2)),
    ("closed in a comment", b"(; )\n", SexpFault::Unclosed(0)),
    (
        "a return ends no comment",
        b"(; x\r)",
        SexpFault::Unclosed(0),
    ),
    ("the outermost of two", b" ((a)", SexpFault::Unclosed(1)),
    ("after a whole list", b"() (()\n(", SexpFault::Unclosed(3)),
];

#[test]
fn faults(rt: HostRuntime) {
    for (name, bytes, fault) in FAULTS {
        assert!(rt; read(rt.alloc(), bytes).err() == Some(fault), "{name}");
    }
}

/// Whether items have these spans.
fn have_spans(items: &[Item], spans: &[(usize, usize)]) -> bool {
    items.len() == spans.len()
        && items
            .iter()
            .zip(spans)
            .all(|(item, span)| (item.from, item.to) == *span)
}

/// Whether the members of the lists among items, one list after another, are these.
fn have_members(items: &[Item], members: &[usize]) -> bool {
    let mut left = members.iter();
    for item in items {
        if let Body::List { children } = &item.body {
            for child in children.as_slice() {
                if left.next() != Some(child) {
                    return false;
                }
            }
        }
    }
    left.next().is_none()
}

/// A name, a text, the span of each item, the members of one list after another, and the outermost items.
const FORESTS: [(&str, &[u8], &[(usize, usize)], &[usize], &[usize]); 8] = [
    ("no byte", b"", &[], &[], &[]),
    ("a comment to the end", b"; no line end (", &[], &[], &[]),
    (
        "a word and a list",
        b"a(b)",
        &[(0, 1), (1, 4), (2, 3)],
        &[2],
        &[0, 1],
    ),
    (
        "nested",
        b"((()))",
        &[(0, 6), (1, 5), (2, 4)],
        &[1, 2],
        &[0],
    ),
    (
        "all blanks",
        b"a b\r\n\tc",
        &[(0, 1), (2, 3), (6, 7)],
        &[],
        &[0, 1, 2],
    ),
    (
        "no quotes",
        b"|a b| \"c",
        &[(0, 2), (3, 5), (6, 8)],
        &[],
        &[0, 1, 2],
    ),
    (
        "a comment ends a word",
        b"x;(;)\ny",
        &[(0, 1), (6, 7)],
        &[],
        &[0, 1],
    ),
    (
        "members in order",
        b"(a (b) c)()",
        &[(0, 9), (1, 2), (3, 6), (4, 5), (7, 8), (9, 11)],
        &[1, 2, 4, 3],
        &[0, 5],
    ),
];

#[test]
fn forests(rt: HostRuntime) -> Result<(), Fail> {
    for (name, bytes, spans, members, top) in FORESTS {
        let forest = read(rt.alloc(), bytes).ok().ok_or("the bytes are a text")?;
        let items = forest.items.as_slice();
        assert!(rt; forest.top() == top && have_spans(items, spans), "{name}");
        assert!(rt; have_members(items, members), "{name}");
    }
    Ok(())
}

#[test]
fn accessors(rt: HostRuntime) -> Result<(), Fail> {
    let bytes = b"(add x (\"1 2\"))";
    let forest = read(rt.alloc(), bytes).ok().ok_or("the bytes are a text")?;
    assert!(rt; forest.items.len() == 6);
    assert!(rt; forest.is_headed_by(bytes, 0, b"add") && !forest.is_headed_by(bytes, 0, b"ad"));
    assert!(rt; !forest.is_headed_by(bytes, 1, b"add"));
    assert!(rt; forest.children(3) == Some([4, 5].as_slice()));
    assert!(rt; forest.atom(bytes, 2) == Some(b"x".as_slice()));
    assert!(rt; forest.text(bytes, 3) == b"(\"1 2\")".as_slice());
    Ok(())
}
