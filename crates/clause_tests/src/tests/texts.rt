//! Texts in DIMACS form, what they say by hand, and the lines at which others are refused.

use super::numbers::lit;
use cnf_core::{Chain, Clause};
use dimacs::{Fault, ParseError, parse};
use std::alloc::Global;
use std::test::Fail;

/// A text, its number of variables, its clauses as numbers with a 0 after each, and its chains: the number of its first
/// clause after a 0, and then its steps.
const TEXTS: [(&str, usize, &[i32], &[(i32, usize)]); 4] = [
    ("p cnf 0 0", 0, &[], &[]),
    (
        "c x, not x\n\np cnf 2 2\n1 2 0\n\t-1  0\nr 0 1 1\n",
        2,
        &[1, 2, 0, -1, 0],
        &[(0, 0), (1, 1)],
    ),
    ("p cnf 3 1\n0\n", 3, &[0], &[]),
    (
        "p cnf 2 1\n 2 -2 2 0 \ncomment\nr 7\nr 1 -2 0 1 18446744073709551615\n",
        2,
        &[2, -2, 2, 0],
        &[(0, 7), (0, 1), (-2, 0), (1, usize::MAX)],
    ),
];

/// A text, and why it is refused.
const REFUSALS: [(&str, ParseError); 12] = [
    (
        "p cnf 1 2\n1 0 -1 0\n",
        ParseError::Line(2, Fault::BadClause),
    ),
    (
        "p cnf 1 2\n1 0\n-1\n",
        ParseError::Line(3, Fault::BadClause),
    ),
    ("p cnf 1 1\n2 0\n", ParseError::Line(2, Fault::BadClause)),
    ("p cnf 1 1\n--1 0\n", ParseError::Line(2, Fault::BadClause)),
    ("p cnf 1 2\n1 0\n", ParseError::Line(3, Fault::WrongCount)),
    ("p cnf 1 0\n1 0\n", ParseError::Line(3, Fault::WrongCount)),
    ("c\n1 0\n", ParseError::Line(2, Fault::NoHead)),
    ("", ParseError::Line(1, Fault::NoHead)),
    (
        "p cnf 1099511627777 0\n",
        ParseError::Line(1, Fault::BadHead),
    ),
    (
        "p cnf 1 0\np cnf 1 0\n",
        ParseError::Line(2, Fault::LateHead),
    ),
    ("p cnf 1 0\nr 0 1\n", ParseError::Line(2, Fault::BadChain)),
    (
        "p cnf 1 2\n1 0\nr 0\n-1 0\n",
        ParseError::Line(4, Fault::LateClause),
    ),
];

/// Whether the clauses are these numbers.
fn are_clauses(clauses: &[Clause], numbers: &[i32]) -> bool {
    let mut left = numbers;
    for clause in clauses {
        for found in clause.lits.as_slice() {
            let [number, rest @ ..] = left else {
                return false;
            };
            if *number == 0 || lit(*number) != *found {
                return false;
            }
            left = rest;
        }
        let [end, rest @ ..] = left else {
            return false;
        };
        if *end != 0 {
            return false;
        }
        left = rest;
    }
    left.is_empty()
}

/// Whether the chains are these pairs.
fn are_chains(chains: &[Chain], pairs: &[(i32, usize)]) -> bool {
    let mut left = pairs;
    for chain in chains {
        let [first, rest @ ..] = left else {
            return false;
        };
        if *first != (0, chain.first) {
            return false;
        }
        left = rest;
        for (pivot, clause) in chain.steps.as_slice() {
            let [(number, place), rest @ ..] = left else {
                return false;
            };
            if *number == 0 || lit(*number) != *pivot || place != clause {
                return false;
            }
            left = rest;
        }
    }
    left.is_empty()
}

/// Whether a text says this.
fn says(
    alloc: Global,
    text: &str,
    variables: usize,
    numbers: &[i32],
    pairs: &[(i32, usize)],
) -> bool {
    let Ok(input) = parse(alloc, text.as_bytes()) else {
        return false;
    };
    input.cnf.variables() == variables
        && are_clauses(input.cnf.clauses(), numbers)
        && are_chains(input.log.chains.as_slice(), pairs)
}

/// Why a text is refused.
fn refusal(alloc: Global, text: &str) -> Option<ParseError> {
    match parse(alloc, text.as_bytes()) {
        Ok(_) => None,
        Err(error) => Some(error),
    }
}

#[test]
fn texts_say_what_they_say_by_hand(rt: HostRuntime) -> Result<(), Fail> {
    for (text, variables, numbers, pairs) in TEXTS {
        let said = says(rt.alloc(), text, variables, numbers, pairs);
        assert!(rt; said, "{text}");
    }
    Ok(())
}

#[test]
fn others_are_refused_at_their_lines(rt: HostRuntime) -> Result<(), Fail> {
    for (text, wanted) in REFUSALS {
        let found = refusal(rt.alloc(), text);
        assert!(rt; found == Some(wanted), "{text}");
    }
    Ok(())
}
