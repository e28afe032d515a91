//! Tests: libraries that are read, and the first fault of a text that is none, with its place.

use super::faults::without_marks;
use isel_spec::Spec;
use pattern_core::{Node, Pattern, Src};
use pattern_text::{Claimed, LibFault, LibKind, State, read_library};
use spec_reader::read_spec;
use std::alloc::{AllocError, Global};
use std::test::Fail;

/// The file that all libraries here are of, but for those with many rules.
const FILE: &str = "\
(isel-spec 1 32)
(op not8 ((a (_ BitVec 8))) () ((bvnot a)))
(op and8 ((a (_ BitVec 8)) (b (_ BitVec 8))) () ((bvand a b)))
(op const8 () ((k (_ BitVec 8))) (k))
(goal andn8 ((reg a (_ BitVec 8)) (reg b (_ BitVec 8))) 1 ((bvand (bvnot a) b)))
(goal mov8 ((reg a (_ BitVec 8))) 1 (a))
(goal one8 () 1 (#x01))
";

fn spec_of(alloc: Global, text: &str) -> Result<Spec, Fail> {
    Ok(read_spec(alloc, text.as_bytes()).ok().ok_or("a file")?)
}

/// The name of a kind.
fn word_of(kind: LibKind) -> &'static str {
    match kind {
        LibKind::NotText => "NotText",
        LibKind::Unclosed => "Unclosed",
        LibKind::Stray => "Stray",
        LibKind::Deep => "Deep",
        LibKind::Unknown => "Unknown",
        LibKind::Shape => "Shape",
        LibKind::NotCanonical => "NotCanonical",
        LibKind::Twice => "Twice",
        LibKind::Limit => "Limit",
        LibKind::NoMemory => "NoMemory",
    }
}

/// Cases, a line each: the kind, what the case shows, and the text, with the fault's place between marks.
const TEXTS: &str = "\
NotText a byte above all texts: (isel-library 1) [\x7f]
NotText in a comment: (isel-library 1) ; [\0] (
NotText before a list that is never closed: (isel-library 1) ( [\x7f]
NotText after a claim that is none: (isel-library 1) (goal) [\x7f]
Stray a list closed twice: (isel-library 1)[)] (goal
Stray before any list: [)](isel-library 1)
Unclosed the outermost of two: (isel-library 1) [(]goal mov8 (
Unclosed the head: [(]isel-library 1
Shape nothing: []
Shape only a comment: ; (isel-library 1)[]
Shape a word: [isel-library] 1
Shape another word: [(library 1)]
Shape another version: [(isel-library 2)]
Shape a version with a zero: [(isel-library 01)]
Shape a version too many: [(isel-library 1 1)]
Shape a claim before the head: [(goal mov8 none)] (isel-library 1)
Shape a second head: (isel-library 1) [(isel-library 1)]
";

/// The same, where the head stands in front.
const CLAIMS: &str = "\
Shape a word: [goal]
Shape an empty list: [()]
Shape a list as the head: [((goal) mov8 none)]
Shape another head: [(goals mov8 none)]
Shape nothing of the goal: [(goal mov8)]
Shape another state: [(goal mov8 some)]
Shape a list as the state: [(goal mov8 (none))]
Shape no name: [(goal 8mov none)]
Shape a truth value as a name: [(goal true none)]
Shape a list as a name: [(goal (mov8) none)]
Shape no size: [(goal mov8 complete)]
Shape a rule as a size: [(goal mov8 partial (rule () (i0)))]
Shape a size of seven: [(goal mov8 complete 7)]
Shape a size with a zero: [(goal mov8 complete 00 (rule () (i0)))]
Shape a size where nothing has one: [(goal mov8 stopped 0)]
Shape an open claim where all is known: [(goal mov8 complete 0 (open ()))]
Shape a rule after an open claim: [(goal mov8 partial 0 (open ()) (rule () (i0)))]
Shape a rule where none is known: [(goal mov8 stopped (rule () (i0)))]
Shape an open claim where nothing is open: [(goal mov8 none (open ()))]
Shape a word among rules: [(goal mov8 complete 0 rule)]
Shape an empty list among open claims: [(goal mov8 stopped ())]
Shape the form before the name: [(goal nowhere complete 7)]
Unknown no goal: (goal [mov9] none)
Unknown an operation: (goal [not8] stopped)
Unknown the name before rules: (goal [mov9] complete 0 (rule))
Unknown the first of two claims: (goal [mov9] none) (goal mov8)
Shape the second of two claims: (goal mov8 none) [(goal one8)]
Twice two claims on a goal: (goal mov8 none) [(goal mov8 stopped)]
Twice after another goal: (goal mov8 none) (goal one8 none) [(goal mov8 none)]
Twice before its rules: (goal mov8 none) [(goal mov8 complete 0 (rule))]
Shape rules before a goal that comes twice: (goal mov8 complete 0 [(rule)]) (goal mov8 none)
Shape an open claim of no list: (goal mov8 stopped [(open)])
Shape an open claim of two lists: (goal mov8 stopped [(open () ())])
Shape an open claim of a word: (goal mov8 stopped [(open not8)])
Shape an open claim of a list in a list: (goal mov8 stopped [(open ((not8)))])
Shape numbers that fall: (goal mov8 stopped (open (not8 and8)) [(open (and8 not8))])
Shape seven operations: (goal mov8 stopped [(open (not8 not8 not8 not8 not8 not8 not8))])
Unknown an open operation: (goal mov8 stopped (open (not8 [nor8])))
Unknown before numbers that fall: (goal mov8 partial 0 (rule () (i0)) (open (and8 not8 [nor8])))
Unknown an attribute as an operation: (goal mov8 stopped (open ([1])))
Shape a rule before an open claim: (goal mov8 partial 0 [(rule)] (open))
Shape an open claim after a rule: (goal mov8 partial 0 (rule () (i0)) [(open)])
";

/// The same for rules, where a claim of a size on a goal stands in front as well: the goal and the size come first.
const RULES: &str = "\
mov8 complete 0 Shape no lists: [(rule)]
mov8 complete 0 Shape one list: [(rule ())]
mov8 complete 0 Shape a list too many: [(rule () (i0) ())]
mov8 complete 0 Shape a word as the results: [(rule () i0)]
andn8 complete 1 Shape a word as a node: [(rule (not8) (n0.0))]
andn8 complete 1 Shape an empty node: [(rule (()) (n0.0))]
andn8 complete 1 Shape a list as an operation: [(rule (((not8) i0)) (n0.0))]
andn8 complete 1 Shape an attribute after a source: [(rule ((not8 i0 1)) (n0.0))]
mov8 complete 0 Shape a zero before an input: [(rule () (i00))]
mov8 complete 0 Shape no number of an input: [(rule () (i))]
mov8 complete 0 Shape another letter: [(rule () (x0))]
andn8 complete 1 Shape a node without its result: [(rule ((not8 i0)) (n0))]
andn8 complete 1 Shape a node without a number: [(rule ((not8 i0)) (n.0))]
andn8 complete 1 Shape two points: [(rule ((not8 i0)) (n0.0.0))]
andn8 complete 1 Shape the form before a name: [(rule ((nor8 i0)) (x0))]
andn8 complete 1 Unknown no operation: (rule (([nor8] i0)) (n0.0))
andn8 complete 2 Unknown the second operation: (rule ((not8 i0) ([nor8] i1)) (n0.0))
andn8 complete 2 Unknown the first of two: (rule (([nor8] i0) (nand8 i1)) (n0.0))
andn8 complete 1 Unknown a goal: (rule (([mov8] i0)) (n0.0))
andn8 complete 1 Unknown a name before numbers that are too large: (rule (([nor8] i99999999999999999999)) (n9.9))
mov8 complete 0 Shape a fifth input: [(rule () (i4))]
mov8 complete 0 Shape a second input of a goal with one: [(rule () (i1))]
mov8 complete 0 Shape an input past all machine words: [(rule () (i18446744073709551616))]
mov8 complete 0 Shape a node where there is none: [(rule () (n0.0))]
mov8 complete 0 Shape a result too many: [(rule () (i0 i0))]
mov8 complete 0 Shape no result: [(rule () ())]
andn8 complete 1 Shape an operand too many: [(rule ((not8 i0 i1)) (n0.0))]
andn8 complete 1 Shape an operand too few: [(rule ((and8 i0)) (n0.0))]
andn8 complete 1 Shape a second result of an operation with one: [(rule ((not8 i0)) (n0.1))]
andn8 complete 2 Shape a later node as an operand: [(rule ((not8 n1.0) (not8 i0)) (n0.0))]
one8 complete 1 Shape no attribute: [(rule ((const8)) (n0.0))]
one8 complete 1 Shape an attribute too many: [(rule ((const8 1 1)) (n0.0))]
one8 complete 1 Shape an attribute of nine bits: [(rule ((const8 256)) (n0.0))]
one8 complete 1 Shape an attribute past all machine words: [(rule ((const8 18446744073709551616)) (n0.0))]
one8 complete 1 Shape an attribute with a zero: [(rule ((const8 01)) (n0.0))]
andn8 complete 1 Shape two nodes where one is claimed: [(rule ((not8 i0) (and8 n0.0 i1)) (n1.0))]
andn8 partial 2 Shape one node where two are claimed: [(rule ((and8 i0 i1)) (n0.0))]
andn8 complete 6 Shape seven nodes: [(rule ((not8 i0) (not8 n0.0) (not8 n1.0) (not8 n2.0) (not8 n3.0) (not8 n4.0) \
(not8 n5.0)) (n6.0))]
andn8 complete 2 Shape a node that is not used: [(rule ((not8 i0) (not8 i1)) (n1.0))]
andn8 complete 3 NotCanonical operands in the other order: [(rule ((not8 i0) (not8 i1) (and8 n1.0 n0.0)) (n2.0))]
andn8 complete 3 NotCanonical before a rule that comes twice: (rule ((not8 i0) (not8 i1) (and8 n0.0 n1.0)) (n2.0)) \
[(rule ((not8 i1) (not8 i0) (and8 n1.0 n0.0)) (n2.0))]
mov8 complete 0 Twice a rule: (rule () (i0)) [(rule () (i0))]
andn8 partial 2 Twice after another rule: (rule ((not8 i0) (and8 n0.0 i1)) (n1.0)) (rule ((not8 i0) (and8 i1 n0.0)) \
(n1.0)) [(rule ( (not8 i0) (and8 n0.0 i1) ) ( n1.0 ))]
andn8 partial 2 Twice the later of two rules: (rule ((not8 i0) (and8 n0.0 i1)) (n1.0)) (rule ((not8 i0) \
(and8 i1 n0.0)) (n1.0)) [(rule ((not8 i0) (and8 i1 n0.0)) (n1.0))]
one8 complete 1 Twice an attribute: (rule ((const8 1)) (n0.0)) (rule ((const8 0)) (n0.0)) [(rule ((const8 1)) (n0.0))]
mov8 complete 0 Shape a fault before a rule that comes twice: (rule () (i0)) [(rule () (i1))] (rule () (i0))
mov8 partial 0 Twice a rule before an open claim: (rule () (i0)) [(rule () (i0))] (open (nor8))
";

/// Whether the first fault of a text is of this kind, from the one mark to the other.
fn has_fault(alloc: Global, spec: &Spec, bytes: &[u8], word: &str) -> Result<bool, AllocError> {
    let marked = without_marks(alloc, bytes)?;
    match read_library(alloc, spec, &marked.text) {
        Err(LibFault { kind, from, to }) => {
            Ok(word_of(kind) == word && from == marked.from && to == marked.to)
        }
        Ok(_) => Ok(false),
    }
}

/// The parts of a case's line: the kind, what it shows, and the text.
fn case_of(line: &str) -> Option<(&str, &str, &str)> {
    let (word, rest) = line.split_once(" ")?;
    let (name, text) = rest.split_once(": ")?;
    Some((word, name, text))
}

/// The parts of a rule's case: the goal, the state and the size, and what follows.
fn claim_of(line: &str) -> Option<(&str, &str, &str, &str)> {
    let (goal, rest) = line.split_once(" ")?;
    let (state, rest) = rest.split_once(" ")?;
    let (size, rest) = rest.split_once(" ")?;
    Some((goal, state, size, rest))
}

/// Whether the text of a case, after what stands in front of it, has its fault.
fn is_right(
    alloc: Global,
    spec: &Spec,
    front: &str,
    word: &str,
    text: &str,
) -> Result<bool, AllocError> {
    let mut whole = String::from_str(alloc, front)?;
    whole.push_str(text)?;
    has_fault(alloc, spec, whole.as_bytes(), word)
}

/// Whether rules, in a claim of this state and size on a goal, have a fault.
fn is_right_rule(
    alloc: Global,
    spec: &Spec,
    goal: &str,
    state: &str,
    size: &str,
    word: &str,
    text: &str,
) -> Result<bool, AllocError> {
    let whole = format!(in alloc; "(isel-library 1) (goal {goal} {state} {size} {text})")?;
    has_fault(alloc, spec, whole.as_bytes(), word)
}

#[test]
fn the_first_fault_of_a_library(rt: HostRuntime) -> Result<(), Fail> {
    let spec = spec_of(rt.alloc(), FILE)?;
    for line in TEXTS.lines() {
        let (word, name, text) = case_of(line).ok_or("a case")?;
        assert!(rt; is_right(rt.alloc(), &spec, "", word, text)?, "{name}");
    }
    Ok(())
}

#[test]
fn the_first_fault_of_a_claim(rt: HostRuntime) -> Result<(), Fail> {
    let spec = spec_of(rt.alloc(), FILE)?;
    for line in CLAIMS.lines() {
        let (word, name, text) = case_of(line).ok_or("a case")?;
        assert!(rt;
            is_right(rt.alloc(), &spec, "(isel-library 1) ", word, text)?,
            "{name}"
        );
    }
    Ok(())
}

#[test]
fn the_first_fault_of_a_rule(rt: HostRuntime) -> Result<(), Fail> {
    let spec = spec_of(rt.alloc(), FILE)?;
    for line in RULES.lines() {
        let (goal, state, size, rest) = claim_of(line).ok_or("a claim")?;
        let (word, name, text) = case_of(rest).ok_or("a case")?;
        assert!(rt;
            is_right_rule(rt.alloc(), &spec, goal, state, size, word, text)?,
            "{name}"
        );
    }
    Ok(())
}

#[test]
fn one_list_too_deep(rt: HostRuntime) -> Result<(), Fail> {
    let spec = spec_of(rt.alloc(), FILE)?;
    let fault = LibFault {
        kind: LibKind::Deep,
        from: 256,
        to: 257,
    };
    assert!(rt; read_library(rt.alloc(), &spec, &[b'('; 258]).err() == Some(fault));
    Ok(())
}

// ---- what is read

fn push_source(text: &mut String, source: Src) -> Result<(), Fail> {
    match source {
        Src::Input(input) => write!(text, " i{input}")?,
        Src::Out { node, result } => write!(text, " n{node}.{result}")?,
    }
    Ok(())
}

fn push_node(text: &mut String, node: &Node) -> Result<(), Fail> {
    write!(text, " ({}", node.op)?;
    for attr in node.attrs.as_slice() {
        write!(text, " {attr}")?;
    }
    for source in node.args.as_slice() {
        push_source(text, *source)?;
    }
    text.push_str(")")?;
    Ok(())
}

fn push_rule(text: &mut String, rule: &Pattern, place: usize) -> Result<(), Fail> {
    write!(text, " [{place}:")?;
    for node in rule.nodes.as_slice() {
        push_node(text, node)?;
    }
    text.push_str(" ->")?;
    for source in rule.results.as_slice() {
        push_source(text, *source)?;
    }
    text.push_str("]")?;
    Ok(())
}

fn push_state(text: &mut String, state: State) -> Result<(), Fail> {
    match state {
        State::Complete(size) => write!(text, " complete {size}")?,
        State::Partial(size) => write!(text, " partial {size}")?,
        State::None => text.push_str(" none")?,
        State::Stopped => text.push_str(" stopped")?,
    }
    Ok(())
}

fn push_open(text: &mut String, ops: &[u16]) -> Result<(), Fail> {
    text.push_str(" {")?;
    for op in ops {
        write!(text, " {op}")?;
    }
    text.push_str(" }")?;
    Ok(())
}

fn push_rules(text: &mut String, rules: &[Pattern], places: &[usize]) -> Result<(), Fail> {
    for (rule, place) in rules.iter().zip(places) {
        push_rule(text, rule, *place)?;
    }
    Ok(())
}

fn push_claim(text: &mut String, claim: &Claimed) -> Result<(), Fail> {
    write!(text, "{}", claim.goal)?;
    push_state(text, claim.state)?;
    push_rules(text, claim.rules.as_slice(), claim.places.as_slice())?;
    for multi in claim.undecided.as_slice() {
        push_open(text, multi.ops())?;
    }
    text.push_str(";")?;
    Ok(())
}

/// What a text is read as, by numbers.
fn shown(alloc: Global, spec: &Spec, bytes: &[u8]) -> Result<String, Fail> {
    let claims = read_library(alloc, spec, bytes).ok().ok_or("a library")?;
    let mut text = String::new(alloc);
    for claim in claims.as_slice() {
        push_claim(&mut text, claim)?;
    }
    Ok(text)
}

/// Whether a text is read as this.
fn is_read(alloc: Global, spec: &Spec, text: &str, wanted: &str) -> Result<bool, Fail> {
    Ok(shown(alloc, spec, text.as_bytes())?.as_str() == wanted)
}

/// What the case shows, what is read, and the text.
const READ: [(&str, &str, &str); 10] = [
    ("no claim", "", "(isel-library 1)"),
    ("none", "2 none;", "(isel-library 1) (goal one8 none)"),
    (
        "a complete claim of no rule",
        "1 complete 6;",
        "(isel-library 1) (goal mov8 complete 6)",
    ),
    (
        "a rule of no node",
        "1 complete 0 [40: -> i0];",
        "(isel-library 1)\n(goal mov8 complete 0\n (rule () (i0))\n)\n",
    ),
    (
        "two rules",
        "0 complete 2 [41: (0 i0) (1 n0.0 i1) -> n1.0] [83: (0 i0) (1 i1 n0.0) -> n1.0];",
        "(isel-library 1)\n(goal andn8 complete 2\n (rule ((not8 i0) (and8 n0.0 i1)) (n1.0))\n \
        (rule ((not8 i0) (and8 i1 n0.0)) (n1.0))\n)\n",
    ),
    (
        "an attribute, and an open claim after it",
        "2 partial 1 [38: (2 1) -> n0.0] { 0 } { 0 1 };",
        "(isel-library 1)\n(goal one8 partial 1 (rule ((const8 1)) (n0.0)) (open (not8)) (open (not8 and8)))",
    ),
    (
        "no rule and no open claim",
        "2 partial 1;",
        "(isel-library 1) (goal one8 partial 1)",
    ),
    (
        "open claims alone, in any order and also twice",
        "0 stopped { 1 1 } { } { 1 1 };",
        "(isel-library 1)\n(goal andn8 stopped\n (open (and8 and8))\n (open ())\n (open (and8 and8)))",
    ),
    (
        "the goals in another order",
        "2 none;0 stopped;1 complete 0 [75: -> i0];",
        "(isel-library 1) (goal one8 none) (goal andn8 stopped)(goal mov8 complete 0(rule()(i0)))",
    ),
    (
        "any spacing and comments",
        "1 complete 0 [54: -> i0];0 stopped { 0 0 };",
        "; a library\n(\tisel-library;(\r\n1 )(goal mov8 complete 0(rule;)\n()\r(i0)\n))(goal andn8 \
        stopped(open(not8 not8))) ; end",
    ),
];

#[test]
fn libraries_are_read(rt: HostRuntime) -> Result<(), Fail> {
    let spec = spec_of(rt.alloc(), FILE)?;
    for (name, wanted, text) in READ {
        assert!(rt; is_read(rt.alloc(), &spec, text, wanted)?, "{name}");
    }
    Ok(())
}

// ---- many rules

/// A file with 65,536 rules of one node.
const WIDE: &str = "\
(isel-spec 1 32)
(op k16 () ((k (_ BitVec 16))) (k))
(goal zero16 () 1 (#x0000))
(goal one16 () 1 (#x0001))
";

/// A library whose one claim has so many rules, each of another attribute, and what follows.
fn many_rules(alloc: Global, count: u32, back: &str) -> Result<String, Fail> {
    let mut text = String::from_str(alloc, "(isel-library 1) (goal zero16 complete 1")?;
    for number in 0..count {
        // All numbers below 2^16, in an order that neither rises nor falls.
        write!(
            text,
            "(rule((k16 {}))(n0.0))",
            u64::from(number) * 40503 % 65536
        )?;
    }
    text.push_str(back)?;
    Ok(text)
}

/// How many rules are read.
fn rules_read(alloc: Global, spec: &Spec, text: &str) -> Result<usize, Fail> {
    let claims = read_library(alloc, spec, text.as_bytes())
        .ok()
        .ok_or("a library")?;
    match claims.first() {
        Some(claim) => Ok(claim.rules.len()),
        None => Ok(0),
    }
}

#[test]
fn as_many_rules_as_a_library_may_have(rt: HostRuntime) -> Result<(), Fail> {
    let spec = spec_of(rt.alloc(), WIDE)?;
    let most = many_rules(rt.alloc(), 65536, ")")?;
    assert!(rt; rules_read(rt.alloc(), &spec, most.as_str())? == 65536);
    Ok(())
}

#[test]
fn one_rule_too_many(rt: HostRuntime) -> Result<(), Fail> {
    let spec = spec_of(rt.alloc(), WIDE)?;
    let text = many_rules(rt.alloc(), 65536, ") (goal one16 partial 1 [(rule)])")?;
    assert!(rt; has_fault(rt.alloc(), &spec, text.as_bytes(), "Limit")?);
    Ok(())
}
