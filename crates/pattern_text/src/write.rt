//! The writer of a library: each function adds to the text what `specs/Text` says, so the text so far is
//! always that of what was written.

ghost use Rattle.std.specs.Prelude.{◌≡◌, ◌++◌, IfOk, OnOk, map, codes, length, slice_get};
ghost use Rattle.std.specs.List.{flat_map};
ghost use Rattle.std.specs.String.{string_bytes};
ghost use Rattle.std.specs.Fmt.{decimal};
ghost use Rattle.pattern_text.specs.Text.{gap, joined, op_name, source_text, node_text, rule_text, open_text};
ghost use Rattle.pattern_text.specs.Text.{answer_text, goal_text, library_text};
ghost use Rattle.isel_spec.specs.Spec.{file};

use isel_spec::Spec;
use multiset_rank::Multi;
use pattern_core::{GoalAnswer, Node, Pattern, Src};
use std::alloc::{AllocError, Global};

/// Adds a source: `iK` for input K, `nJ.R` for result R of node J.
fn push_source(out: &mut String, source: Src) -> Result<(), AllocError>
    ensures { OnOk result (string_bytes out.new ≡ string_bytes out.old ++ source_text source) }
{
    match source {
        Src::Input(number) => write!(out, "i{number}"),
        Src::Out { node, result } => write!(out, "n{node}.{result}"),
    }
}

/// Adds a space, but for the first of the words that it stands between.
#[tactic(auto, using(crate::proofs::Joined::gap_after))]
fn push_gap(out: &mut String, place: usize) -> Result<(), AllocError>
    ensures { OnOk result (string_bytes out.new ≡ string_bytes out.old ++ gap place) }
{
    if place == 0 {
        return Ok(());
    }
    out.push_str(" ")
}

/// Adds sources with single spaces between.
fn push_sources(out: &mut String, sources: &[Src]) -> Result<(), AllocError>
    ensures { OnOk result (string_bytes out.new ≡ string_bytes out.old ++ joined (map source_text sources.now)) }
{
    for (place, source) in sources.iter().enumerate() {
        push_gap(out, place)?;
        push_source(out, *source)?;
    }
    Ok(())
}

/// Adds numbers in decimal, each after a space.
fn push_attrs(out: &mut String, attrs: &[u64]) -> Result<(), AllocError>
    ensures { OnOk result (string_bytes out.new ≡ string_bytes out.old
        ++ flat_map (λ a. codes " " ++ decimal a) attrs.now) }
{
    for attr in attrs {
        write!(out, " {attr}")?;
    }
    Ok(())
}

/// Adds sources, each after a space.
fn push_args(out: &mut String, args: &[Src]) -> Result<(), AllocError>
    ensures { OnOk result (string_bytes out.new ≡ string_bytes out.old
        ++ flat_map (λ s. codes " " ++ source_text s) args.now) }
{
    for arg in args {
        out.push_str(" ")?;
        push_source(out, *arg)?;
    }
    Ok(())
}

/// Adds the name of an operation.
fn push_op_name(out: &mut String, spec: &Spec, op: u16) -> Result<(), AllocError>
    ensures { OnOk result (string_bytes out.new ≡ string_bytes out.old ++ op_name (slice_get (file spec.now).ops op)) }
{
    match spec.ops.get(op as usize) {
        Some((name, _)) => out.push_str(name),
        None => Ok(()),
    }
}

/// Adds `(OP ATTR .. SRC ..)`.
fn push_node(out: &mut String, spec: &Spec, node: &Node) -> Result<(), AllocError>
    ensures { OnOk result (string_bytes out.new ≡ string_bytes out.old ++ node_text (file spec.now) node.now) }
{
    out.push_str("(")?;
    push_op_name(out, spec, node.op)?;
    push_attrs(out, node.attrs.as_slice())?;
    push_args(out, node.args.as_slice())?;
    out.push_str(")")
}

/// Adds nodes with single spaces between.
fn push_nodes(out: &mut String, spec: &Spec, nodes: &[Node]) -> Result<(), AllocError>
    ensures { OnOk result (string_bytes out.new ≡ string_bytes out.old
        ++ joined (map (node_text (file spec.now)) nodes.now)) }
{
    for (place, node) in nodes.iter().enumerate() {
        push_gap(out, place)?;
        push_node(out, spec, node)?;
    }
    Ok(())
}

/// Adds the line `(rule (NODE ..) (SRC ..))`.
fn push_rule(out: &mut String, spec: &Spec, pattern: &Pattern) -> Result<(), AllocError>
    ensures { OnOk result (string_bytes out.new ≡ string_bytes out.old ++ rule_text (file spec.now) pattern.now) }
{
    out.push_str(" (rule (")?;
    push_nodes(out, spec, pattern.nodes.as_slice())?;
    out.push_str(") (")?;
    push_sources(out, pattern.results.as_slice())?;
    out.push_str("))\n")
}

/// Adds a line for each rule.
fn push_rules(out: &mut String, spec: &Spec, rules: &[Pattern]) -> Result<(), AllocError>
    ensures { OnOk result (string_bytes out.new ≡ string_bytes out.old
        ++ flat_map (rule_text (file spec.now)) rules.now) }
{
    for rule in rules {
        push_rule(out, spec, rule)?;
    }
    Ok(())
}

/// Adds the names of operations with single spaces between.
fn push_op_names(out: &mut String, spec: &Spec, ops: &[u16]) -> Result<(), AllocError>
    ensures { OnOk result (string_bytes out.new ≡ string_bytes out.old
        ++ joined (map (λ op. op_name (slice_get (file spec.now).ops op)) ops.now)) }
{
    for (place, op) in ops.iter().enumerate() {
        push_gap(out, place)?;
        push_op_name(out, spec, *op)?;
    }
    Ok(())
}

/// Adds the line `(open (OP ..))`.
fn push_open(out: &mut String, spec: &Spec, multi: &Multi) -> Result<(), AllocError>
    ensures { OnOk result (string_bytes out.new ≡ string_bytes out.old ++ open_text (file spec.now) multi.now) }
{
    out.push_str(" (open (")?;
    push_op_names(out, spec, multi.ops())?;
    out.push_str("))\n")
}

/// Adds a line for each open claim.
fn push_opens(out: &mut String, spec: &Spec, multis: &[Multi]) -> Result<(), AllocError>
    ensures { OnOk result (string_bytes out.new ≡ string_bytes out.old
        ++ flat_map (open_text (file spec.now)) multis.now) }
{
    for multi in multis {
        push_open(out, spec, multi)?;
    }
    Ok(())
}

/// Adds the answer for the goal of that name.
fn push_answer(
    out: &mut String,
    spec: &Spec,
    name: &str,
    answer: &GoalAnswer,
) -> Result<(), AllocError>
    ensures { OnOk result (string_bytes out.new ≡ string_bytes out.old
        ++ answer_text (file spec.now) name.now answer.now) }
{
    match answer {
        GoalAnswer::Complete { size, rules } => {
            writeln!(out, "(goal {name} complete {size}")?;
            push_rules(out, spec, rules.as_slice())?;
            out.push_str(")\n")
        }
        GoalAnswer::Partial {
            size,
            rules,
            undecided,
        } => {
            writeln!(out, "(goal {name} partial {size}")?;
            push_rules(out, spec, rules.as_slice())?;
            push_opens(out, spec, undecided.as_slice())?;
            out.push_str(")\n")
        }
        GoalAnswer::None => writeln!(out, "(goal {name} none)"),
        GoalAnswer::Stopped { undecided } => {
            writeln!(out, "(goal {name} stopped")?;
            push_opens(out, spec, undecided.as_slice())?;
            out.push_str(")\n")
        }
    }
}

/// Adds the answer for the goal in that place.
fn push_goal(
    out: &mut String,
    spec: &Spec,
    place: usize,
    answer: &GoalAnswer,
) -> Result<(), AllocError>
    ensures { OnOk result (string_bytes out.new ≡ string_bytes out.old
        ++ goal_text (file spec.now) (slice_get (file spec.now).goals place) answer.now) }
{
    match spec.goals.get(place) {
        Some((name, _)) => push_answer(out, spec, name, answer),
        None => Ok(()),
    }
}

/// The text of a library: an answer for each goal, in the file's order.
pub fn write_library(
    alloc: Global,
    spec: &Spec,
    answers: &[GoalAnswer],
) -> Result<String, AllocError>
    requires { length answers.now ≡ length spec.now.goals }
    ensures { IfOk result (λ text. string_bytes text ≡ library_text (file spec.now) answers.now) }
{
    let mut out = String::from_str(alloc, "(isel-library 1)\n")?;
    for (place, answer) in answers.iter().enumerate() {
        push_goal(&mut out, spec, place, answer)?;
    }
    Ok(out)
}
