//! The patterns of a multiset, handed on in order: node by node by operation, attributes and arguments, then by
//! results, as `specs/Patterns` lists the candidates. Those that are well-formed and canonical go to a sieve.

ghost use Rattle.std.specs.Prelude.{◌≡◌, ◌<◌, ◌≤◌, ◌+◌, ℕ, List, [], ◌∷◌, ◌++◌, All, length, map, slice_get};
ghost use Rattle.std.specs.Prelude.{Some, IfOk, OnOk};
ghost use Rattle.bv_terms.specs.Table.{IsTable};
ghost use Rattle.isel_spec.specs.File.{Goal};
ghost use Rattle.isel_spec.specs.Spec.{file};
ghost use Rattle.isel_spec.specs.declared.spec.Spec.{Spec};
ghost use Rattle.multiset_rank.specs.Multisets.{AreBelow};
ghost use Rattle.pattern_core.specs.declared.pattern.Pattern.{Pattern};
ghost use Rattle.pattern_core.specs.Pattern.{IsWellFormed};
ghost use Rattle.plain_search.specs.Extent.{attribute_bits, attribute_bits_of};
ghost use Rattle.plain_search.specs.Patterns.{patterns_of, without, ArePatterns};
ghost use Rattle.plain_search.specs.Sieve.{Taken, Sifts, candidates_after, candidates_with, candidates_over};

use crate::choices::attribute_choices;
use crate::remaining::{different, without};
use crate::sources::{argument_choices, result_choices};
use collections::Seq;
use isel_spec::Spec;
use multiset_rank::Multi;
use pattern_core::{Node, Pattern, Src, is_canonical, is_well_formed};
use std::alloc::{AllocError, Global};
use std::mem;

/// What is done with each pattern of a multiset.
pub trait Sieve {
    /// Whether it is for this goal of this file.
    ghost is_for: { Self → Spec → ℕ → Type 0 };

    /// What taking a pattern leaves of it.
    ghost takes: { Self → Pattern → Self → Type 0 };

    /// Takes a pattern. An `Err` is out of memory.
    fn take(
        &mut self,
        alloc: Global,
        spec: &Spec,
        goal: u32,
        pattern: &Pattern,
    ) -> Result<(), AllocError>
        requires for_goal { is_for self.old spec.now goal }
        requires there { goal < length spec.now.goals }
        requires well_formed { (g : Goal) → slice_get (file spec.now).goals goal ≡ Some g
            → IsWellFormed (file spec.now) g pattern.now }
        ensures taken { OnOk result (takes self.old pattern.now self.new) }
        ensures for_goal { OnOk result (is_for self.new spec.now goal) };
}

/// A copy of some elements.
fn copied<T: Copy>(alloc: Global, elements: &[T]) -> Result<Seq<T>, AllocError>
    ensures { IfOk result (λ copy. copy ≡ elements.now) }
{
    let copy = elements.iter().copied().collect(alloc)?;
    Ok(Seq::from_vec(copy))
}

/// Hands the pattern to the sieve, if it is well-formed and canonical.
fn sift<S: Sieve>(
    alloc: Global,
    spec: &Spec,
    goal: u32,
    pattern: &Pattern,
    sieve: &mut S,
) -> Result<(), AllocError>
    requires there { goal < length spec.now.goals }
    requires table { IsTable spec.now.terms }
    requires for_goal { S.is_for sieve.old spec.now goal }
    ensures sifts { OnOk result (Sifts S.takes (file spec.now) goal sieve.old (λ _. pattern.now ∷ []) sieve.new) }
    ensures for_goal { OnOk result (S.is_for sieve.new spec.now goal) }
{
    if !is_well_formed(spec, goal, pattern) {
        return Ok(());
    }
    if !is_canonical(pattern) {
        return Ok(());
    }
    sieve.take(alloc, spec, goal, pattern)
}

/// Sifts the pattern with each of these choices of results.
fn sift_results<S: Sieve>(
    alloc: Global,
    spec: &Spec,
    goal: u32,
    pattern: &mut Pattern,
    choices: &[Seq<Src>],
    sieve: &mut S,
) -> Result<(), AllocError>
    requires there { goal < length spec.now.goals }
    requires table { IsTable spec.now.terms }
    requires for_goal { S.is_for sieve.old spec.now goal }
    ensures sifts { OnOk result (Sifts S.takes (file spec.now) goal sieve.old
        (λ _. map (λ rs. record { nodes = pattern.old.nodes; results = rs }) choices.now) sieve.new) }
    ensures nodes { OnOk result (pattern.new.nodes ≡ pattern.old.nodes) }
    ensures for_goal { OnOk result (S.is_for sieve.new spec.now goal) }
{
    for choice in choices {
        pattern.results = copied(alloc, choice.as_slice())?;
        sift(alloc, spec, goal, pattern, sieve)?;
    }
    Ok(())
}

/// Sifts the patterns of these nodes.
fn sift_patterns<S: Sieve>(
    alloc: Global,
    spec: &Spec,
    goal: u32,
    nodes: &mut Vec<Node>,
    sieve: &mut S,
) -> Result<(), AllocError>
    requires there { goal < length spec.now.goals }
    requires table { IsTable spec.now.terms }
    requires few { length nodes.old.items ≤ 6 }
    requires for_goal { S.is_for sieve.old spec.now goal }
    ensures sifts { OnOk result (Sifts S.takes (file spec.now) goal sieve.old
        (λ g. patterns_of (file spec.now) g nodes.old.items) sieve.new) }
    ensures nodes { OnOk result (nodes.new.items ≡ nodes.old.items) }
    ensures for_goal { OnOk result (S.is_for sieve.new spec.now goal) }
{
    let choices = result_choices(alloc, spec, goal, nodes)?;
    let mut pattern = Pattern {
        nodes: Seq::from_vec(mem::replace(nodes, Vec::new(alloc))),
        results: Seq::new(alloc),
    };
    sift_results(alloc, spec, goal, &mut pattern, &choices, sieve)?;
    *nodes = pattern.nodes.into_vec();
    Ok(())
}

/// Sifts the patterns that begin with these nodes and go on with `count` of the operations.
#[cycle(sifting)]
fn sift_after<S: Sieve>(
    alloc: Global,
    spec: &Spec,
    goal: u32,
    nodes: &mut Vec<Node>,
    count: usize,
    ops: &[u16],
    sieve: &mut S,
) -> Result<(), AllocError>
    requires there { goal < length spec.now.goals }
    requires table { IsTable spec.now.terms }
    requires few { length nodes.old.items + count ≤ 6 }
    requires ops { AreBelow (length spec.now.ops) ops.now }
    requires few_bits { All (λ op. attribute_bits_of (file spec.now) op < 64) ops.now }
    requires for_goal { S.is_for sieve.old spec.now goal }
    ensures sifts { OnOk result (Sifts S.takes (file spec.now) goal sieve.old
        (λ g. candidates_after (file spec.now) g count nodes.old.items ops.now) sieve.new) }
    ensures nodes { OnOk result (nodes.new.items ≡ nodes.old.items) }
    ensures for_goal { OnOk result (S.is_for sieve.new spec.now goal) }
{
    if count == 0 {
        return sift_patterns(alloc, spec, goal, nodes, sieve);
    }
    let firsts = different(alloc, ops)?;
    for op in &firsts {
        sift_operation(alloc, spec, goal, nodes, count - 1, *op, ops, sieve)?;
    }
    Ok(())
}

/// Sifts the patterns that begin with these nodes and one of the operation, and go on with `count` of the others.
#[cycle(sifting)]
fn sift_operation<S: Sieve>(
    alloc: Global,
    spec: &Spec,
    goal: u32,
    nodes: &mut Vec<Node>,
    count: usize,
    op: u16,
    ops: &[u16],
    sieve: &mut S,
) -> Result<(), AllocError>
    requires there { goal < length spec.now.goals }
    requires table { IsTable spec.now.terms }
    requires few { length nodes.old.items + count < 6 }
    requires op_there { op < length spec.now.ops }
    requires op_few_bits { attribute_bits_of (file spec.now) op < 64 }
    requires ops { AreBelow (length spec.now.ops) ops.now }
    requires few_bits { All (λ op. attribute_bits_of (file spec.now) op < 64) ops.now }
    requires for_goal { S.is_for sieve.old spec.now goal }
    ensures sifts { OnOk result (Sifts S.takes (file spec.now) goal sieve.old
        (λ g. candidates_with (file spec.now) g count nodes.old.items op (without op ops.now)) sieve.new) }
    ensures nodes { OnOk result (nodes.new.items ≡ nodes.old.items) }
    ensures for_goal { OnOk result (S.is_for sieve.new spec.now goal) }
{
    let left = without(alloc, op, ops)?;
    let definition = spec.op(usize::from(op));
    let attributes = attribute_choices(alloc, definition.attrs.as_slice())?;
    let arguments = argument_choices(alloc, spec, goal, nodes, definition.args.as_slice())?;
    for choice in &attributes {
        let attrs = choice.as_slice();
        sift_arguments(
            alloc, spec, goal, nodes, count, op, attrs, &arguments, &left, sieve,
        )?;
    }
    Ok(())
}

/// Sifts the patterns that begin with these nodes and one of the operation with these attributes and one of the
/// choices of arguments, and go on with `count` of the operations that are left.
#[cycle(sifting)]
fn sift_arguments<S: Sieve>(
    alloc: Global,
    spec: &Spec,
    goal: u32,
    nodes: &mut Vec<Node>,
    count: usize,
    op: u16,
    attrs: &[u64],
    choices: &[Seq<Src>],
    left: &[u16],
    sieve: &mut S,
) -> Result<(), AllocError>
    requires there { goal < length spec.now.goals }
    requires table { IsTable spec.now.terms }
    requires few { length nodes.old.items + count < 6 }
    requires ops { AreBelow (length spec.now.ops) left.now }
    requires few_bits { All (λ op. attribute_bits_of (file spec.now) op < 64) left.now }
    requires for_goal { S.is_for sieve.old spec.now goal }
    ensures sifts { OnOk result (Sifts S.takes (file spec.now) goal sieve.old
        (λ g. candidates_over (file spec.now) g count nodes.old.items op left.now choices.now attrs.now) sieve.new) }
    ensures nodes { OnOk result (nodes.new.items ≡ nodes.old.items) }
    ensures for_goal { OnOk result (S.is_for sieve.new spec.now goal) }
{
    for choice in choices {
        let node = Node {
            op,
            attrs: copied(alloc, attrs)?,
            args: copied(alloc, choice.as_slice())?,
        };
        sift_node(alloc, spec, goal, nodes, count, node, left, sieve)?;
    }
    Ok(())
}

/// Sifts the patterns that begin with these nodes and that one, and go on with `count` of the operations.
#[cycle(sifting)]
fn sift_node<S: Sieve>(
    alloc: Global,
    spec: &Spec,
    goal: u32,
    nodes: &mut Vec<Node>,
    count: usize,
    node: Node,
    left: &[u16],
    sieve: &mut S,
) -> Result<(), AllocError>
    requires there { goal < length spec.now.goals }
    requires table { IsTable spec.now.terms }
    requires few { length nodes.old.items + count < 6 }
    requires ops { AreBelow (length spec.now.ops) left.now }
    requires few_bits { All (λ op. attribute_bits_of (file spec.now) op < 64) left.now }
    requires for_goal { S.is_for sieve.old spec.now goal }
    ensures sifts { OnOk result (Sifts S.takes (file spec.now) goal sieve.old
        (λ g. candidates_after (file spec.now) g count (nodes.old.items ++ node ∷ []) left.now) sieve.new) }
    ensures nodes { OnOk result (nodes.new.items ≡ nodes.old.items) }
    ensures for_goal { OnOk result (S.is_for sieve.new spec.now goal) }
{
    nodes.push(node)?;
    sift_after(alloc, spec, goal, nodes, count, left, sieve)?;
    nodes.pop();
    Ok(())
}

/// Hands each canonical pattern for the goal with that multiset of operations to the sieve, once and in order. An `Err`
/// is out of memory.
pub fn each_pattern<S: Sieve>(
    alloc: Global,
    spec: &Spec,
    goal: u32,
    multi: &Multi,
    sieve: &mut S,
) -> Result<(), AllocError>
    requires there { goal < length spec.now.goals }
    requires ops { AreBelow (length spec.now.ops) multi.now }
    requires few_bits { attribute_bits (file spec.now) multi.now < 64 }
    requires for_goal { S.is_for sieve.old spec.now goal }
    ensures patterns { (g : Goal) → slice_get (file spec.now).goals goal ≡ Some g → OnOk result ((ps : List Pattern)
        × ArePatterns (file spec.now) g multi.now ps × Taken S.takes sieve.old ps sieve.new) }
    ensures for_goal { OnOk result (S.is_for sieve.new spec.now goal) }
{
    // That the terms make a table, and so are well-sorted, is known from a call alone.
    spec.terms.len();
    let ops = multi.ops();
    let mut nodes = Vec::new(alloc);
    sift_after(alloc, spec, goal, &mut nodes, ops.len(), ops, sieve)
}
