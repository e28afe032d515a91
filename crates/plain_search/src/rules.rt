//! The rules of a goal: those with one multiset of operations, those of a size, and those of the least size that
//! has one.

ghost use Rattle.std.specs.Prelude.{◌≡◌, ℕ, ◌<◌, ◌≤◌, ◌^◌, List, length, slice_get, Some, IfOk};
ghost use Rattle.isel_spec.specs.File.{Goal};
ghost use Rattle.isel_spec.specs.Spec.{file};
ghost use Rattle.multiset_rank.specs.Multisets.{AreBelow};
ghost use Rattle.pattern_core.specs.Library.{AreRules, IsLibrary};
ghost use Rattle.pattern_core.specs.Rule.{HasNoMemory};
ghost use Rattle.plain_search.specs.Extent.{attribute_bits, CanSearch};
ghost use Rattle.plain_search.specs.Rules.{AreRulesOf, IsSmall, IsSieveFor};
ghost use Rattle.plain_search.specs.Trials.{trials_of};

use crate::agreement::{GoalTable, goal_table, is_rule};
use crate::sifting::{Sieve, each_pattern};
use collections::Seq;
use isel_spec::Spec;
use multiset_rank::{Multi, count, unrank};
use pattern_core::{Evaluation, Node, Pattern};
use std::alloc::{AllocError, Global};
use std::mem;

/// Keeps those of the patterns that are rules of a goal.
#[derive(Drop)]
struct RuleSieve<'a> {
    /// The file and the goal's place there. They are read by contracts alone: what a sieve takes does not name them.
    spec: &'a Spec,
    goal: u32,
    wanted: GoalTable,
    evaluation: Evaluation,
    found: Vec<Pattern>,
}

/// A copy of some elements.
fn copied<T: Copy>(alloc: Global, elements: &[T]) -> Result<Seq<T>, AllocError>
    ensures { IfOk result (λ copy. copy ≡ elements.now) }
{
    let copy = Vec::from_slice(alloc, elements)?;
    Ok(Seq::from_vec(copy))
}

/// A copy of a node.
fn copied_node(alloc: Global, node: &Node) -> Result<Node, AllocError>
    ensures { IfOk result (λ copy. copy ≡ node.now) }
{
    let attrs = copied(alloc, node.attrs.as_slice())?;
    let args = copied(alloc, node.args.as_slice())?;
    Ok(Node {
        op: node.op,
        attrs,
        args,
    })
}

/// A copy of some nodes.
fn copied_nodes(alloc: Global, nodes: &[Node]) -> Result<Seq<Node>, AllocError>
    ensures { IfOk result (λ copy. copy ≡ nodes.now) }
{
    let mut copy = Vec::new(alloc);
    for node in nodes {
        copy.push(copied_node(alloc, node)?)?;
    }
    Ok(Seq::from_vec(copy))
}

/// A copy of a pattern.
fn copied_pattern(alloc: Global, pattern: &Pattern) -> Result<Pattern, AllocError>
    ensures { IfOk result (λ copy. copy ≡ pattern.now) }
{
    let nodes = copied_nodes(alloc, pattern.nodes.as_slice())?;
    let results = copied(alloc, pattern.results.as_slice())?;
    Ok(Pattern { nodes, results })
}

impl Sieve for RuleSieve<'_> {
    ghost use Rattle.plain_search.specs.Rules.{IsSieveFor, Keeps};

    ghost is_for = { λ sieve spec goal. IsSieveFor spec goal sieve };

    ghost takes = { λ old pattern new. Keeps old pattern new };

    fn take(
        &mut self,
        alloc: Global,
        spec: &Spec,
        goal: u32,
        pattern: &Pattern,
    ) -> Result<(), AllocError> {
        if !is_rule(
            alloc,
            spec,
            goal,
            &mut self.evaluation,
            &self.wanted,
            pattern,
        )? {
            return Ok(());
        }
        self.found.push(copied_pattern(alloc, pattern)?)?;
        Ok(())
    }
}

/// A sieve for the rules of this goal.
fn rule_sieve<'a>(alloc: Global, spec: &'a Spec, goal: u32) -> Result<RuleSieve<'a>, AllocError>
    requires there { goal < length spec.now.goals }
    requires small { (g : Goal) → slice_get (file spec.now).goals goal ≡ Some g → IsSmall g }
    ensures { IfOk result (λ sieve. IsSieveFor spec.now goal sieve) }
{
    // That the terms make a table, and so are well-sorted, is known from a call alone.
    spec.terms.len();
    let mut evaluation = Evaluation::new(alloc, spec)?;
    let wanted = goal_table(alloc, spec, goal, &mut evaluation)?;
    Ok(RuleSieve {
        spec,
        goal,
        wanted,
        evaluation,
        found: Vec::new(alloc),
    })
}

/// The rules of a goal with that multiset of operations. The sieve loses what it has kept.
fn rules_of(
    alloc: Global,
    spec: &Spec,
    goal: u32,
    multi: &Multi,
    sieve: &mut RuleSieve,
) -> Result<Vec<Pattern>, AllocError>
    requires there { goal < length spec.now.goals }
    requires ops { AreBelow (length spec.now.ops) multi.now }
    requires few_bits { attribute_bits (file spec.now) multi.now < 64 }
    requires for_goal { IsSieveFor spec.now goal sieve.old }
    ensures for_goal { IfOk result (λ _. IsSieveFor spec.now goal sieve.new) }
    ensures rules { (g : Goal) → slice_get (file spec.now).goals goal ≡ Some g →
        IfOk result (λ rules. AreRulesOf (file spec.now) g multi.now rules.items) }
{
    sieve.found = Vec::new(alloc);
    each_pattern(alloc, spec, goal, multi, sieve)?;
    Ok(mem::replace(&mut sieve.found, Vec::new(alloc)))
}

/// The rules of a goal of that size in a file without operations, where only patterns without nodes are well-formed.
fn rules_without_operations(
    alloc: Global,
    spec: &Spec,
    goal: u32,
    size: u8,
    sieve: &mut RuleSieve,
) -> Result<Vec<Pattern>, AllocError>
    requires there { goal < length spec.now.goals }
    requires no_ops { length spec.now.ops ≡ 0 }
    requires for_goal { IsSieveFor spec.now goal sieve.old }
    ensures for_goal { IfOk result (λ _. IsSieveFor spec.now goal sieve.new) }
    ensures rules { (g : Goal) → slice_get (file spec.now).goals goal ≡ Some g →
        IfOk result (λ rules. AreRules (file spec.now) g size rules.items) }
{
    if size > 0 {
        return Ok(Vec::new(alloc));
    }
    let none = Multi::new(&[]).unwrap();
    rules_of(alloc, spec, goal, &none, sieve)
}

/// The rules of a goal of that size: those of each multiset, in order.
fn rules_of_size(
    alloc: Global,
    spec: &Spec,
    goal: u32,
    size: u8,
    sieve: &mut RuleSieve,
) -> Result<Vec<Pattern>, AllocError>
    requires there { goal < length spec.now.goals }
    requires size { size ≤ 6 }
    requires few_bits { (ops : List ℕ) → length ops ≡ size → attribute_bits (file spec.now) ops < 64 }
    requires for_goal { IsSieveFor spec.now goal sieve.old }
    ensures for_goal { IfOk result (λ _. IsSieveFor spec.now goal sieve.new) }
    ensures rules { (g : Goal) → slice_get (file spec.now).goals goal ≡ Some g →
        IfOk result (λ rules. AreRules (file spec.now) g size rules.items) }
{
    let kinds = spec.ops.len() as u32;
    if kinds == 0 {
        return rules_without_operations(alloc, spec, goal, size, sieve);
    }
    let mut rules = Vec::new(alloc);
    for number in 0..count(kinds, size) {
        let multi = unrank(kinds, size, number);
        let mut more = rules_of(alloc, spec, goal, &multi, sieve)?;
        rules.append(&mut more)?;
    }
    Ok(rules)
}

/// The library of a goal for a bound on size: the rules of the least size that has one, in order, or no pattern at
/// all. An `Err` is out of memory.
pub fn search(alloc: Global, spec: &Spec, goal: u32, bound: u8) -> Result<Vec<Pattern>, AllocError>
    requires there { goal < length spec.now.goals }
    requires bound { bound ≤ 6 }
    requires searchable { (g : Goal) → slice_get (file spec.now).goals goal ≡ Some g
        → CanSearch (file spec.now) g bound }
    ensures { IfOk result (λ rules. (g : Goal) → slice_get (file spec.now).goals goal ≡ Some g
        → IsLibrary (file spec.now) g bound rules.items) }
{
    let mut sieve = rule_sieve(alloc, spec, goal)?;
    for size in 0..bound + 1 {
        let rules = rules_of_size(alloc, spec, goal, size, &mut sieve)?;
        if !rules.is_empty() {
            return Ok(rules);
        }
    }
    Ok(Vec::new(alloc))
}

/// The rules of a goal with that multiset of operations: the canonical well-formed ones, in order, each once. The goal
/// may have more inputs than `search` takes, as long as the trials of the multiset are below 2^64. An `Err` is out of
/// memory.
pub fn search_multi(
    alloc: Global,
    spec: &Spec,
    goal: u32,
    multi: &Multi,
) -> Result<Vec<Pattern>, AllocError>
    requires there { goal < length spec.now.goals }
    requires ops { AreBelow (length spec.now.ops) multi.now }
    requires no_memory { (g : Goal) → slice_get (file spec.now).goals goal ≡ Some g → HasNoMemory (file spec.now) g }
    requires trials { (g : Goal) → slice_get (file spec.now).goals goal ≡ Some g
        → trials_of (file spec.now) g multi.now < 2 ^ 64 }
    ensures { (g : Goal) → slice_get (file spec.now).goals goal ≡ Some g →
        IfOk result (λ rules. AreRulesOf (file spec.now) g multi.now rules.items) }
{
    let mut sieve = rule_sieve(alloc, spec, goal)?;
    rules_of(alloc, spec, goal, multi, &mut sieve)
}
