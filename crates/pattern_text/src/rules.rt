//! A rule of a library.

ghost use Rattle.std.specs.Prelude.{◌≡◌, ◌<◌, ◌≤◌, ◌+◌, [], map, length, true, All, Contains, IfOk, IsTrue, ◌↔◌};
ghost use Rattle.sexp_read.specs.Forest.{IsReading, tree_at};
ghost use Rattle.isel_spec.specs.Spec.{file};
ghost use Rattle.pattern_text.specs.Rules.{form_read, rule_read, is_small, IsPatternOf, IsVerdict, IsRule, AreRules};
ghost use Rattle.pattern_text.specs.Steps.{span_of};
ghost use Rattle.pattern_text.specs.Outcomes.{IsOutcomeOr, IsListOr, IsPatternRead};
ghost use Rattle.pattern_text.specs.Index.{IsIndex};

use crate::fault::{LibFault, LibKind, fault_at};
use crate::form::rule_parts;
use crate::index::{insert, is_among};
use crate::names::nodes_fault;
use crate::small::pattern;
use isel_spec::Spec;
use pattern_core::{Pattern, is_canonical, is_well_formed, order_is_total};
use sexp_read::Forest;
use std::alloc::Global;

/// The pattern of a rule by its form, where its numbers are small.
fn form_read(
    alloc: Global,
    spec: &Spec,
    bytes: &[u8],
    forest: &Forest,
    item: usize,
) -> Result<Option<Pattern>, LibFault>
    requires reading { IsReading bytes.now forest.now }
    requires item_in { item < length forest.now.items }
    ensures { IsPatternRead (form_read (file spec.now) (tree_at bytes.now forest.now.items item)) result }
{
    let Some((nodes, results)) = rule_parts(bytes, forest, item) else {
        return Err(fault_at(LibKind::Shape, forest.span(item)));
    };
    if let Some(fault) = nodes_fault(spec, bytes, forest, nodes) {
        return Err(fault);
    }
    let found = pattern(alloc, spec, bytes, forest, nodes, results)?;
    Ok(found)
}

/// The pattern of a rule that so many rules come before, where its numbers are small.
fn rule_read(
    alloc: Global,
    spec: &Spec,
    bytes: &[u8],
    forest: &Forest,
    item: usize,
    before: usize,
) -> Result<Option<Pattern>, LibFault>
    requires reading { IsReading bytes.now forest.now }
    requires item_in { item < length forest.now.items }
    ensures read { IsPatternRead (rule_read (file spec.now) before (tree_at bytes.now forest.now.items item)) result }
    ensures few { IfOk result (λ found. before < 65536) }
{
    if before < 65536 {
        form_read(alloc, spec, bytes, forest, item)
    } else {
        Err(fault_at(LibKind::Limit, forest.span(item)))
    }
}

/// Whether a pattern of small numbers is one of a goal, with so many nodes.
fn is_pattern_of(spec: &Spec, goal: u32, size: u8, pattern: &Pattern) -> bool
    requires goal_in { goal < length spec.now.goals }
    requires small { is_small pattern.now ≡ true }
    ensures { IsTrue result ↔ IsPatternOf (file spec.now) goal size pattern.now }
{
    if !is_well_formed(spec, goal, pattern) {
        return false;
    }
    pattern.nodes.len() == usize::from(size)
}

/// What is said of a rule's pattern of small numbers, after those of the goal's earlier rules.
fn verdict(
    spec: &Spec,
    goal: u32,
    size: u8,
    earlier: &[Pattern],
    index: &[usize],
    span: (usize, usize),
    pattern: Pattern,
) -> Result<Pattern, LibFault>
    requires goal_in { goal < length spec.now.goals }
    requires small { is_small pattern ≡ true }
    requires earlier_listed { All (IsPatternOf (file spec.now) goal size) earlier.now }
    requires index { IsIndex earlier.now index.now }
    ensures read { IsVerdict (file spec.now) goal size earlier.now span pattern result }
    ensures listed { IfOk result (IsPatternOf (file spec.now) goal size) }
    ensures new { IfOk result (λ p. ¬ Contains earlier.now p) }
{
    // That the terms make a table, and so are well-sorted, is known from a call alone.
    spec.terms.len();
    order_is_total(spec, goal);
    if !is_pattern_of(spec, goal, size, &pattern) {
        return Err(fault_at(LibKind::Shape, span));
    }
    if !is_canonical(&pattern) {
        return Err(fault_at(LibKind::NotCanonical, span));
    }
    if is_among(&pattern, earlier, index) {
        return Err(fault_at(LibKind::Twice, span));
    }
    Ok(pattern)
}

/// The span of an item.
pub(crate) fn span_of(bytes: &[u8], forest: &Forest, item: usize) -> (usize, usize)
    requires reading { IsReading bytes.now forest.now }
    requires item_in { item < length forest.now.items }
    ensures { result ≡ span_of (tree_at bytes.now forest.now.items item) }
{
    forest.span(item)
}

/// The pattern of a rule after those of the goal's earlier rules, where so many rules of the text come before.
fn rule(
    alloc: Global,
    spec: &Spec,
    bytes: &[u8],
    forest: &Forest,
    goal: u32,
    size: u8,
    before: usize,
    earlier: &[Pattern],
    index: &[usize],
    item: usize,
) -> Result<Pattern, LibFault>
    requires reading { IsReading bytes.now forest.now }
    requires item_in { item < length forest.now.items }
    requires goal_in { goal < length spec.now.goals }
    requires earlier_listed { All (IsPatternOf (file spec.now) goal size) earlier.now }
    requires index { IsIndex earlier.now index.now }
    ensures read { IsOutcomeOr (IsRule (file spec.now) goal size before earlier.now
        (tree_at bytes.now forest.now.items item)) result }
    ensures listed { IfOk result (IsPatternOf (file spec.now) goal size) }
    ensures new { IfOk result (λ p. ¬ Contains earlier.now p) }
    ensures few { IfOk result (λ p. before < 65536) }
{
    let found = rule_read(alloc, spec, bytes, forest, item, before)?;
    let span = span_of(bytes, forest, item);
    let Some(pattern) = found else {
        return Err(fault_at(LibKind::Shape, span));
    };
    verdict(spec, goal, size, earlier, index, span, pattern)
}

/// The patterns of a goal's rules, where so many rules of other goals come before.
pub(crate) fn rules(
    alloc: Global,
    spec: &Spec,
    bytes: &[u8],
    forest: &Forest,
    goal: u32,
    size: u8,
    before: usize,
    items: &[usize],
) -> Result<Vec<Pattern>, LibFault>
    requires reading { IsReading bytes.now forest.now }
    requires items_in { All (λ item. item < length forest.now.items) items.now }
    requires goal_in { goal < length spec.now.goals }
    requires few { before ≤ 65536 }
    ensures read { IsListOr (AreRules (file spec.now) goal size before []
        (map (tree_at bytes.now forest.now.items) items.now)) result }
    ensures within { IfOk result (λ rules. before + length rules.items ≤ 65536) }
{
    order_is_total(spec, goal);
    let mut rules = Vec::new(alloc);
    let mut index = Vec::new(alloc);
    for item in items {
        let earlier = rules.as_slice();
        let count = before + earlier.len();
        let listed = index.as_slice();
        let rule = rule(
            alloc, spec, bytes, forest, goal, size, count, earlier, listed, *item,
        )?;
        insert(&rule, earlier, &mut index)?;
        rules.push(rule)?;
    }
    Ok(rules)
}
