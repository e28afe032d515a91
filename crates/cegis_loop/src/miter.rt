//! A formula that is true at the inputs where a pattern differs from its goal.

ghost use Rattle.std.specs.Prelude.{◌≡◌, ◌<◌, ◌≤◌, [], length, map, Some, slice_get, IfOk, All};
ghost use Rattle.bv_terms.specs.Term.{Apply};
ghost use Rattle.bv_terms.specs.Table.{operands, terms_of, term_at, Extends, IsTable};
ghost use Rattle.isel_spec.specs.File.{Goal};
ghost use Rattle.isel_spec.specs.Spec.{file};
ghost use Rattle.pattern_core.specs.Pattern.{IsWellFormed};
ghost use Rattle.pattern_core.specs.Rule.{TakesNoMemory};
ghost use Rattle.pattern_core.specs.Symbolic.{AreIn};
ghost use Rattle.cegis_loop.specs.Miter.{inputs_from, equal, both, unequal, either, never, or_differ, and_inputs};
ghost use Rattle.cegis_loop.specs.Miter.{IsMiterOf};

use bv_terms::{Op, Sort, TermId, Terms};
use isel_spec::{Kind, Spec};
use pattern_core::{Pattern, as_terms, goal_terms};
use std::alloc::{AllocError, Global};

/// The node of an operation. It fits its arguments, so that want of memory alone refuses it.
fn node(terms: &mut Terms, op: Op, args: &[TermId]) -> Result<TermId, AllocError>
    requires { AreIn terms.old args.now }
    ensures term { IfOk result (λ id. term_at terms.new id ≡ Apply op (operands (terms_of terms.old) args.now)) }
    ensures within { IfOk result (λ id. id.0 < length terms.new.nodes) }
    ensures extends { Extends terms.old terms.new }
    ensures table { IsTable terms.new }
{
    match terms.make(op, args) {
        Ok(id) => Ok(id),
        Err(_) => Err(AllocError),
    }
}

/// A node for each input: input `k` is of sort `k`.
fn input_nodes(alloc: Global, sorts: &[Sort], terms: &mut Terms) -> Result<Vec<TermId>, AllocError>
    requires few { length sorts.now ≤ 4 }
    ensures extends { Extends terms.old terms.new }
    ensures table { IsTable terms.new }
    ensures within { IfOk result (λ v. AreIn terms.new v.items) }
    ensures terms { IfOk result (λ v. map (term_at terms.new) v.items ≡ inputs_from 0 sorts.now) }
{
    // That the terms make a table is known by this call.
    let _count = terms.len();
    let mut nodes = Vec::with_capacity(alloc, sorts.len())?;
    for place in 0..sorts.len() {
        let input = Op::Input {
            number: place as u32,
            sort: sorts[place],
        };
        let at = node(terms, input, &[])?;
        nodes.push(at)?;
    }
    Ok(nodes)
}

/// That the first holds, or the others differ.
fn or_unequal(
    formula: TermId,
    left: TermId,
    right: TermId,
    terms: &mut Terms,
) -> Result<TermId, AllocError>
    requires formula { formula.0 < length terms.old.nodes }
    requires left { left.0 < length terms.old.nodes }
    requires right { right.0 < length terms.old.nodes }
    ensures extends { Extends terms.old terms.new }
    ensures table { IsTable terms.new }
    ensures within { IfOk result (λ id. id.0 < length terms.new.nodes) }
    ensures term { IfOk result (λ id. term_at terms.new id
        ≡ either (term_at terms.old formula) (unequal (term_at terms.old left) (term_at terms.old right))) }
{
    // That the terms make a table is known by this call.
    let _count = terms.len();
    let same = node(terms, Op::Eq, &[left, right])?;
    let differs = node(terms, Op::Not, &[same])?;
    node(terms, Op::Or, &[formula, differs])
}

/// That terms in one place of the lists differ.
fn differ(left: &[TermId], right: &[TermId], terms: &mut Terms) -> Result<TermId, AllocError>
    requires left { AreIn terms.old left.now }
    requires right { AreIn terms.old right.now }
    ensures extends { Extends terms.old terms.new }
    ensures table { IsTable terms.new }
    ensures within { IfOk result (λ id. id.0 < length terms.new.nodes) }
    ensures term { IfOk result (λ id. term_at terms.new id
        ≡ or_differ never (map (term_at terms.old) left.now) (map (term_at terms.old) right.now)) }
{
    // That the terms make a table is known by this call.
    let _count = terms.len();
    let mut formula = node(terms, Op::Bool { value: false }, &[])?;
    for place in 0..left.len().min(right.len()) {
        formula = or_unequal(formula, left[place], right[place], terms)?;
    }
    Ok(formula)
}

/// That the first holds, and an input is equal to itself.
fn and_equal(formula: TermId, input: TermId, terms: &mut Terms) -> Result<TermId, AllocError>
    requires formula { formula.0 < length terms.old.nodes }
    requires input { input.0 < length terms.old.nodes }
    ensures extends { Extends terms.old terms.new }
    ensures table { IsTable terms.new }
    ensures within { IfOk result (λ id. id.0 < length terms.new.nodes) }
    ensures term { IfOk result (λ id. term_at terms.new id
        ≡ both (term_at terms.old formula) (equal (term_at terms.old input) (term_at terms.old input))) }
{
    // That the terms make a table is known by this call.
    let _count = terms.len();
    let same = node(terms, Op::Eq, &[input, input])?;
    node(terms, Op::And, &[formula, same])
}

/// The formula over these inputs too, so that its values are those of all of them. An input that is equal to itself
/// costs no clause.
fn over_inputs(formula: TermId, inputs: &[TermId], terms: &mut Terms) -> Result<TermId, AllocError>
    requires formula { formula.0 < length terms.old.nodes }
    requires inputs { AreIn terms.old inputs.now }
    ensures extends { Extends terms.old terms.new }
    ensures table { IsTable terms.new }
    ensures within { IfOk result (λ id. id.0 < length terms.new.nodes) }
    ensures term { IfOk result (λ id. term_at terms.new id
        ≡ and_inputs (term_at terms.old formula) (map (term_at terms.old) inputs.now)) }
{
    // That the terms make a table is known by this call.
    let _count = terms.len();
    let mut whole = formula;
    for input in inputs {
        whole = and_equal(whole, *input, terms)?;
    }
    Ok(whole)
}

/// The sorts of a goal's arguments.
pub(crate) fn sorts_of(alloc: Global, arguments: &[(Kind, Sort)]) -> Result<Vec<Sort>, AllocError>
    ensures { IfOk result (λ sorts. sorts.items ≡ map (λ a. a.1) arguments.now) }
{
    arguments.iter().map(|argument| argument.1).collect(alloc)
}

/// The formula that says where a pattern that is well-formed for the goal differs from it, over the goal's inputs,
/// which have these sorts. An `Err` is out of memory.
pub(crate) fn miter(
    alloc: Global,
    spec: &Spec,
    goal: u32,
    pattern: &Pattern,
    sorts: &[Sort],
    terms: &mut Terms,
) -> Result<TermId, AllocError>
    requires there { goal < length spec.now.goals }
    requires sorts { (g : Goal) → slice_get (file spec.now).goals goal ≡ Some g → sorts.now ≡ g.args }
    requires few { length sorts.now ≤ 4 }
    requires well_formed { (g : Goal) → slice_get (file spec.now).goals goal ≡ Some g
        → IsWellFormed (file spec.now) g pattern.now }
    requires plain { (g : Goal) → slice_get (file spec.now).goals goal ≡ Some g → TakesNoMemory g }
    requires pointer { terms.old.pointer ≡ spec.now.pointer }
    ensures table { IsTable terms.new }
    ensures pointer { terms.new.pointer ≡ spec.now.pointer }
    ensures within { IfOk result (λ id. id.0 < length terms.new.nodes) }
    ensures miter { IfOk result (λ id. (g : Goal) → slice_get (file spec.now).goals goal ≡ Some g
        → IsMiterOf (file spec.now) g pattern.now (term_at terms.new id)) }
{
    let inputs = input_nodes(alloc, sorts, terms)?;
    let found = as_terms(alloc, spec, goal, pattern, &inputs, terms)?;
    let wanted = goal_terms(alloc, spec, goal, &inputs, terms)?;
    let formula = differ(&found, &wanted, terms)?;
    over_inputs(formula, &inputs, terms)
}
