//! Patterns and goals as terms over terms of the goal's inputs. The nodes of a pattern become terms in order; an
//! operation's results are grafted onto the terms of its arguments and attributes.

ghost use Rattle.std.specs.Prelude.{◌≡◌, ◌<◌, ◌++◌, [], length, map, Some, slice_get, IsSome, IfOk, OnOk, All};
ghost use Rattle.bv_terms.specs.Term.{Apply, End};
ghost use Rattle.bv_terms.specs.WellSorted.{sort_of};
ghost use Rattle.bv_terms.specs.Table.{term_at, Extends, IsTable};
ghost use Rattle.bv_terms.specs.Replaced.{replaced, ReplacementsFit};
ghost use Rattle.isel_spec.specs.File.{Goal};
ghost use Rattle.isel_spec.specs.Spec.{file};
ghost use Rattle.pattern_core.specs.Rule.{pattern_results, goal_results};
ghost use Rattle.pattern_core.specs.Pattern.{AreFitting, IsWellFormed};
ghost use Rattle.pattern_core.specs.Symbolic.{found, source_term, attr_terms, op_terms, term_outs, pattern_terms};
ghost use Rattle.pattern_core.specs.Symbolic.{goal_terms, AreTermsOver, AreIn, IsNodeReady};

use crate::pattern::{Node, Pattern, Src};
use bv_terms::{Op, TermId, Terms};
use collections::Seq;
use isel_spec::{OpDef, Spec};
use std::alloc::{AllocError, Global};

/// The node in a place, where there is one.
fn node_at(nodes: &[TermId], place: usize) -> Option<TermId>
    ensures { result ≡ slice_get nodes.now place }
{
    if place >= nodes.len() {
        return None;
    }
    Some(nodes[place])
}

/// What a source names, where the inputs and the results of the nodes so far are these.
fn found(inputs: &[TermId], outs: &[Seq<TermId>], source: Src) -> Option<TermId>
    ensures { result ≡ found inputs.now outs.now source }
{
    match source {
        Src::Input(input) => node_at(inputs, usize::from(input)),
        Src::Out { node, result } => {
            let node = usize::from(node);
            if node >= outs.len() {
                return None;
            }
            node_at(outs[node].as_slice(), usize::from(result))
        }
    }
}

/// What sources name, in order.
fn found_all(
    alloc: Global,
    inputs: &[TermId],
    outs: &[Seq<TermId>],
    sources: &[Src],
) -> Result<Vec<TermId>, AllocError>
    requires { All (λ x. IsSome (found inputs.now outs.now x)) sources.now }
    ensures { IfOk result (λ v. map (λ a. Some a) v.items ≡ map (found inputs.now outs.now) sources.now) }
{
    let mut nodes = Vec::with_capacity(alloc, sources.len())?;
    for source in sources {
        let node = found(inputs, outs, *source).unwrap();
        nodes.push(node)?;
    }
    Ok(nodes)
}

/// The node of a bit-vector. The number fits the width, so that want of memory alone refuses it.
fn constant(terms: &mut Terms, width: u8, number: u64) -> Result<TermId, AllocError>
    ensures term { IfOk result (λ id. term_at terms.new id ≡ Apply (Op.Bits width number) End) }
    ensures within { IfOk result (λ id. id.0 < length terms.new.nodes) }
    ensures extends { Extends terms.old terms.new }
    ensures table { IsTable terms.new }
{
    match terms.make(Op::Bits { width, number }, &[]) {
        Ok(id) => Ok(id),
        Err(_) => Err(AllocError),
    }
}

/// Adds numbers as bit-vectors of these widths.
fn add_constants(
    nodes: &mut Vec<TermId>,
    widths: &[u8],
    numbers: &[u64],
    terms: &mut Terms,
) -> Result<(), AllocError>
    requires within { AreIn terms.old nodes.old.items }
    ensures extends { Extends terms.old terms.new }
    ensures table { IsTable terms.new }
    ensures within { OnOk result (AreIn terms.new nodes.new.items) }
    ensures terms { OnOk result (map (term_at terms.new) nodes.new.items
        ≡ map (term_at terms.old) nodes.old.items ++ attr_terms widths.now numbers.now) }
{
    // That the terms make a table is known by this call.
    let _count = terms.len();
    for place in 0..widths.len().min(numbers.len()) {
        let node = constant(terms, widths[place], numbers[place])?;
        nodes.push(node)?;
    }
    Ok(())
}

/// What stands for the inputs of an operation's results at a node: its arguments, and then its attributes.
fn node_inputs(
    alloc: Global,
    operation: &OpDef,
    node: &Node,
    inputs: &[TermId],
    outs: &[Seq<TermId>],
    terms: &mut Terms,
) -> Result<Vec<TermId>, AllocError>
    requires sources { All (λ x. IsSome (found inputs.now outs.now x)) node.now.args }
    requires within { AreIn terms.old inputs.now }
    requires outs_within { All (AreIn terms.old) outs.now }
    ensures extends { Extends terms.old terms.new }
    ensures table { IsTable terms.new }
    ensures within { IfOk result (λ v. AreIn terms.new v.items) }
    ensures terms { IfOk result (λ v. map (term_at terms.new) v.items
        ≡ map (source_term (map (term_at terms.old) inputs.now) (map (map (term_at terms.old)) outs.now)) node.now.args
        ++ attr_terms operation.now.attrs node.now.attrs) }
{
    // That the terms make a table is known by this call.
    let _count = terms.len();
    let mut nodes = found_all(alloc, inputs, outs, node.args.as_slice())?;
    let widths = operation.attrs.as_slice();
    add_constants(&mut nodes, widths, node.attrs.as_slice(), terms)?;
    Ok(nodes)
}

/// Terms of another table with these in place of their inputs, in order.
fn graft_all(
    alloc: Global,
    from: &Terms,
    results: &[TermId],
    inputs: &[TermId],
    terms: &mut Terms,
) -> Result<Vec<TermId>, AllocError>
    requires pointer { from.now.pointer ≡ terms.old.pointer }
    requires there { AreIn from.now results.now }
    requires within { AreIn terms.old inputs.now }
    requires fit { All
        (λ a. ReplacementsFit terms.old.pointer (map (term_at terms.old) inputs.now) (term_at from.now a)) results.now }
    ensures extends { Extends terms.old terms.new }
    ensures table { IsTable terms.new }
    ensures within { IfOk result (λ v. AreIn terms.new v.items) }
    ensures terms { IfOk result (λ v. map (term_at terms.new) v.items
        ≡ map (λ a. replaced (map (term_at terms.old) inputs.now) (term_at from.now a)) results.now) }
{
    // That both are tables is known by these calls.
    let _counts = (terms.len(), from.len());
    let mut nodes = Vec::with_capacity(alloc, results.len())?;
    for at in results {
        let node = terms.graft(alloc, from, *at, inputs)?;
        nodes.push(node)?;
    }
    Ok(nodes)
}

/// The results of a node of a pattern, where the earlier nodes have these.
fn node_terms(
    alloc: Global,
    spec: &Spec,
    node: &Node,
    inputs: &[TermId],
    outs: &[Seq<TermId>],
    terms: &mut Terms,
) -> Result<Vec<TermId>, AllocError>
    requires ready { IsNodeReady spec.now node.now terms.old inputs.now outs.now }
    ensures extends { Extends terms.old terms.new }
    ensures table { IsTable terms.new }
    ensures within { IfOk result (λ v. AreIn terms.new v.items) }
    ensures terms { IfOk result (λ v. map (term_at terms.new) v.items
        ≡ op_terms (slice_get (file spec.now).ops node.now.op) node.now.attrs (map
        (source_term (map (term_at terms.old) inputs.now) (map (map (term_at terms.old)) outs.now)) node.now.args)) }
{
    let operation = spec.op(usize::from(node.op));
    let given = node_inputs(alloc, operation, node, inputs, outs, terms)?;
    let results = operation.results.as_slice();
    graft_all(alloc, &spec.terms, results, &given, terms)
}

/// The results of each node of a pattern for the goal.
fn all_terms(
    alloc: Global,
    spec: &Spec,
    goal: u32,
    nodes: &[Node],
    inputs: &[TermId],
    terms: &mut Terms,
) -> Result<Vec<Seq<TermId>>, AllocError>
    requires there { goal < length spec.now.goals }
    requires fits { (g : Goal) → slice_get (file spec.now).goals goal ≡ Some g
        → AreFitting (file spec.now) g nodes.now }
    requires pointer { terms.old.pointer ≡ spec.now.pointer }
    requires within { AreIn terms.old inputs.now }
    requires sorts { (g : Goal) → slice_get (file spec.now).goals goal ≡ Some g
        → map (sort_of terms.old.pointer) (map (term_at terms.old) inputs.now) ≡ map (λ s. Some s) g.args }
    ensures extends { Extends terms.old terms.new }
    ensures table { IsTable terms.new }
    ensures within { IfOk result (λ outs. All (AreIn terms.new) outs.items) }
    ensures outs { IfOk result (λ outs. map (map (term_at terms.new)) outs.items
        ≡ term_outs (file spec.now) (map (term_at terms.old) inputs.now) [] nodes.now) }
{
    // That both are tables is known by these calls.
    let _counts = (terms.len(), spec.terms.len());
    let mut outs: Vec<Seq<TermId>> = Vec::new(alloc);
    for place in 0..nodes.len() {
        let node = &nodes[place];
        let found = node_terms(alloc, spec, node, inputs, outs.as_slice(), terms)?;
        outs.push(Seq::from_vec(found))?;
    }
    Ok(outs)
}

/// The results of a pattern that is well-formed for the goal, as terms, where these terms of the goal's arguments'
/// sorts stand for the goal's inputs. At each environment they have the pattern's results at the values that the
/// inputs' terms have there.
///
/// An `Err` is out of memory; nodes may have been added to the table then, and the earlier ones stay.
pub fn as_terms(
    alloc: Global,
    spec: &Spec,
    goal: u32,
    pattern: &Pattern,
    inputs: &[TermId],
    terms: &mut Terms,
) -> Result<Vec<TermId>, AllocError>
    requires there { goal < length spec.now.goals }
    requires well_formed { (g : Goal) → slice_get (file spec.now).goals goal ≡ Some g
        → IsWellFormed (file spec.now) g pattern.now }
    requires pointer { terms.old.pointer ≡ spec.now.pointer }
    requires within { AreIn terms.old inputs.now }
    requires sorts { (g : Goal) → slice_get (file spec.now).goals goal ≡ Some g
        → map (sort_of terms.old.pointer) (map (term_at terms.old) inputs.now) ≡ map (λ s. Some s) g.args }
    ensures extends { Extends terms.old terms.new }
    ensures table { IsTable terms.new }
    ensures within { IfOk result (λ v. AreIn terms.new v.items) }
    ensures terms { IfOk result (λ v. map (term_at terms.new) v.items
        ≡ pattern_terms (file spec.now) pattern.now (map (term_at terms.old) inputs.now)) }

    // What they mean.
    ensures meaning { IfOk result (λ v. (g : Goal) → slice_get (file spec.now).goals goal ≡ Some g
        → AreTermsOver terms.old.pointer (map (term_at terms.old) inputs.now)
        (map (sort_of terms.old.pointer) g.results)
        (pattern_results (file spec.now) pattern.now) (map (term_at terms.new) v.items)) }
{
    // That both are tables is known by these calls.
    let _counts = (terms.len(), spec.terms.len());
    let outs = all_terms(alloc, spec, goal, pattern.nodes.as_slice(), inputs, terms)?;
    found_all(alloc, inputs, outs.as_slice(), pattern.results.as_slice())
}

/// The goal's results as terms, where these terms of its arguments' sorts stand for its inputs. At each environment
/// they have the goal's results at the values that the inputs' terms have there.
///
/// An `Err` is out of memory; nodes may have been added to the table then, and the earlier ones stay.
pub fn goal_terms(
    alloc: Global,
    spec: &Spec,
    goal: u32,
    inputs: &[TermId],
    terms: &mut Terms,
) -> Result<Vec<TermId>, AllocError>
    requires there { goal < length spec.now.goals }
    requires pointer { terms.old.pointer ≡ spec.now.pointer }
    requires within { AreIn terms.old inputs.now }
    requires sorts { (g : Goal) → slice_get (file spec.now).goals goal ≡ Some g
        → map (sort_of terms.old.pointer) (map (term_at terms.old) inputs.now) ≡ map (λ s. Some s) g.args }
    ensures extends { Extends terms.old terms.new }
    ensures table { IsTable terms.new }
    ensures within { IfOk result (λ v. AreIn terms.new v.items) }
    ensures terms { IfOk result (λ v. (g : Goal) → slice_get (file spec.now).goals goal ≡ Some g
        → map (term_at terms.new) v.items ≡ goal_terms g (map (term_at terms.old) inputs.now)) }

    // What they mean.
    ensures meaning { IfOk result (λ v. (g : Goal) → slice_get (file spec.now).goals goal ≡ Some g
        → AreTermsOver terms.old.pointer (map (term_at terms.old) inputs.now)
        (map (sort_of terms.old.pointer) g.results)
        (goal_results g) (map (term_at terms.new) v.items)) }
{
    // That both are tables is known by these calls.
    let _counts = (terms.len(), spec.terms.len());
    let definition = spec.goal(goal);
    let results = definition.results.as_slice();
    graft_all(alloc, &spec.terms, results, inputs, terms)
}
