//! The formula of a goal with a multiset of operations. It is the shape of the patterns, and for each kept example and
//! each blocked pattern one term more: that the pattern gives the goal's results there, or is another one.

ghost use Rattle.std.specs.Prelude.{◌≡◌, ◌↔◌, ◌∷◌, ◌++◌, [], List, All, IfOk};
ghost use Rattle.bv_terms.specs.declared.value.Value.{Value};
ghost use Rattle.bv_terms.specs.Table.{Extends};
ghost use Rattle.pattern_core.specs.Claim.{Claim, IsClaim};
ghost use Rattle.loc_encode.specs.Parts.{IsTrueAt, IsAgreement, IsDifference};
ghost use Rattle.loc_encode.specs.Given.{IsGiven, IsExampleFor, IsPatternFor, IsRightFor, Keeps};

use crate::agreement::agreement;
use crate::conditions::made;
use crate::difference::difference;
use crate::shape::shape;
use crate::slots::SLOTS;
use bv_terms::{Op, TermId, Terms};
use collections::Seq;
use isel_spec::Spec;
use multiset_rank::Multi;
use pattern_core::{Example, Pattern};
use std::alloc::{AllocError, Global};

/// The formula of a goal with a multiset of operations, over a table of terms. Values that make it true stand for the
/// patterns that give the goal's results at each of the examples and are none of the blocked ones.
#[derive(Debug, Drop)]
pub struct Encoded {
    pub formula: TermId,
    pub goal: u32,
    pub multi: Multi,
    /// Each input of the formula has a number below this one.
    pub inputs: u32,
    pub examples: Seq<Example>,
    pub blocked: Seq<Pattern>,
}

/// The formula of the shape alone: no example, and nothing blocked.
fn start(
    alloc: Global,
    spec: &Spec,
    goal: u32,
    multi: &Multi,
    terms: &mut Terms,
) -> Result<Encoded, AllocError>
    requires given { IsGiven spec.now goal multi.now }
    requires pointer { terms.old.pointer ≡ spec.now.pointer }
    ensures extends { Extends terms.old terms.new }
    ensures right { IfOk result (λ e. IsRightFor spec.now e terms.new) }
    ensures kept { IfOk result (Keeps goal multi.now 1746 [] []) }
{
    let formula = shape(alloc, spec, goal, multi, terms)?;
    Ok(Encoded {
        formula,
        goal,
        multi: *multi,
        inputs: SLOTS,
        examples: Seq::new(alloc),
        blocked: Seq::new(alloc),
    })
}

/// The formula with one more example: that besides the pattern gives the goal's results there. The term that is
/// answered says that alone, so that a solver which has the old formula needs no other. An `Err` is out of memory.
pub fn extend(
    alloc: Global,
    spec: &Spec,
    encoded: Encoded,
    example: Example,
    terms: &mut Terms,
) -> Result<(Encoded, TermId), AllocError>
    requires given { IsGiven spec.now encoded.goal encoded.multi }
    requires pointer { terms.old.pointer ≡ spec.now.pointer }
    requires right { IsRightFor spec.now encoded terms.old }
    requires example { IsExampleFor spec.now encoded.goal encoded.multi example }
    ensures extends { Extends terms.old terms.new }
    ensures right { IfOk result (λ r. IsRightFor spec.now r.0 terms.new) }
    ensures formula { IfOk result (λ r. (env : List Value)
        → IsTrueAt terms.new r.0.formula env ↔ (IsTrueAt terms.old encoded.formula env × IsTrueAt terms.new r.1 env)) }
    ensures term { IfOk result (λ r. (c : Claim) → IsClaim spec.now encoded.goal encoded.multi c
        → IsAgreement c example.inputs terms.new r.1) }
    ensures kept { IfOk result (λ r. Keeps encoded.goal encoded.multi encoded.inputs (encoded.examples ++ example ∷ [])
        encoded.blocked r.0) }
{
    let term = agreement(alloc, spec, encoded.goal, &encoded.multi, &example, terms)?;
    let formula = made(Op::And, &[encoded.formula, term], terms)?;
    let mut more = encoded;
    more.examples.push(example)?;
    more.formula = formula;
    Ok((more, term))
}

/// The formula with one more blocked pattern: that besides the pattern is another one than this. The term that is
/// answered says that alone. An `Err` is out of memory.
pub fn block(
    spec: &Spec,
    encoded: Encoded,
    pattern: Pattern,
    terms: &mut Terms,
) -> Result<(Encoded, TermId), AllocError>
    requires given { IsGiven spec.now encoded.goal encoded.multi }
    requires right { IsRightFor spec.now encoded terms.old }
    requires pattern { IsPatternFor spec.now encoded.goal encoded.multi pattern }
    ensures extends { Extends terms.old terms.new }
    ensures right { IfOk result (λ r. IsRightFor spec.now r.0 terms.new) }
    ensures formula { IfOk result (λ r. (env : List Value)
        → IsTrueAt terms.new r.0.formula env ↔ (IsTrueAt terms.old encoded.formula env × IsTrueAt terms.new r.1 env)) }
    ensures term { IfOk result (λ r. (c : Claim) → IsClaim spec.now encoded.goal encoded.multi c
        → IsDifference c pattern terms.new r.1) }
    ensures kept { IfOk result (λ r. Keeps encoded.goal encoded.multi encoded.inputs encoded.examples
        (encoded.blocked ++ pattern ∷ []) r.0) }
{
    let term = difference(spec, encoded.goal, &encoded.multi, &pattern, terms)?;
    let formula = made(Op::And, &[encoded.formula, term], terms)?;
    let mut more = encoded;
    more.blocked.push(pattern)?;
    more.formula = formula;
    Ok((more, term))
}

/// The formula with these examples besides.
fn with_examples(
    alloc: Global,
    spec: &Spec,
    encoded: Encoded,
    examples: Seq<Example>,
    terms: &mut Terms,
) -> Result<Encoded, AllocError>
    requires given { IsGiven spec.now encoded.goal encoded.multi }
    requires pointer { terms.old.pointer ≡ spec.now.pointer }
    requires right { IsRightFor spec.now encoded terms.old }
    requires examples { All (IsExampleFor spec.now encoded.goal encoded.multi) examples }
    ensures extends { Extends terms.old terms.new }
    ensures right { IfOk result (λ e. IsRightFor spec.now e terms.new) }
    ensures kept { IfOk result (Keeps encoded.goal encoded.multi encoded.inputs (encoded.examples ++ examples)
        encoded.blocked) }
{
    let mut left = examples.into_vec();
    left.reverse();
    let mut all = encoded;
    while let Some(example) = left.pop() {
        let (more, _) = extend(alloc, spec, all, example, terms)?;
        all = more;
    }
    Ok(all)
}

/// The formula with these patterns blocked besides.
fn with_blocked(
    spec: &Spec,
    encoded: Encoded,
    patterns: Seq<Pattern>,
    terms: &mut Terms,
) -> Result<Encoded, AllocError>
    requires given { IsGiven spec.now encoded.goal encoded.multi }
    requires right { IsRightFor spec.now encoded terms.old }
    requires patterns { All (IsPatternFor spec.now encoded.goal encoded.multi) patterns }
    ensures extends { Extends terms.old terms.new }
    ensures right { IfOk result (λ e. IsRightFor spec.now e terms.new) }
    ensures kept { IfOk result (Keeps encoded.goal encoded.multi encoded.inputs encoded.examples
        (encoded.blocked ++ patterns)) }
{
    let mut left = patterns.into_vec();
    left.reverse();
    let mut all = encoded;
    while let Some(pattern) = left.pop() {
        let (more, _) = block(spec, all, pattern, terms)?;
        all = more;
    }
    Ok(all)
}

/// The formula of a goal with a multiset whose patterns give the goal's results at each of the examples and are none of
/// the blocked ones. Its inputs have numbers below `inputs`. An `Err` is out of memory.
pub fn encode(
    alloc: Global,
    spec: &Spec,
    goal: u32,
    multi: &Multi,
    examples: Seq<Example>,
    blocked: Seq<Pattern>,
    terms: &mut Terms,
) -> Result<Encoded, AllocError>
    requires given { IsGiven spec.now goal multi.now }
    requires pointer { terms.old.pointer ≡ spec.now.pointer }
    requires examples { All (IsExampleFor spec.now goal multi.now) examples }
    requires blocked { All (IsPatternFor spec.now goal multi.now) blocked }
    ensures extends { Extends terms.old terms.new }
    ensures right { IfOk result (λ e. IsRightFor spec.now e terms.new) }
    ensures kept { IfOk result (Keeps goal multi.now 1746 examples blocked) }
{
    let first = start(alloc, spec, goal, multi, terms)?;
    let agreeing = with_examples(alloc, spec, first, examples, terms)?;
    with_blocked(spec, agreeing, blocked, terms)
}
