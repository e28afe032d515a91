//! Laws on formulas, each a function whose clauses state it.

ghost use Rattle.std.specs.Prelude.{◌≡◌, ◌<◌, ℕ, List, length};
ghost use Rattle.bv_terms.specs.declared.op.Op.TheVariants as op;
ghost use Rattle.bv_terms.specs.declared.op.TermId.{TermId};
ghost use Rattle.bv_terms.specs.declared.value.Sort.{Sort};
ghost use Rattle.bv_terms.specs.declared.value.Sort.TheVariants as sort;
ghost use Rattle.bv_terms.specs.declared.value.Value.{Value};
ghost use Rattle.bv_terms.specs.Subterm.{IsSubterm};
ghost use Rattle.bv_terms.specs.Table.{Table, Extends, term_at};
ghost use Rattle.bv_terms.specs.Term.{Apply, End};
ghost use Rattle.bv_terms.specs.WellSorted.{InputsFit};
ghost use Rattle.pattern_core.specs.Claim.{Claim, IsClaim, IsPatternOf};
ghost use Rattle.pattern_core.specs.declared.pattern.Pattern.{Pattern};
ghost use Rattle.loc_encode.specs.declared.encoded.Encoded.{Encoded};
ghost use Rattle.loc_encode.specs.Standing.{Fits, StandsFor};
ghost use Rattle.loc_encode.specs.Parts.{IsTruthOver, IsAgreement, IsDifference};
ghost use Rattle.loc_encode.specs.Encoded.{IsRight};
ghost use Rattle.loc_encode.specs.Given.{IsGiven};

use isel_spec::Spec;
use multiset_rank::Multi;

/// There is one claim of a goal of the file with a multiset.
pub fn has_one_claim(spec: &Spec, goal: u32, multi: &Multi)
    requires { goal < length spec.now.goals }
    ensures there { (c : Claim) × IsClaim spec.now goal multi.now c }
    ensures only { (c d : Claim) → IsClaim spec.now goal multi.now c → IsClaim spec.now goal multi.now d → c ≡ d }
{
    let _ = spec;
    let _ = goal;
    let _ = multi;
}

/// What is right over a table is right over each that has this one as a prefix, the formula as well as the terms that
/// are answered.
pub fn stays_right()
    ensures formula { (c : Claim) (e : Encoded) (old new : Table) → Extends old new → IsRight c e old
        → IsRight c e new }
    ensures agreement { (c : Claim) (inputs : List Value) (old new : Table) (at : TermId) → Extends old new
        → IsAgreement c inputs old at → IsAgreement c inputs new at }
    ensures difference { (c : Claim) (p : Pattern) (old new : Table) (at : TermId) → Extends old new
        → IsDifference c p old at → IsDifference c p new at }
{}

/// Values that fit every slot fit each truth value over slots: so those that fit one right formula fit them all.
pub fn values_fit()
    ensures { (c : Claim) (env : List Value) (table : Table) (at : TermId) → IsTruthOver c table at → Fits c env
        → InputsFit env (term_at table at) }
{}

/// Below truth values over slots each input has a number below 1746, none is a memory, and no two have one number and
/// two sorts.
pub fn inputs_have_one_sort(spec: &Spec, goal: u32, multi: &Multi)
    requires { IsGiven spec.now goal multi.now }
    ensures no_memory { (c : Claim) (table : Table) (at : TermId) → IsClaim spec.now goal multi.now c
        → IsTruthOver c table at → (k : ℕ) → ¬ IsSubterm (Apply (op.Input k sort.Mem) End) (term_at table at) }
    ensures small { (c : Claim) (table : Table) (at : TermId) → IsClaim spec.now goal multi.now c
        → IsTruthOver c table at → (k : ℕ) (s : Sort) → IsSubterm (Apply (op.Input k s) End) (term_at table at)
        → k < 1746 }
    ensures one_sort { (c : Claim) (table : Table) (a b : TermId) → IsClaim spec.now goal multi.now c
        → IsTruthOver c table a → IsTruthOver c table b → (k : ℕ) (s t : Sort)
        → IsSubterm (Apply (op.Input k s) End) (term_at table a)
        → IsSubterm (Apply (op.Input k t) End) (term_at table b) → s ≡ t }
{
    let _ = goal;
    // That the terms make a table, and that a multiset has at most six numbers, is known from calls alone.
    spec.terms.len();
    multi.ops();
}

/// Values stand for each pattern of a goal with a multiset, and values stand for one such pattern at most.
pub fn patterns_have_values(spec: &Spec, goal: u32, multi: &Multi)
    requires { IsGiven spec.now goal multi.now }
    ensures some { (c : Claim) (p : Pattern) → IsClaim spec.now goal multi.now c → IsPatternOf c p
        → (env : List Value) × StandsFor c env p }
    ensures only { (c : Claim) (env : List Value) (p q : Pattern) → IsClaim spec.now goal multi.now c
        → IsPatternOf c p → IsPatternOf c q → StandsFor c env p → StandsFor c env q → p ≡ q }
{
    let _ = goal;
    let _ = multi;
    // That the terms make a table, and so are well-sorted, is known from a call alone.
    spec.terms.len();
}
