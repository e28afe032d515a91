//! Conflict analysis: from the falsified clause back along the trail, each true literal whose variable is marked is
//! resolved with its reason, until one literal of the last level is left. The clause so far is never written out before
//! the end: its literals are the opposites of the true literals whose variables are marked.
//!
//! It costs what it marks and the part of the trail that it goes back over: marked variables are listed, the learnt
//! clause is read from the list, and the marks are taken away along it.

ghost use Rattle.std.specs.Prelude.{◌≡◌, ℕ, Bool, ◌+◌, ◌-◌, ◌<◌, ◌≤◌, ◌⊎◌, ◌||◌, ◌==◌, List, [], false, true, length};
ghost use Rattle.std.specs.Prelude.{take};
ghost use Rattle.std.specs.Prelude.{slice_get, slice_index_or, Some, None, All, IfSome, IfNone, IfOk, OnOk, OnErr};
ghost use Rattle.cnf_core.specs.Clause.{opposite, same_lit, contains, assigned, IsOver};
ghost use Rattle.cnf_core.specs.Resolution.{after_steps, derived};
ghost use Rattle.cnf_core.specs.declared.clause.Lit.{Lit};
ghost use Rattle.cnf_core.specs.declared.clause.Clause.{Clause};
ghost use Rattle.cdcl_base.specs.Trail.{HasDistinctVariables, IsConflict, ArePropagated, ArePlaces, AreReasons};
ghost use Rattle.cdcl_base.specs.Trail.{ArePropagatedBefore};
ghost use Rattle.cdcl_base.specs.Analysis.{HaveReasons, IsMarked, AreUnmarked, IsLastMarked, Leads, IsCollected};
ghost use Rattle.cdcl_base.specs.Analysis.{IsKeptLength, IsLearnt, AreListed, AreMarks, HasPlace, IsFirstPlace};
ghost use Rattle.cdcl_base.specs.Analysis.{IsKept, contains_number, contains_variable};

use crate::clauses::Clauses;
use crate::literal::PackedLit;
use crate::trail::Trail;
use cnf_core::{Chain, Lit};
use collections::Seq;
use std::alloc::{AllocError, Global};
use std::marker::Model;

/// The clause that is learnt from a conflict.
#[derive(Drop)]
pub struct Learnt {
    /// The derivation of the clause.
    pub chain: Chain,
    /// The clause: one literal of the last level, and false literals of earlier ones.
    pub clause: Vec<PackedLit>,
    /// The literal of the last level.
    pub lit: PackedLit,
    /// The number of literals at the front of the trail that make all others false.
    pub keep: usize,
    /// The one of the others that became false last; the literal of the last level where there is no other.
    pub last_false: PackedLit,
}

/// Conflict analysis over n variables, with memory that it uses again for each conflict. Contracts see it as n.
#[derive(Drop)]
pub struct Analyzer {
    /// Which variables are marked: none between analyses.
    marks: Vec<bool>,
    /// The variables that the last analysis marked.
    marked: Vec<usize>,
}

impl Model for Analyzer {
    ghost use Rattle.std.specs.Prelude.{◌≡◌, ℕ, ◌<◌, false, All, length};
    ghost use Rattle.cnf_core.specs.Clause.{assigned};

    ghost Value = { ℕ };

    ghost view = { λ a. length a.marks.items };

    ghost invariant = { λ a. ((x : ℕ) → assigned a.marks.items x ≡ false)
        × All (λ x. x < length a.marks.items) a.marked.items };
}

impl Analyzer {
    /// Analysis over n variables.
    pub fn new(alloc: Global, variables: usize) -> Result<Analyzer, AllocError>
        ensures { IfOk result (λ a. a ≡ variables) }
    {
        Ok(Analyzer {
            marks: unmarked(alloc, variables)?,
            marked: Vec::new(alloc),
        })
    }

    /// Makes the number of variables a greater one. The only error is out of memory; it changes nothing.
    pub fn grow(&mut self, variables: usize) -> Result<(), AllocError>
        requires { self.old ≤ variables }
        ensures ok { OnOk result (self.new ≡ variables) }
        ensures err { OnErr result (self.new ≡ self.old) }
    {
        self.marks.resize(variables, false)?;
        Ok(())
    }

    /// The number of variables.
    pub fn variables(&self) -> usize
        ensures { result ≡ self.now }
    {
        self.marks.len()
    }

    /// The variables that had a part in the last conflict that was analyzed.
    pub fn marked(&self) -> &[usize]
        ensures { All (λ x. x < self.now) result.now }
    {
        self.marked.as_slice()
    }

    /// The clause that is learnt from the conflict at the falsified clause of a number, with its chain. The last level
    /// begins at `level_start`. The clause is new, and it is unit once the search has backjumped to `keep` literals.
    /// The only error is out of memory.
    pub fn analyze(
        &mut self,
        alloc: Global,
        clauses: &Clauses,
        trail: &Trail,
        conflict: usize,
        level_start: usize,
    ) -> Result<Learnt, AllocError>
        requires variables { self.old ≡ trail.now.variables }
        requires over { All (λ c. IsOver trail.now.variables c.lits) clauses.now }
        requires reasons { AreReasons clauses.now trail.now }
        requires before { ArePropagatedBefore clauses.now trail.now }
        requires level_start { slice_get trail.now.level_starts (length trail.now.level_starts - 1) ≡ Some level_start }
        requires conflict { IsConflict trail.now.lits clauses.now conflict }
        ensures learnt { IfOk result (IsLearnt clauses.now trail.now.variables trail.now.lits level_start) }
        ensures variables { self.new ≡ self.old }
    {
        self.marked.clear();
        let learnt = learn(
            alloc,
            self.marks.as_mut_slice(),
            &mut self.marked,
            clauses,
            trail,
            conflict,
            level_start,
        );
        unmark(self.marks.as_mut_slice(), self.marked.as_slice());
        learnt
    }
}

/// A mark for each of n variables, and none of them is marked.
fn unmarked(alloc: Global, variables: usize) -> Result<Vec<bool>, AllocError>
    ensures length { IfOk result (λ marks. length marks.items ≡ variables) }
    ensures unmarked { IfOk result (λ marks. (x : ℕ) → assigned marks.items x ≡ false) }
{
    vec![in alloc; false; variables]
}

/// Marks a variable.
fn mark_one(marks: &mut [bool], marked: &mut Vec<usize>, variable: usize) -> Result<(), AllocError>
    requires { variable < length marks.old }
    ensures length { length marks.new ≡ length marks.old }
    ensures marks { OnOk result ((x : ℕ) → assigned marks.new x ≡ (assigned marks.old x || (variable == x))) }
    ensures listed { AreListed marks.old marked.old.items → AreListed marks.new marked.new.items }
    ensures same { take (length marked.old.items) marked.new.items ≡ marked.old.items }
{
    if marks[variable] {
        return Ok(());
    }
    marked.push(variable)?;
    marks[variable] = true;
    Ok(())
}

/// Marks the variables of a clause.
fn mark(marks: &mut [bool], marked: &mut Vec<usize>, lits: &[PackedLit]) -> Result<(), AllocError>
    requires { IsOver (length marks.old) lits.now }
    ensures length { length marks.new ≡ length marks.old }
    ensures marks { OnOk result (IsMarked marks.old lits.now marks.new) }
    ensures listed { AreListed marks.old marked.old.items → AreListed marks.new marked.new.items }
    ensures same { take (length marked.old.items) marked.new.items ≡ marked.old.items }
{
    for lit in lits {
        mark_one(marks, marked, lit.variable())?;
    }
    Ok(())
}

/// Takes the marks of the listed variables away.
fn unmark(marks: &mut [bool], marked: &[usize])
    requires { AreListed marks.old marked.now }
    ensures length { length marks.new ≡ length marks.old }
    ensures unmarked { (x : ℕ) → assigned marks.new x ≡ false }
{
    for variable in marked {
        marks[*variable] = false;
    }
}

/// The last place from `from` on and before `to` whose variable is marked.
fn last_marked(lits: &[PackedLit], marks: &[bool], from: usize, to: usize) -> Option<usize>
    requires over { IsOver (length marks.now) lits.now }
    requires within { to ≤ length lits.now }
    ensures some { IfSome result (λ place. IsLastMarked marks.now lits.now from to place) }
    ensures none { IfNone result (AreUnmarked marks.now lits.now from to) }
{
    let mut place = to;
    while from < place {
        place -= 1;
        if marks[lits[place].variable()] {
            return Some(place);
        }
    }
    None
}

/// The earlier of two places, the first of which counts from `from` on.
fn earlier(place: usize, from: usize, first: usize) -> usize
    ensures within { result ≤ first }
    ensures lower { from ≤ place → result ≤ place }
    ensures found { (result ≡ first) ⊎ ((result ≡ place) × (from ≤ place)) }
{
    if place < from {
        return first;
    }
    if first < place { first } else { place }
}

/// The first place of the listed variables from `from` on; `first` is that of the first `done` of them.
fn first_place(marked: &[usize], places: &[usize], from: usize, done: usize, first: usize) -> usize
    requires places { (x : ℕ) → contains_number marked.now x ≡ true → x < length places.now }
    requires done { done ≤ length marked.now }
    ensures { (end : ℕ) → IsFirstPlace places.now from end (take done marked.now) first →
        IsFirstPlace places.now from end marked.now result }
{
    let mut first = first;
    for next in done..marked.len() {
        first = earlier(places[marked[next]], from, first);
    }
    first
}

/// The number of places up to a place, where that is before an end, or to one that is later.
fn later(place: usize, end: usize, keep: usize) -> usize
    ensures upper { keep ≤ result }
    ensures after { place < end → place < result }
    ensures found { (result ≡ keep) ⊎ ((result ≡ place + 1) × (place < end)) }
{
    if end <= place {
        return keep;
    }
    if place < keep { keep } else { place + 1 }
}

/// The number of places up to the last one of a listed variable before an end; 0 where there is none.
fn kept_length(marked: &[usize], places: &[usize], end: usize) -> usize
    requires { (x : ℕ) → contains_number marked.now x ≡ true → x < length places.now }
    ensures { IsKept places.now end marked.now result }
{
    let mut keep = 0;
    for variable in marked {
        keep = later(places[*variable], end, keep);
    }
    keep
}

/// Resolves the clause so far on the literal in a place with its reason.
fn resolve(
    steps: &mut Vec<(Lit, usize)>,
    marks: &mut [bool],
    marked: &mut Vec<usize>,
    clauses: &Clauses,
    lits: &[PackedLit],
    reasons: &[Option<usize>],
    place: usize,
) -> Result<(), AllocError>
    requires reason { HaveReasons clauses.now lits.now reasons.now place (place + 1) }
    requires distinct { HasDistinctVariables lits.now }
    requires over { All (λ c. IsOver (length marks.old) c.lits) clauses.now }
    requires marked { (l : Lit) → slice_get lits.now place ≡ Some l → assigned marks.old l.variable ≡ true }
    ensures length { length marks.new ≡ length marks.old }
    ensures listed { AreListed marks.old marked.old.items → AreListed marks.new marked.new.items }
    ensures same { take (length marked.old.items) marked.new.items ≡ marked.old.items }
    ensures placed { OnOk result (((x : ℕ) → assigned marks.old x ≡ true → HasPlace lits.now x) → (x : ℕ) →
        assigned marks.new x ≡ true → HasPlace lits.now x) }
    ensures step { OnOk result ((first : List Lit) →
        Leads clauses.now first steps.old.items marks.old (take (place + 1) lits.now) →
        Leads clauses.now first steps.new.items marks.new (take place lits.now)) }
{
    let reason = reasons[place].unwrap();
    steps.push((lits[place].opposite().lit(), reason))?;
    mark(marks, marked, clauses.lits(reason))
}

/// The place of the first unique implication point of the last level, which begins at `level_start`: resolves until one
/// marked literal of that level is left.
fn first_uip(
    steps: &mut Vec<(Lit, usize)>,
    marks: &mut [bool],
    marked: &mut Vec<usize>,
    clauses: &Clauses,
    lits: &[PackedLit],
    reasons: &[Option<usize>],
    places: &[usize],
    level_start: usize,
) -> Result<usize, AllocError>
    requires reasons { HaveReasons clauses.now lits.now reasons.now (level_start + 1) (length lits.now) }
    requires distinct { HasDistinctVariables lits.now }
    requires places { ArePlaces lits.now places.now }
    requires over { IsOver (length marks.old) lits.now }
    requires clauses { All (λ c. IsOver (length marks.old) c.lits) clauses.now }
    requires marks { AreMarks lits.now marks.old marked.old.items }
    requires marked { (k : ℕ) × (l : Lit) × (level_start ≤ k) × (slice_get lits.now k ≡ Some l)
        × (assigned marks.old l.variable ≡ true) }
    ensures length { length marks.new ≡ length marks.old }
    ensures listed { AreListed marks.new marked.new.items }
    ensures marks { OnOk result (AreMarks lits.now marks.new marked.new.items) }
    ensures point { IfOk result (λ place. (level_start ≤ place) × (place < length lits.now)) }
    ensures marked { IfOk result (λ place. (l : Lit) → slice_get lits.now place ≡ Some l →
        assigned marks.new l.variable ≡ true) }
    ensures alone { IfOk result (λ place. AreUnmarked marks.new lits.now level_start place) }
    ensures steps { IfOk result (λ place. (first : List Lit) →
        Leads clauses.now first steps.old.items marks.old lits.now →
        Leads clauses.now first steps.new.items marks.new (take (place + 1) lits.now)) }
{
    let mut first = first_place(marked.as_slice(), places, level_start, 0, lits.len());
    let mut place = last_marked(lits, marks, first, lits.len()).unwrap();
    while first < place {
        let done = marked.len();
        resolve(steps, marks, marked, clauses, lits, reasons, place)?;
        first = first_place(marked.as_slice(), places, level_start, done, first);
        place = last_marked(lits, marks, first, place).unwrap();
    }
    Ok(place)
}

/// The opposite of the literal in a place.
fn opposite_at(lits: &[PackedLit], place: usize) -> PackedLit
    requires { place < length lits.now }
    ensures { (l : Lit) → slice_get lits.now place ≡ Some l → result ≡ opposite l }
{
    lits[place].opposite()
}

/// The opposite of the literal in a place, and those of the marked literals before `level_start`.
fn collect(
    alloc: Global,
    lits: &[PackedLit],
    places: &[usize],
    marked: &[usize],
    place: usize,
    level_start: usize,
) -> Result<Vec<PackedLit>, AllocError>
    requires distinct { HasDistinctVariables lits.now }
    requires places { ArePlaces lits.now places.now }
    requires placed { (x : ℕ) → contains_number marked.now x ≡ true → HasPlace lits.now x }
    requires place { place < length lits.now }
    ensures { IfOk result (λ c. (l : Lit) → slice_get lits.now place ≡ Some l → (marks : List Bool) →
        AreListed marks marked.now → IsCollected marks lits.now (opposite l) level_start c.items) }
{
    let mut clause = Vec::new(alloc);
    clause.push(lits[place].opposite())?;
    for variable in marked {
        let earlier = places[*variable];
        if earlier < level_start {
            clause.push(opposite_at(lits, earlier))?;
        }
    }
    Ok(clause)
}

/// The opposite of the last of the first `keep` literals; the literal itself where `keep` is 0.
fn last_false(lits: &[PackedLit], keep: usize, lit: PackedLit) -> PackedLit
    requires { keep ≤ length lits.now }
    ensures { 0 < keep → slice_get lits.now (keep - 1) ≡ Some (opposite result) }
{
    if keep == 0 {
        lit
    } else {
        lits[keep - 1].opposite()
    }
}

/// What is learnt from a conflict, and the marks that it leaves.
fn learn(
    alloc: Global,
    marks: &mut [bool],
    marked: &mut Vec<usize>,
    clauses: &Clauses,
    trail: &Trail,
    conflict: usize,
    level_start: usize,
) -> Result<Learnt, AllocError>
    requires marks { (x : ℕ) → assigned marks.old x ≡ false }
    requires room { length marks.old ≡ trail.now.variables }
    requires marked { marked.old.items ≡ [] }
    requires over { All (λ c. IsOver trail.now.variables c.lits) clauses.now }
    requires reasons { AreReasons clauses.now trail.now }
    requires before { ArePropagatedBefore clauses.now trail.now }
    requires level_start { slice_get trail.now.level_starts (length trail.now.level_starts - 1) ≡ Some level_start }
    requires conflict { IsConflict trail.now.lits clauses.now conflict }
    ensures length { length marks.new ≡ length marks.old }
    ensures listed { AreListed marks.new marked.new.items }
    ensures over { All (λ x. x < trail.now.variables) marked.new.items }
    ensures learnt { IfOk result (IsLearnt clauses.now trail.now.variables trail.now.lits level_start) }
{
    let lits = trail.lits();
    let places = trail.places();
    mark(marks, marked, clauses.lits(conflict))?;
    let mut steps = Vec::new(alloc);
    let reasons = trail.reasons();
    let place = first_uip(
        &mut steps,
        marks,
        marked,
        clauses,
        lits,
        reasons,
        places,
        level_start,
    )?;
    let keep = kept_length(marked.as_slice(), places, level_start);
    let clause = collect(alloc, lits, places, marked.as_slice(), place, level_start)?;
    let lit = lits[place].opposite();
    Ok(Learnt {
        chain: Chain {
            first: conflict,
            steps: Seq::from_vec(steps),
        },
        clause,
        lit,
        keep,
        last_false: last_false(lits, keep, lit),
    })
}

/// Resolves every marked literal away, at decision level 0.
fn resolve_all(
    steps: &mut Vec<(Lit, usize)>,
    marks: &mut [bool],
    marked: &mut Vec<usize>,
    clauses: &Clauses,
    lits: &[PackedLit],
    reasons: &[Option<usize>],
) -> Result<(), AllocError>
    requires reasons { HaveReasons clauses.now lits.now reasons.now 0 (length lits.now) }
    requires distinct { HasDistinctVariables lits.now }
    requires over { IsOver (length marks.old) lits.now }
    requires clauses { All (λ c. IsOver (length marks.old) c.lits) clauses.now }
    ensures { OnOk result ((first : List Lit) → Leads clauses.now first steps.old.items marks.old lits.now →
        after_steps clauses.now first steps.new.items ≡ Some []) }
{
    let mut end = lits.len();
    while last_marked(lits, marks, 0, end).is_some() {
        let place = last_marked(lits, marks, 0, end).unwrap();
        resolve(steps, marks, marked, clauses, lits, reasons, place)?;
        end = place;
    }
    Ok(())
}

/// The chain of the empty clause, from the conflict at the falsified clause of a number at decision level 0. The only
/// error is out of memory.
pub fn refute(
    alloc: Global,
    clauses: &Clauses,
    trail: &Trail,
    conflict: usize,
) -> Result<Chain, AllocError>
    requires over { All (λ c. IsOver trail.now.variables c.lits) clauses.now }
    requires reasons { AreReasons clauses.now trail.now }
    requires level_start { slice_get trail.now.level_starts (length trail.now.level_starts - 1) ≡ None }
    requires conflict { IsConflict trail.now.lits clauses.now conflict }
    ensures { IfOk result (λ chain. derived clauses.now chain ≡ Some []) }
{
    let lits = trail.lits();
    let mut marks = unmarked(alloc, trail.variables())?;
    let mut marked = Vec::new(alloc);
    mark(&mut marks, &mut marked, clauses.lits(conflict))?;
    let mut steps = Vec::new(alloc);
    let reasons = trail.reasons();
    resolve_all(&mut steps, &mut marks, &mut marked, clauses, lits, reasons)?;
    Ok(Chain {
        first: conflict,
        steps: Seq::from_vec(steps),
    })
}
