//! The trail: the true literals in the order of their assignment, with the reasons and the levels of the decisions. No
//! variable is on it twice, each literal without a reason is a decision, and the values beside it are those of its
//! literals.

ghost use Rattle.std.specs.Prelude.{◌≡◌, ◌-◌, ◌*◌, ◌^◌, ◌<◌, ◌≤◌, ◌++◌, ◌∷◌, [], ℕ, Bool, length, slice_get, take};
ghost use Rattle.std.specs.Prelude.{Some, None, IfOk, OnOk, OnErr};
ghost use Rattle.cnf_core.specs.declared.clause.Lit.{Lit};
ghost use Rattle.cnf_core.specs.Clause.{opposite, contains, assigned, IsOver};
ghost use Rattle.cdcl_base.specs.Codes.{code};
ghost use Rattle.cdcl_base.specs.Trail.{IsTrail, IsUnassigned, HasDistinctVariables, IsCancelled, ArePlaces};
ghost use Rattle.cdcl_base.specs.Values.{is_value, AreValues};

use crate::literal::PackedLit;
use std::alloc::{AllocError, Global};
use std::marker::Model;

/// The most variables: there are twice as many literals, each with a number in 32 bits.
const MOST_VARIABLES: usize = 1 << 31;

/// The true literals, in the order of their assignment.
#[derive(Drop)]
pub struct Trail {
    variables: usize,
    lits: Vec<PackedLit>,
    /// For each literal the number of the clause that forced it; none for a decision.
    reasons: Vec<Option<usize>>,
    /// For each decision level the number of literals before it.
    level_starts: Vec<usize>,
    /// Whether the literal of a number is true.
    truths: Vec<bool>,
    /// For each variable with a value the place of its literal.
    places: Vec<usize>,
    /// The last value that each variable had.
    phases: Vec<bool>,
}

impl Model for Trail {
    ghost use Rattle.cdcl_base.specs.Trail.{Trail, IsTrail};
    ghost use Rattle.cdcl_base.specs.Values.{trail_of, AreValues};

    ghost Value = { Trail };

    ghost view = { λ t. trail_of t.variables t.lits.items t.reasons.items t.level_starts.items };

    ghost invariant = { λ t. IsTrail (trail_of t.variables t.lits.items t.reasons.items t.level_starts.items)
        × AreValues t.variables t.lits.items t.truths.items t.places.items t.phases.items };
}

impl Trail {
    /// The empty trail over n variables. There is no memory for one over more than 2^31.
    pub fn new(alloc: Global, variables: usize) -> Result<Trail, AllocError>
        ensures { IfOk result (λ t. t ≡ record { variables = variables; lits = []; reasons = []; level_starts = [] }) }
    {
        if variables > MOST_VARIABLES {
            return Err(AllocError);
        }
        let truths = vec![in alloc; false; 2 * variables]?;
        let places = vec![in alloc; 0; variables]?;
        let phases = vec![in alloc; false; variables]?;
        Ok(Trail {
            variables,
            lits: Vec::new(alloc),
            reasons: Vec::new(alloc),
            level_starts: Vec::new(alloc),
            truths,
            places,
            phases,
        })
    }

    /// Makes the number of variables a greater one. There is no memory for more than 2^31. An error leaves the trail as
    /// it was.
    pub fn grow(&mut self, variables: usize) -> Result<(), AllocError>
        requires { self.old.variables ≤ variables }
        ensures ok { OnOk result (self.new ≡ record {
          variables = variables;
          lits = self.old.lits;
          reasons = self.old.reasons;
          level_starts = self.old.level_starts;
        }) }
        ensures err { OnErr result (self.new ≡ self.old) }
    {
        if variables > MOST_VARIABLES {
            return Err(AllocError);
        }
        extend_flags(&mut self.truths, 2 * variables)?;
        extend_places(&mut self.places, variables)?;
        extend_flags(&mut self.phases, variables)?;
        self.variables = variables;
        Ok(())
    }

    /// The true literals, in the order of their assignment.
    pub fn lits(&self) -> &[PackedLit]
        ensures lits { result.now ≡ self.now.lits }
        ensures trail { IsTrail self.now }
    {
        self.lits.as_slice()
    }

    /// For each literal the number of the clause that forced it; none for a decision.
    pub fn reasons(&self) -> &[Option<usize>]
        ensures { result.now ≡ self.now.reasons }
    {
        self.reasons.as_slice()
    }

    /// For each variable with a value the place of its literal.
    pub fn places(&self) -> &[usize]
        ensures { ArePlaces self.now.lits result.now }
    {
        self.places.as_slice()
    }

    /// The place at which the last level begins; none at decision level 0.
    pub fn last_decision(&self) -> Option<usize>
        ensures { result ≡ slice_get self.now.level_starts (length self.now.level_starts - 1) }
    {
        let count = self.level_starts.len();
        if count == 0 {
            None
        } else {
            Some(self.level_starts[count - 1])
        }
    }

    /// The number of variables.
    pub fn variables(&self) -> usize
        ensures variables { result ≡ self.now.variables }
        ensures trail { IsTrail self.now }
    {
        self.variables
    }

    /// The value that a variable had last; where it never had one, the value that was set for that, else false.
    pub fn phase(&self, variable: usize) -> bool
        requires { variable < self.now.variables }
    {
        self.phases[variable]
    }

    /// Makes a value the one that a variable had last.
    pub fn set_phase(&mut self, variable: usize, value: bool)
        requires { variable < self.old.variables }
        ensures { self.new ≡ self.old }
    {
        self.phases[variable] = value;
    }

    /// The value of a variable, where it has one.
    pub fn value(&self, variable: usize) -> Option<bool>
        requires { variable < self.now.variables }
        ensures { (sign : Bool) →
            contains self.now.lits (record { variable = variable; positive = sign }) ≡ is_value result sign }
    {
        if self.truths[2 * variable + 1] {
            return Some(true);
        }
        if self.truths[2 * variable] {
            return Some(false);
        }
        None
    }

    /// Whether a literal is true.
    pub fn is_true(&self, lit: PackedLit) -> bool
        requires { lit.variable < self.now.variables }
        ensures { result ≡ contains self.now.lits lit }
    {
        self.truths[lit.code()]
    }

    /// Whether a literal is false.
    pub fn is_false(&self, lit: PackedLit) -> bool
        requires { lit.variable < self.now.variables }
        ensures { result ≡ contains self.now.lits (opposite lit) }
    {
        self.truths[lit.opposite().code()]
    }

    /// Makes a literal true that a clause forces. The only error is out of memory; it leaves the trail as it was.
    pub fn assign(&mut self, lit: PackedLit, reason: usize) -> Result<(), AllocError>
        requires there { lit.variable < self.old.variables }
        requires unassigned { IsUnassigned self.old.lits lit }
        ensures ok { OnOk result (self.new ≡ record {
          variables = self.old.variables;
          lits = self.old.lits ++ lit ∷ [];
          reasons = self.old.reasons ++ Some reason ∷ [];
          level_starts = self.old.level_starts;
        }) }
        ensures err { OnErr result (self.new ≡ self.old) }
        ensures was_trail { IsTrail self.old }
        ensures trail { IsTrail self.new }
    {
        let place = self.lits.len();
        push(&mut self.lits, &mut self.reasons, lit, Some(reason))?;
        self.truths[lit.code()] = true;
        self.places[lit.variable()] = place;
        Ok(())
    }

    /// Makes a literal true by a decision. The only error is out of memory; it leaves the trail as it was.
    pub fn decide(&mut self, lit: PackedLit) -> Result<(), AllocError>
        requires there { lit.variable < self.old.variables }
        requires unassigned { IsUnassigned self.old.lits lit }
        ensures ok { OnOk result (self.new ≡ record {
          variables = self.old.variables;
          lits = self.old.lits ++ lit ∷ [];
          reasons = self.old.reasons ++ None ∷ [];
          level_starts = self.old.level_starts ++ length self.old.lits ∷ [];
        }) }
        ensures err { OnErr result (self.new ≡ self.old) }
        ensures was_trail { IsTrail self.old }
        ensures trail { IsTrail self.new }
    {
        let place = self.lits.len();
        push_decision(
            &mut self.lits,
            &mut self.reasons,
            &mut self.level_starts,
            lit,
        )?;
        self.truths[lit.code()] = true;
        self.places[lit.variable()] = place;
        Ok(())
    }

    /// Cancels every decision at or after place `keep`, the last one among them, and all that followed from it. It
    /// costs what it cancels.
    pub fn cancel_until(&mut self, keep: usize)
        requires { (s : ℕ) × (slice_get self.old.level_starts (length self.old.level_starts - 1) ≡ Some s)
            × (keep ≤ s) }
        ensures cancelled { IsCancelled self.old self.new keep }
        ensures was_trail { IsTrail self.old }
        ensures trail { IsTrail self.new }
    {
        let place = cancel_decisions(&mut self.level_starts, keep);
        unassign_from(&mut self.lits, &mut self.truths, &mut self.phases, place);
        self.reasons.truncate(place);
    }

    /// Makes every literal unassigned. The phases stay.
    pub fn clear(&mut self)
        ensures cleared { self.new ≡ record {
          variables = self.old.variables;
          lits = [];
          reasons = [];
          level_starts = [];
        } }
        ensures trail { IsTrail self.new }
    {
        unassign_from(&mut self.lits, &mut self.truths, &mut self.phases, 0);
        self.reasons.clear();
        self.level_starts.clear();
    }
}

/// Makes a list at least as long as a length. Places that it has not had are false.
fn extend_flags(flags: &mut Vec<bool>, size: usize) -> Result<(), AllocError>
    ensures same { (x : ℕ) → assigned flags.new.items x ≡ assigned flags.old.items x }
    ensures kept { length flags.old.items ≤ length flags.new.items }
    ensures size { OnOk result (size ≤ length flags.new.items) }
{
    if flags.len() < size {
        flags.resize(size, false)?;
    }
    Ok(())
}

/// Makes a list at least as long as a length.
fn extend_places(places: &mut Vec<usize>, size: usize) -> Result<(), AllocError>
    ensures same { (x place : ℕ) → slice_get places.old.items x ≡ Some place →
        slice_get places.new.items x ≡ Some place }
    ensures kept { length places.old.items ≤ length places.new.items }
    ensures size { OnOk result (size ≤ length places.new.items) }
{
    if places.len() < size {
        places.resize(size, 0)?;
    }
    Ok(())
}

/// Adds a literal and its reason. An error leaves both lists as they were.
fn push(
    lits: &mut Vec<PackedLit>,
    reasons: &mut Vec<Option<usize>>,
    lit: PackedLit,
    reason: Option<usize>,
) -> Result<(), AllocError>
    ensures lits { OnOk result (lits.new.items ≡ lits.old.items ++ lit ∷ []) }
    ensures reasons { OnOk result (reasons.new.items ≡ reasons.old.items ++ reason ∷ []) }
    ensures err_lits { OnErr result (lits.new.items ≡ lits.old.items) }
    ensures err_reasons { OnErr result (reasons.new.items ≡ reasons.old.items) }
{
    if lits.push(lit).is_err() {
        return Err(AllocError);
    }
    if reasons.push(reason).is_err() {
        lits.pop();
        return Err(AllocError);
    }
    Ok(())
}

/// Adds a literal without a reason, and its place as the start of a level. An error leaves the lists as they were.
fn push_decision(
    lits: &mut Vec<PackedLit>,
    reasons: &mut Vec<Option<usize>>,
    level_starts: &mut Vec<usize>,
    lit: PackedLit,
) -> Result<(), AllocError>
    ensures lits { OnOk result (lits.new.items ≡ lits.old.items ++ lit ∷ []) }
    ensures reasons { OnOk result (reasons.new.items ≡ reasons.old.items ++ None ∷ []) }
    ensures level_starts { OnOk result (level_starts.new.items ≡ level_starts.old.items ++ length lits.old.items ∷ []) }
    ensures err_lits { OnErr result (lits.new.items ≡ lits.old.items) }
    ensures err_reasons { OnErr result (reasons.new.items ≡ reasons.old.items) }
    ensures err_starts { OnErr result (level_starts.new.items ≡ level_starts.old.items) }
{
    let place = lits.len();
    if level_starts.push(place).is_err() {
        return Err(AllocError);
    }
    if push(lits, reasons, lit, None).is_err() {
        level_starts.pop();
        return Err(AllocError);
    }
    Ok(())
}

/// Removes the level starts at or after place `keep`, and returns the first of them.
fn cancel_decisions(level_starts: &mut Vec<usize>, keep: usize) -> usize
    requires { (s : ℕ) × (slice_get level_starts.old.items (length level_starts.old.items - 1) ≡ Some s) × (keep ≤ s) }
    ensures front { level_starts.new.items ≡ take (length level_starts.new.items) level_starts.old.items }
    ensures first { slice_get level_starts.old.items (length level_starts.new.items) ≡ Some result }
    ensures later { keep ≤ result }
    ensures before { (s : ℕ) → slice_get level_starts.new.items (length level_starts.new.items - 1) ≡ Some s →
        s < keep }
{
    let mut count = level_starts.len() - 1;
    while count > 0 && level_starts[count - 1] >= keep {
        count -= 1;
    }
    let first = level_starts[count];
    level_starts.truncate(count);
    first
}

/// Removes the literals from a place on, with their truth. Their values stay as phases.
fn unassign_from(
    lits: &mut Vec<PackedLit>,
    truths: &mut Vec<bool>,
    phases: &mut Vec<bool>,
    place: usize,
)
    requires place { place ≤ length lits.old.items }
    requires distinct { HasDistinctVariables lits.old.items }
    requires room { (n : ℕ) × IsOver n lits.old.items × (2 * n ≤ length truths.old.items)
        × (n ≤ length phases.old.items) }
    requires agree { (l : Lit) → assigned truths.old.items (code l) ≡ contains lits.old.items l }
    ensures lits { lits.new.items ≡ take place lits.old.items }
    ensures agree { (l : Lit) → assigned truths.new.items (code l) ≡ contains lits.new.items l }
    ensures truths_len { length truths.new.items ≡ length truths.old.items }
    ensures phases_len { length phases.new.items ≡ length phases.old.items }
{
    while lits.len() > place {
        let lit = lits.pop().unwrap();
        phases[lit.variable()] = lit.is_positive();
        truths[lit.code()] = false;
    }
}
