//! Decisions: a variable without a value and with the highest score, with the sign that it had last. A score counts the
//! conflicts in which its variable had a part, late ones more; there is one for each variable.

ghost use Rattle.std.specs.Prelude.{◌≡◌, ℕ, ◌-◌, ◌/◌, ◌^◌, ◌<◌, ◌≤◌, ◌⊎◌, ◌++◌, All, Some, IfSome, IfNone};
ghost use Rattle.std.specs.Prelude.{IfOk, OnOk, OnErr, length, replicate};
ghost use Rattle.cdcl_base.specs.Trail.{IsUnassigned, AreAllAssigned};
ghost use Rattle.cdcl_base.specs.Scores.{score, bumped, bumped_all, grown, IsHighest};

use crate::literal::PackedLit;
use crate::trail::Trail;
use cnf_core::Lit;
use std::alloc::{AllocError, Global};
use std::marker::Model;

/// A step that is greater scales the scores down.
const LARGEST: u64 = 1 << 40;

/// The divisor of scores that are scaled down.
const SCALE: u64 = 1 << 30;

/// A score for each variable.
#[derive(Drop)]
pub struct Scores {
    activity: Vec<u64>,
    /// What the next conflict adds.
    step: u64,
}

impl Model for Scores {
    ghost use Rattle.cdcl_base.specs.Scores.{Scores};

    ghost Value = { Scores };

    ghost view = { λ s. record { scores = s.activity.items; step = s.step } };
}

impl Scores {
    /// The score 0 for each variable.
    pub fn new(alloc: Global, variables: usize) -> Result<Scores, AllocError>
        ensures { IfOk result (λ s. length s.scores ≡ variables) }
    {
        let activity = vec![in alloc; 0; variables]?;
        Ok(Scores {
            activity,
            step: 1024,
        })
    }

    /// Gives new variables the score 0, up to a number of variables. The only error is out of memory; it changes
    /// nothing.
    pub fn grow(&mut self, variables: usize) -> Result<(), AllocError>
        requires { length self.old.scores ≤ variables }
        ensures ok { OnOk result (self.new ≡ record {
          scores = self.old.scores ++ replicate (variables - length self.old.scores) 0;
          step = self.old.step;
        }) }
        ensures err { OnErr result (self.new ≡ self.old) }
    {
        self.activity.resize(variables, 0)
    }

    /// Raises the score of a variable by a step.
    pub fn bump(&mut self, variable: usize)
        requires { variable < length self.old.scores }
        ensures { self.new ≡ bumped self.old variable }
    {
        self.activity[variable] = self.activity[variable].saturating_add(self.step);
    }

    /// Raises the score of each of the variables by a step.
    pub fn bump_all(&mut self, variables: &[usize])
        requires { All (λ x. x < length self.old.scores) variables.now }
        ensures scores { self.new ≡ bumped_all self.old variables.now }
        ensures length { length self.new.scores ≡ length self.old.scores }
    {
        for variable in variables {
            self.bump(*variable);
        }
    }

    /// The number of variables.
    pub fn variables(&self) -> usize
        ensures { result ≡ length self.now.scores }
    {
        self.activity.len()
    }

    /// The score of a variable.
    pub fn score(&self, variable: usize) -> u64
        requires { variable < length self.now.scores }
        ensures { result ≡ score self.now.scores variable }
    {
        self.activity[variable]
    }

    /// Makes later bumps count more than those so far. Once the step is large, all scores are scaled down.
    pub fn decay(&mut self)
        ensures length { length self.new.scores ≡ length self.old.scores }
        ensures small { grown self.old.step ≤ 2 ^ 40 →
            self.new ≡ record { scores = self.old.scores; step = grown self.old.step } }
        ensures large { 2 ^ 40 < grown self.old.step → (x : ℕ) → x < length self.old.scores →
            score self.new.scores x ≡ score self.old.scores x / 2 ^ 30 }
        ensures step { 2 ^ 40 < grown self.old.step → self.new.step ≡ grown self.old.step / 2 ^ 30 }
    {
        self.step = self.step.saturating_add(self.step / 16);
        if self.step > LARGEST {
            scale_down(self.activity.as_mut_slice());
            self.step /= SCALE;
        }
    }

    /// A literal without a value, of a variable with the highest score and with the sign that it had last; none where
    /// each variable has a value.
    pub fn pick(&self, trail: &Trail) -> Option<PackedLit>
        requires { length self.now.scores ≡ trail.now.variables }
        ensures there { IfSome result (λ l. l.variable < trail.now.variables) }
        ensures unassigned { IfSome result (λ l. IsUnassigned trail.now.lits l) }
        ensures highest { IfSome result (IsHighest self.now.scores trail.now.lits trail.now.variables) }
        ensures none { IfNone result (AreAllAssigned trail.now) }
    {
        let scores = self.activity.as_slice();
        let mut best = None;
        for variable in 0..trail.variables() {
            if trail.value(variable).is_none() {
                let lit = Lit {
                    variable,
                    positive: trail.phase(variable),
                };
                best = Some(better(scores, best, lit));
            }
        }
        match best {
            Some(lit) => Some(PackedLit::new(lit)),
            None => None,
        }
    }
}

/// The literal of the two whose variable has the higher score; of equals, the first.
fn better(scores: &[u64], best: Option<Lit>, lit: Lit) -> Lit
    requires best { IfSome best (λ l. l.variable < length scores.now) }
    requires lit { lit.variable < length scores.now }
    ensures one { (result ≡ lit) ⊎ (best ≡ Some result) }
    ensures high { score scores.now lit.variable ≤ score scores.now result.variable }
    ensures higher { IfSome best (λ l. score scores.now l.variable ≤ score scores.now result.variable) }
{
    match best {
        Some(first) => if scores[first.variable] < scores[lit.variable] {
            lit
        } else {
            first
        },
        None => lit,
    }
}

/// Scales all scores down.
fn scale_down(scores: &mut [u64])
    ensures length { length scores.new ≡ length scores.old }
    ensures scaled { (x : ℕ) → x < length scores.old → score scores.new x ≡ score scores.old x / 2 ^ 30 }
{
    for score in scores.iter_mut() {
        *score /= SCALE;
    }
}
