//! A set of literals over n variables, as marks beside the list of what was marked: each marked literal is in the list.

ghost use Rattle.std.specs.Prelude.{◌≡◌, ◌<◌, ◌&&◌, ◌||◌, ℕ, true, false, not, length, [], IfOk, OnOk};
ghost use Rattle.cnf_core.specs.declared.clause.Lit.{Lit};
ghost use Rattle.cnf_core.specs.Clause.{same_lit, contains, AreSame, IsOver};
ghost use Rattle.proof_check.specs.Marks.{is_marked, KeepsMarks};
ghost use Rattle.proof_check.specs.LitSet.{AreDistinct};

use crate::marks::Marks;
use cnf_core::{Clause, Lit};
use collections::Seq;
use std::alloc::{AllocError, Global};
use std::marker::Model;

/// A set of literals over n variables. Contracts see it as n and a clause, of which only counts what literals it
/// contains.
#[derive(Drop)]
pub(crate) struct LitSet {
    variables: usize,
    marks: Marks,
    /// Contains each marked literal, so clearing costs what was added and not the number of variables. A literal is
    /// added at most once more than it was removed.
    added: Vec<Lit>,
}

impl Model for LitSet {
    ghost use Rattle.proof_check.specs.LitSet.{Literals};

    ghost Value = { Literals };

    ghost use Rattle.proof_check.specs.LitSet.{literals_of, IsLitSet};

    ghost view = { λ s. literals_of s.variables s.marks s.added.items };

    ghost invariant = { λ s. IsLitSet s.variables s.marks s.added.items };
}

impl LitSet {
    /// The empty set.
    pub(crate) fn new(alloc: Global, variables: usize) -> Result<LitSet, AllocError>
        ensures { IfOk result (λ s. s ≡ record { variables = variables; lits = [] }) }
    {
        let marks = Marks::new(alloc, variables)?;
        Ok(LitSet {
            variables,
            marks,
            added: Vec::new(alloc),
        })
    }

    /// Adds a literal.
    pub(crate) fn insert(&mut self, lit: Lit) -> Result<(), AllocError>
        requires { lit.variable < self.old.variables }
        ensures variables { self.new.variables ≡ self.old.variables }
        ensures lits { OnOk result ((l : Lit) →
            contains self.new.lits l ≡ (same_lit lit l || contains self.old.lits l)) }
    {
        if self.marks.is_marked(lit) {
            return Ok(());
        }
        self.added.push(lit)?;
        self.marks.set(lit, true);
        Ok(())
    }

    /// Removes a literal, and returns whether the set contained it.
    pub(crate) fn remove(&mut self, lit: Lit) -> bool
        ensures variables { self.new.variables ≡ self.old.variables }
        ensures stood { result ≡ contains self.old.lits lit }
        ensures lits { (l : Lit) → contains self.new.lits l ≡ (not (same_lit lit l) && contains self.old.lits l) }
    {
        if !self.marks.is_marked(lit) {
            return false;
        }
        self.marks.set(lit, false);
        true
    }

    /// Empties the set into a clause without repeats.
    pub(crate) fn take(&mut self, alloc: Global) -> Result<Clause, AllocError>
        ensures variables { self.new.variables ≡ self.old.variables }
        ensures lits { IfOk result (λ c. AreSame c.lits self.old.lits) }
        ensures over { IfOk result (λ c. IsOver self.old.variables c.lits) }
        ensures distinct { IfOk result (λ c. AreDistinct c.lits) }
        ensures empty { OnOk result (self.new.lits ≡ []) }
    {
        let mut lits = Seq::new(alloc);
        unmark(&mut self.marks, self.added.as_slice(), &mut lits)?;
        self.added.clear();
        Ok(Clause { lits })
    }
}

/// Clears the marks of these literals, and adds each one that was marked to a list.
fn unmark(marks: &mut Marks, added: &[Lit], lits: &mut Seq<Lit>) -> Result<(), AllocError>
    requires same { length marks.old.positive.items ≡ length marks.old.negative.items }
    requires empty { lits.old ≡ [] }
    requires listed { (l : Lit) → is_marked marks.old l ≡ true → contains added.now l ≡ true }
    ensures kept { KeepsMarks marks.old marks.new }
    ensures distinct { AreDistinct lits.new }
    ensures lits { OnOk result ((l : Lit) → contains lits.new l ≡ is_marked marks.old l) }
    ensures unmarked { OnOk result ((l : Lit) → is_marked marks.new l ≡ false) }
{
    for lit in added {
        if marks.is_marked(*lit) {
            lits.push(*lit)?;
            marks.set(*lit, false);
        }
    }
    Ok(())
}
