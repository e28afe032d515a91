//! The clauses that watch a literal, for each literal.

ghost use Rattle.std.specs.Prelude.{◌≡◌, ◌*◌, ◌+◌, ◌^◌, ◌<◌, ◌≤◌, ◌++◌, ◌∷◌, [], if◌then◌else◌, length, All, IfOk};
ghost use Rattle.std.specs.Prelude.{OnOk};
ghost use Rattle.cnf_core.specs.declared.clause.Lit.{Lit};
ghost use Rattle.cnf_core.specs.Clause.{same_lit};
ghost use Rattle.cdcl_base.specs.Codes.{code};
ghost use Rattle.cdcl_watch.specs.Lists.{clause_number, is_short, watchers};

use cdcl_base::PackedLit;
use std::alloc::{AllocError, Global};
use std::marker::Model;
use std::mem;

/// A clause in the list of a literal that it watches.
#[derive(Clone, Copy)]
pub(crate) struct Watcher {
    /// Twice the number of the clause, and one more for a clause of two literals.
    tag: u32,
    /// A literal of the clause; where it is true, there is nothing to be done. In a clause of two literals it is the
    /// other one.
    pub blocker: PackedLit,
}

impl Watcher {
    /// A watcher for the clause of a number.
    pub fn new(number: usize, short: bool, blocker: PackedLit) -> Watcher
        requires { number < 2 ^ 31 }
        ensures number { clause_number result ≡ number }
        ensures short { is_short result ≡ short }
        ensures blocker { result.blocker ≡ blocker }
    {
        let last = if short { 1 } else { 0 };
        Watcher {
            tag: 2 * number as u32 + last,
            blocker,
        }
    }

    /// The number of the clause.
    pub fn number(&self) -> usize
        ensures { result ≡ clause_number self.now }
    {
        (self.tag / 2) as usize
    }

    /// Whether the clause has two literals.
    pub fn is_short(&self) -> bool
        ensures { result ≡ is_short self.now }
    {
        self.tag % 2 == 1
    }

    /// The same with another blocker.
    pub fn with_blocker(&self, blocker: PackedLit) -> Watcher
        ensures { result ≡ record { tag = self.now.tag; blocker = blocker } }
    {
        Watcher {
            tag: self.tag,
            blocker,
        }
    }
}

/// A list of watchers for each literal.
#[derive(Drop)]
pub(crate) struct Lists {
    lists: Vec<Vec<Watcher>>,
}

impl Model for Lists {
    ghost use Rattle.std.specs.Prelude.{List, map};
    ghost use Rattle.cdcl_watch.specs.declared.lists.Watcher.{Watcher};

    ghost Value = { List (List Watcher) };

    ghost view = { λ l. map (λ v. v.items) l.lists.items };
}

impl Lists {
    /// No lists.
    pub fn new(alloc: Global) -> Lists
        ensures { result ≡ [] }
    {
        Lists {
            lists: Vec::new(alloc),
        }
    }

    /// Empties the lists, and makes as many as there are literals of so many variables. Their memory stays for later
    /// watchers.
    pub fn reset(&mut self, alloc: Global, variables: usize) -> Result<(), AllocError>
        requires { variables ≤ 2 ^ 31 }
        ensures length { OnOk result (length self.new ≡ 2 * variables) }
        ensures empty { OnOk result (All (λ ws. ws ≡ []) self.new) }
    {
        self.lists.truncate(2 * variables);
        empty_all(self.lists.as_mut_slice());
        fill(alloc, &mut self.lists, 2 * variables)
    }

    /// Adds a watcher to the list of a literal. The only error is out of memory.
    pub fn push(&mut self, lit: PackedLit, watcher: Watcher) -> Result<(), AllocError>
        requires { code lit < length self.old }
        ensures length { length self.new ≡ length self.old }
        ensures lists { OnOk result ((l : Lit) → watchers self.new l ≡
            (if same_lit l lit then watchers self.old l ++ watcher ∷ [] else watchers self.old l)) }
    {
        let place = lit.code();
        self.lists[place].push(watcher)?;
        Ok(())
    }

    /// Takes the list of a literal out.
    pub fn take(&mut self, alloc: Global, lit: PackedLit) -> Vec<Watcher>
        requires { code lit < length self.old }
        ensures length { length self.new ≡ length self.old }
        ensures list { result.items ≡ watchers self.old lit }
        ensures lists { (l : Lit) → watchers self.new l ≡ (if same_lit l lit then [] else watchers self.old l) }
    {
        let place = lit.code();
        mem::replace(&mut self.lists[place], Vec::new(alloc))
    }

    /// Puts a list in the place of the list of a literal.
    pub fn put(&mut self, lit: PackedLit, list: Vec<Watcher>)
        requires { code lit < length self.old }
        ensures length { length self.new ≡ length self.old }
        ensures lists { (l : Lit) → watchers self.new l ≡
            (if same_lit l lit then list.items else watchers self.old l) }
    {
        let place = lit.code();
        self.lists[place] = list;
    }
}

/// Empties each of the lists.
fn empty_all(lists: &mut [Vec<Watcher>])
    ensures length { length lists.new ≡ length lists.old }
    ensures empty { All (λ v. v.items ≡ []) lists.new }
{
    for list in lists.iter_mut() {
        list.clear();
    }
}

/// Adds empty lists up to a number of lists.
fn fill(alloc: Global, lists: &mut Vec<Vec<Watcher>>, count: usize) -> Result<(), AllocError>
    requires few { length lists.old.items ≤ count }
    requires empty { All (λ v. v.items ≡ []) lists.old.items }
    ensures length { OnOk result (length lists.new.items ≡ count) }
    ensures empty { OnOk result (All (λ v. v.items ≡ []) lists.new.items) }
{
    while lists.len() < count {
        lists.push(Vec::new(alloc))?;
    }
    Ok(())
}
