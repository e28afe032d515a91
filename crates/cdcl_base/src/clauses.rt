//! Clauses in one array of literals, as a solver goes over them.

ghost use Rattle.std.specs.Prelude.{◌≡◌, ◌-◌, ◌^◌, ◌<◌, ◌≤◌, ◌++◌, ◌∷◌, [], length, slice_get, take, drop, Some};
ghost use Rattle.std.specs.Prelude.{OnOk, OnErr};
ghost use Rattle.cnf_core.specs.Clause.{IsOver};
ghost use Rattle.cnf_core.specs.Resolution.{clause};
ghost use Rattle.cdcl_base.specs.ClauseLists.{start_of};

use crate::literal::PackedLit;
use cnf_core::Lit;
use std::alloc::{AllocError, Global};
use std::marker::Model;

/// Clauses, by their numbers from 0. Contracts see them as a list.
#[derive(Drop)]
pub struct Clauses {
    lits: Vec<PackedLit>,
    /// For each clause the place after its last literal.
    ends: Vec<usize>,
}

impl Model for Clauses {
    ghost use Rattle.std.specs.Prelude.{List, length};
    ghost use Rattle.cnf_core.specs.declared.clause.Clause.{Clause};
    ghost use Rattle.cdcl_base.specs.ClauseLists.{clauses_of, AreEnds};

    ghost Value = { List Clause };

    ghost view = { λ c. clauses_of c.lits.items 0 c.ends.items };

    ghost invariant = { λ c. AreEnds 0 c.ends.items (length c.lits.items) };
}

impl Clauses {
    /// No clauses.
    pub fn new(alloc: Global) -> Clauses
        ensures { result ≡ [] }
    {
        Clauses {
            lits: Vec::new(alloc),
            ends: Vec::new(alloc),
        }
    }

    /// The number of clauses.
    pub fn len(&self) -> usize
        ensures { result ≡ length self.now }
    {
        self.ends.len()
    }

    /// The literals of the clause of a number.
    pub fn lits(&self, number: usize) -> &[PackedLit]
        requires { number < length self.now }
        ensures { slice_get self.now number ≡ Some (clause result.now) }
    {
        let start = start_of(self.ends.as_slice(), number);
        part(self.lits.as_slice(), start, self.ends[number])
    }

    /// Adds a clause at the end. The only error is out of memory; it leaves the clauses as they were.
    pub fn push(&mut self, lits: &[PackedLit]) -> Result<(), AllocError>
        ensures ok { OnOk result (self.new ≡ self.old ++ clause lits.now ∷ []) }
        ensures err { OnErr result (self.new ≡ self.old) }
    {
        push_lits(&mut self.lits, &mut self.ends, lits)?;
        Ok(())
    }

    /// Adds a clause of unpacked literals at the end. The only error is out of memory; it leaves the clauses as they
    /// were.
    pub fn push_unpacked(&mut self, lits: &[Lit]) -> Result<(), AllocError>
        requires { IsOver (2 ^ 31) lits.now }
        ensures ok { OnOk result (self.new ≡ self.old ++ clause lits.now ∷ []) }
        ensures err { OnErr result (self.new ≡ self.old) }
    {
        push_unpacked_lits(&mut self.lits, &mut self.ends, lits)?;
        Ok(())
    }

    /// Removes the clauses from a number on.
    pub fn truncate(&mut self, count: usize)
        ensures { self.new ≡ take count self.old }
    {
        if count < self.ends.len() {
            let start = start_of(self.ends.as_slice(), count);
            self.lits.truncate(start);
            self.ends.truncate(count);
        }
    }

    /// Removes all clauses. Their memory stays for later ones.
    pub fn clear(&mut self)
        ensures { self.new ≡ [] }
    {
        self.lits.clear();
        self.ends.clear();
    }
}

/// The literals between two places.
fn part(lits: &[PackedLit], start: usize, end: usize) -> &[PackedLit]
    requires start { start ≤ end }
    requires end { end ≤ length lits.now }
    ensures { result.now ≡ take (end - start) (drop start lits.now) }
{
    &lits[start..end]
}

/// The place of the first literal of a clause, by the places after the last ones.
fn start_of(ends: &[usize], number: usize) -> usize
    requires { number ≤ length ends.now }
    ensures { result ≡ start_of 0 ends.now number }
{
    if number == 0 { 0 } else { ends[number - 1] }
}

/// Adds literals and the place after them. An error leaves both lists as they were.
fn push_lits(
    lits: &mut Vec<PackedLit>,
    ends: &mut Vec<usize>,
    added: &[PackedLit],
) -> Result<(), AllocError>
    ensures lits { OnOk result (lits.new.items ≡ lits.old.items ++ added.now) }
    ensures ends { OnOk result (ends.new.items ≡ ends.old.items ++ length lits.new.items ∷ []) }
    ensures err_lits { OnErr result (lits.new.items ≡ lits.old.items) }
    ensures err_ends { OnErr result (ends.new.items ≡ ends.old.items) }
{
    let start = lits.len();
    if lits.extend_from_slice(added).is_err() {
        return Err(AllocError);
    }
    if ends.push(lits.len()).is_err() {
        lits.truncate(start);
        return Err(AllocError);
    }
    Ok(())
}

/// Adds the packed forms of literals. An error leaves the list as a front of what it is then.
fn pack_lits(lits: &mut Vec<PackedLit>, added: &[Lit]) -> Result<(), AllocError>
    requires { IsOver (2 ^ 31) added.now }
    ensures ok { OnOk result (lits.new.items ≡ lits.old.items ++ added.now) }
    ensures front { take (length lits.old.items) lits.new.items ≡ lits.old.items }
{
    for lit in added {
        lits.push(PackedLit::new(*lit))?;
    }
    Ok(())
}

/// Adds unpacked literals and the place after them. An error leaves both lists as they were.
fn push_unpacked_lits(
    lits: &mut Vec<PackedLit>,
    ends: &mut Vec<usize>,
    added: &[Lit],
) -> Result<(), AllocError>
    requires { IsOver (2 ^ 31) added.now }
    ensures lits { OnOk result (lits.new.items ≡ lits.old.items ++ added.now) }
    ensures ends { OnOk result (ends.new.items ≡ ends.old.items ++ length lits.new.items ∷ []) }
    ensures err_lits { OnErr result (lits.new.items ≡ lits.old.items) }
    ensures err_ends { OnErr result (ends.new.items ≡ ends.old.items) }
{
    let start = lits.len();
    if pack_lits(lits, added).is_err() {
        lits.truncate(start);
        return Err(AllocError);
    }
    if ends.push(lits.len()).is_err() {
        lits.truncate(start);
        return Err(AllocError);
    }
    Ok(())
}
