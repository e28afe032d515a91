//! The test of a new clause: one that is no tautology and is not subsumed by an earlier clause. It goes over every
//! literal of every earlier clause and takes no memory.

ghost use Rattle.std.specs.Prelude.{◌≡◌, ◌↔◌, IsTrue};
ghost use Rattle.cnf_core.specs.Clause.{same_lit, contains, is_subset, is_tautology, is_subsumed};
ghost use Rattle.cnf_core.specs.Resolution.{IsNewClause};

use crate::clause::{Clause, Lit};

/// Whether a clause says something new beside earlier ones: no two of its literals are opposite, and none of the
/// earlier clauses is a subset of it.
///
/// This is the plain program of that definition, for tests and audits.
pub fn is_new_clause(earlier: &[Clause], clause: &Clause) -> bool
    ensures { IsTrue result ↔ IsNewClause earlier.now clause.now.lits }
{
    let lits = clause.lits.as_slice();
    !is_tautology(lits) && !is_subsumed(earlier, lits)
}

/// Whether two of the literals are opposite.
fn is_tautology(lits: &[Lit]) -> bool
    ensures { result ≡ is_tautology lits.now }
{
    for lit in lits {
        if contains(lits, lit.opposite()) {
            return true;
        }
    }
    false
}

/// Whether one of the clauses is a subset of these literals.
fn is_subsumed(clauses: &[Clause], lits: &[Lit]) -> bool
    ensures { result ≡ is_subsumed clauses.now lits.now }
{
    for clause in clauses {
        if is_subset(clause.lits.as_slice(), lits) {
            return true;
        }
    }
    false
}

/// Whether the whole contains each literal of the part.
fn is_subset(part: &[Lit], whole: &[Lit]) -> bool
    ensures { result ≡ is_subset part.now whole.now }
{
    for lit in part {
        if !contains(whole, *lit) {
            return false;
        }
    }
    true
}

/// Whether a literal is among these.
fn contains(lits: &[Lit], lit: Lit) -> bool
    ensures { result ≡ contains lits.now lit }
{
    for other in lits {
        if is_same(lit, *other) {
            return true;
        }
    }
    false
}

/// Whether two literals are equal.
fn is_same(left: Lit, right: Lit) -> bool
    ensures { result ≡ same_lit left right }
{
    left == right
}
