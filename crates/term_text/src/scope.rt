//! The names that a term may use: those that the caller gives, and those that each `let` around it binds.

ghost use Rattle.std.specs.Prelude.{◌≡◌, ◌<◌, length, reverse, IfSome, option_map};
ghost use Rattle.std.specs.List.{flat_map};
ghost use Rattle.collections.specs.Named.{named};
ghost use Rattle.bv_terms.specs.Table.{Table, term_at};
ghost use Rattle.term_text.specs.Reading.{in_scope};
ghost use Rattle.term_text.specs.Scope.{scope_of, AreIn};

use bv_terms::TermId;
use collections::NameMap;
use sexp_read::name;

/// The names in scope, each with a node: those of the `let`s that are open, the innermost last, before the others.
#[derive(Drop)]
pub(crate) struct Scope<'a> {
    pub(crate) outer: &'a NameMap<TermId>,
    pub(crate) bound: Vec<NameMap<TermId>>,
}

impl Scope<'_> {
    /// The node of the name that a word is.
    pub(crate) fn find(&self, word: &[u8]) -> Option<TermId>
        ensures value { (table : Table) → option_map (term_at table) result
            ≡ in_scope (scope_of table self.now) word.now }
        ensures within { (table : Table) → AreIn table self.now → IfSome result (λ at. at.0 < length table.nodes) }
    {
        let name = name(word)?;
        match innermost(self.bound.as_slice(), name) {
            Some(at) => Some(at),
            None => self.outer.find(name).copied(),
        }
    }
}

/// The node of a name that is bound, by the innermost `let` that binds it.
fn innermost(bound: &[NameMap<TermId>], name: &str) -> Option<TermId>
    ensures { result ≡ named (flat_map (λ names. names) (reverse bound.now)) name.now }
{
    for place in (0..bound.len()).rev() {
        if let Some(at) = bound[place].find(name) {
            return Some(*at);
        }
    }
    None
}
