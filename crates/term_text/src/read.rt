//! Terms that are read. Reading adds nodes to the table, and those that were there stay.

ghost use Rattle.std.specs.Prelude.{◌≡◌, ◌<◌, ◌≤◌, length, map, IfOk, IfErr, MatchResult};
ghost use Rattle.std.specs.List.{All};
ghost use Rattle.bv_terms.specs.Term.{Term};
ghost use Rattle.bv_terms.specs.Table.{term_at, Extends};
ghost use Rattle.sexp_read.specs.Forest.{IsReading, tree_at};
ghost use Rattle.term_text.specs.declared.fault.TermKind.TheVariants as kind;
ghost use Rattle.term_text.specs.Reading.{term_read};
ghost use Rattle.term_text.specs.Grammar.{IsTermOf};
ghost use Rattle.term_text.specs.Scope.{AreNamesIn, terms_under, IsRead};

use crate::fault::TermFault;
use crate::scope::Scope;
use crate::walk::Walk;
use bv_terms::{TermId, Terms};
use collections::NameMap;
use sexp_read::Forest;
use std::alloc::Global;

/// The term that an item of a text is, where these names stand for nodes of the table.
///
/// The first fault of the walk counts: the head of a list, then the arguments from left to right, then the number of
/// arguments, their sorts, the operator's own numbers, and the width of the result. After a fault the table keeps its
/// nodes, and may have more. A table that would have more than 2^22 nodes is out of memory.
pub fn read_term(
    alloc: Global,
    bytes: &[u8],
    forest: &Forest,
    item: usize,
    names: &NameMap<TermId>,
    terms: &mut Terms,
) -> Result<TermId, TermFault>
    requires reading { IsReading bytes.now forest.now }
    requires item_in { item < length forest.now.items }
    requires names { AreNamesIn terms.old names.now }
    // The term of the item's tree, or its first fault.
    ensures read { IsRead terms.new (term_read terms.old.pointer (terms_under terms.old names.now)
        (tree_at bytes.now forest.now.items item)) result }
    ensures extends { Extends terms.old terms.new }

    // By the grammar: what is read is a term of the tree, and a term of the tree is read, unless memory runs out.
    ensures grammar { IfOk result (λ at. IsTermOf terms.old.pointer (terms_under terms.old names.now)
        (tree_at bytes.now forest.now.items item) (term_at terms.new at)) }
    ensures every_term { (t : Term) → IsTermOf terms.old.pointer (terms_under terms.old names.now)
        (tree_at bytes.now forest.now.items item) t
        → MatchResult result (λ at. term_at terms.new at ≡ t) (λ fault. fault.kind ≡ kind.NoMemory) }
{
    let mut scope = Scope {
        outer: names,
        bound: Vec::new(alloc),
    };
    let walk = Walk { bytes, forest };
    walk.term(alloc, item, &mut scope, terms)
}
