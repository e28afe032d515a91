//! Nodes of a table whose operation may stand over their arguments, so that nothing but want of memory is in the way.

ghost use Rattle.std.specs.Prelude.{◌≡◌};
ghost use Rattle.term_text.specs.Written.{applied};
ghost use Rattle.term_text.specs.Build.{AreNodes, terms_at, IsWellSorted, Builds};

use bv_terms::{Op, TermId, Terms};
use std::alloc::AllocError;

/// The node of an operation over nodes over which it may stand. An `Err` is out of memory, also that of a table with as
/// many nodes as it may have.
pub(crate) fn make_fitting(terms: &mut Terms, op: Op, args: &[TermId]) -> Result<TermId, AllocError>
    requires nodes { AreNodes terms.old args.now }
    requires sorted { IsWellSorted terms.old (applied op (terms_at terms.old args.now)) }
    ensures { Builds terms.old terms.new result (applied op (terms_at terms.old args.now)) }
{
    match terms.make(op, args) {
        Ok(made) => Ok(made),
        Err(_) => Err(AllocError),
    }
}
