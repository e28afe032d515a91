//! The limits on a file.

ghost use Rattle.std.specs.Prelude.{◌≡◌, ℕ};
ghost use Rattle.sexp_read.specs.Tree.{Tree};
ghost use Rattle.spec_reader.specs.Walk.{above, fault_at, count_fault, limit_fault, end_fault};
ghost use Rattle.isel_spec.specs.Spec.{file};
ghost use Rattle.spec_reader.specs.Parts.{parts_by};

use crate::fault::{SpecFault, SpecKind, Which, fault_at};
use crate::form::Parts;
use isel_spec::Spec;

/// A number above its limit, at a span.
pub(crate) fn above(which: Which, most: u64, found: u64, span: (usize, usize)) -> Option<SpecFault>
    ensures { result ≡ above which most found span }
{
    if found <= most {
        None
    } else {
        Some(fault_at(SpecKind::Limit { which, found }, span))
    }
}

/// One more operation or goal than there may be.
pub(crate) fn count_fault(spec: &Spec, parts: &Parts<'_>, span: (usize, usize)) -> Option<SpecFault>
    ensures { (tree : ℕ → Tree) → result ≡ count_fault (file spec.now) (parts_by tree parts.now) span }
{
    if parts.is_goal {
        above(Which::Goals, 256, spec.goals.len() as u64 + 1, span)
    } else {
        above(Which::Ops, 64, spec.ops.len() as u64 + 1, span)
    }
}

/// What is wrong with how much a definition has.
pub(crate) fn limit_fault(parts: &Parts<'_>, span: (usize, usize)) -> Option<SpecFault>
    ensures { (tree : ℕ → Tree) → result ≡ limit_fault (parts_by tree parts.now) span }
{
    if let Some(fault) = above(Which::Args, 4, parts.args.len() as u64, span) {
        return Some(fault);
    }
    if let Some(fault) = above(Which::Attrs, 2, parts.attrs.len() as u64, span) {
        return Some(fault);
    }
    if let Some(fault) = above(Which::Results, 3, parts.results.len() as u64, span) {
        return Some(fault);
    }
    above(Which::Cost, 65535, parts.cost, span)
}

/// No operation or no goal, told at the end of the text.
pub(crate) fn end_fault(spec: &Spec, end: usize) -> Option<SpecFault>
    ensures { result ≡ end_fault (file spec.now) end }
{
    if spec.ops.len() == 0 {
        return Some(fault_at(
            SpecKind::Limit {
                which: Which::Ops,
                found: 0,
            },
            (end, end),
        ));
    }
    if spec.goals.len() == 0 {
        return Some(fault_at(
            SpecKind::Limit {
                which: Which::Goals,
                found: 0,
            },
            (end, end),
        ));
    }
    None
}
