//! The head of a file.

ghost use Rattle.std.specs.Prelude.{◌≡◌, ◌<◌, ◌≤◌, length, IfOk};
ghost use Rattle.sexp_read.specs.Forest.{IsReading, tree_at};
ghost use Rattle.spec_reader.specs.Walk.{head_read};

use crate::fault::{SpecFault, SpecKind, Which, fault_at};
use crate::form::head_in;
use sexp_read::Forest;

/// The width of a pointer, by the head of a file.
pub(crate) fn head_read(bytes: &[u8], forest: &Forest, item: usize) -> Result<u8, SpecFault>
    requires reading { IsReading bytes.now forest.now }
    requires item_in { item < length forest.now.items }
    ensures read { result ≡ head_read (tree_at bytes.now forest.now.items item) }
    ensures bounded { IfOk result (λ width. (1 ≤ width) × (width ≤ 64)) }
{
    let Some((pointer, width)) = head_in(bytes, forest, item) else {
        return Err(fault_at(SpecKind::Head, forest.span(item)));
    };
    if 1 <= width && width <= 64 {
        return Ok(width as u8);
    }
    let limit = SpecKind::Limit {
        which: Which::Pointer,
        found: width,
    };
    Err(fault_at(limit, forest.span(pointer)))
}
