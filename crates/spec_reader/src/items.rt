//! What items define, added to the file so far in order.

ghost use Rattle.std.specs.Prelude.{◌≡◌, ◌<◌, ◌⊎◌, Ok, Err, length, map, MatchResult};
ghost use Rattle.std.specs.List.{All};
ghost use Rattle.sexp_read.specs.Forest.{IsReading, tree_at};
ghost use Rattle.isel_spec.specs.Spec.{file};
ghost use Rattle.spec_reader.specs.declared.fault.SpecKind.TheVariants.{NoMemory};
ghost use Rattle.spec_reader.specs.Walk.{items_read};

use crate::fault::SpecFault;
use crate::item::item_read;
use isel_spec::Spec;
use sexp_read::Forest;
use std::alloc::Global;

/// The file with what these items define.
pub(crate) fn items_read(
    alloc: Global,
    bytes: &[u8],
    forest: &Forest,
    items: &[usize],
    spec: Spec,
) -> Result<Spec, SpecFault>
    requires reading { IsReading bytes.now forest.now }
    requires items_in { All (λ item. item < length forest.now.items) items.now }
    ensures { MatchResult result
        (λ more. items_read (file spec) (map (tree_at bytes.now forest.now.items) items.now) ≡ Ok (file more))
        (λ fault. (fault.kind ≡ NoMemory)
        ⊎ (items_read (file spec) (map (tree_at bytes.now forest.now.items) items.now) ≡ Err fault)) }
{
    let mut so_far = spec;
    for item in items {
        match item_read(alloc, bytes, forest, *item, so_far) {
            Ok(more) => so_far = more,
            Err(fault) => return Err(fault),
        }
    }
    Ok(so_far)
}
