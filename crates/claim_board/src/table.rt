//! The table of a board, with the one word that counts the draws.

ghost use Rattle.std.specs.Prelude.{◌≡◌};

use crate::entry::Task;
use crate::steps::Order;
use crate::view::View;
use atomic_table::Table;
use multiset_rank::ClaimPlan;
use std::alloc::Global;

/// A seat at a board's table.
pub(crate) type Seat = atomic_table::Seat<u8, View>;

/// The table of a board. Its one word counts the draws, and it has no slot.
#[derive(Drop)]
pub struct Words {
    pub(crate) table: Table<u8, View, Task, Order, Global>,
    pub(crate) plan: ClaimPlan,
    ghost one_word: { table.shared.table_id.words ≡ 1 },
    ghost planned: { plan ≡ table.shared.key.plan },
}
