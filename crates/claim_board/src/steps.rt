//! The rule of a board's table, and what each step at it tells, as `specs/Rule` and `specs/Steps` say.

ghost use Rattle.std.specs.Prelude.{◌≡◌, ℕ, Option, length};
ghost use Rattle.multiset_rank.specs.Claims.{claims};
ghost use Rattle.claim_board.specs.declared.view.View.TheVariants.{Joined, Book};
ghost use Rattle.claim_board.specs.Rule.{IsKept};
ghost use Rattle.claim_board.specs.Steps.{empty_ledger, after_draw, after_enter, after_end, after_give_in};
ghost use Rattle.claim_board.specs.Steps.{after_hand_out, handed_out, Compares};

use crate::entry::Task;
use crate::name::Name;
use crate::view::View;
use atomic_table::{Join, Play, Split, TableRule};
use std::marker::{Brand, PhantomData};

/// The rule.
pub struct Order;

impl TableRule<u8, View, Task> for Order {
    ghost holds = { λ task. IsKept (length (claims task.plan)) task.workers };

    ghost first = { λ task. Book (empty_ledger task.workers) };
}

/// Step 1: a draw.
pub(crate) struct Draw<L: Name> {
    of: PhantomData<L>,
}

impl<L: Name> Play<u8, View> for Draw<L> {
    ghost then = { λ step before read after.
        after ≡ (after_draw (length (claims L.board.task.plan)) read before.0, before.1) };
}

/// What the entry tells that a call enters. Each call picks it.
pub(crate) trait Telling {
    ghost size: { Option ℕ };
}

impl Telling for Brand {
    ghost use Rattle.std.specs.Prelude.{None};

    ghost size = { None };
}

/// Step 2: a claim is entered.
pub(crate) struct Enter<T: Telling> {
    of: PhantomData<T>,
}

impl<T: Telling> Join<View> for Enter<T> {
    ghost both = { after_enter T.size };

    ghost spent = { Joined };
}

/// Step 3: a worker that is over is given in.
pub(crate) struct End;

impl Join<View> for End {
    ghost both = { after_end };

    ghost spent = { Joined };
}

/// Step 4: a worker that is idle is given in.
pub(crate) struct GiveIn;

impl Join<View> for GiveIn {
    ghost both = { after_give_in };

    ghost spent = { Joined };
}

/// Step 5: a worker is handed out.
pub(crate) struct HandOut;

impl Split<View> for HandOut {
    ghost left = { after_hand_out };

    ghost right = { handed_out };
}

/// Step 6: what was given in last is compared with the book.
pub(crate) struct Compare<L: Name> {
    of: PhantomData<L>,
}

impl<L: Name> Play<u8, View> for Compare<L> {
    ghost then = { λ step before read after.
        Compares (length (claims L.board.task.plan)) L.board.task.workers before after };
}
