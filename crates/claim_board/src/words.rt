//! The steps at the table of a board.

ghost use Rattle.std.specs.Prelude.{◌≡◌, ℕ, ◌+◌, ◌<◌, ◌≤◌, List, [], Option, IfOk, length};
ghost use Rattle.multiset_rank.specs.Claims.{claims};
ghost use Rattle.claim_board.specs.declared.view.Ledger.{Ledger};
ghost use Rattle.claim_board.specs.declared.view.View.TheVariants.{Idle, Claim, Over, Book};
ghost use Rattle.claim_board.specs.Steps.{empty_ledger, after_draw, after_enter, after_end, after_give_in};
ghost use Rattle.claim_board.specs.Steps.{after_hand_out, handed_out, IsCompared};
ghost use Rattle.claim_board.specs.Words.{named};

use crate::entry::Task;
use crate::name::Name;
use crate::steps::{Compare, Draw, End, Enter, GiveIn, HandOut, Telling};
use crate::table::{Seat, Words};
use atomic_table::Table;
use multiset_rank::ClaimPlan;
use std::alloc::{AllocError, Global};

impl Words {
    /// A table on which nothing was drawn, with the library's seat. An `Err` is out of memory.
    pub(crate) fn new(alloc: Global, task: &Task) -> Result<(Words, Seat), AllocError>
        requires some { 1 ≤ task.now.workers }
        requires most { task.now.workers ≤ 64 }
        ensures task { IfOk result (λ made. (named made.0).task ≡ task.now) }
        ensures seat { IfOk result (λ made. made.1.table_id ≡ (named made.0).table) }
        ensures view { IfOk result (λ made. made.1.me ≡ (Book (empty_ledger task.now.workers), [])) }
    {
        let plan = task.plan;
        let _claims = plan.claims();
        let (table, seat) = Table::of_words(alloc, &[0], task)?;
        Ok((Words { table, plan }, seat))
    }

    /// The plan of the claims.
    pub(crate) fn plan(&self) -> ClaimPlan
        ensures { result ≡ (named self.now).task.plan }
    {
        self.plan
    }

    /// Step 1. It answers how many draws there were before.
    pub(crate) fn draw<L: Name>(&self, seat: &mut Seat) -> u64
        requires name { named self.now ≡ L.board }
        requires table { seat.old.table_id ≡ L.board.table }
        requires idle { (seen : List (ℕ × Option ℕ)) × (seat.old.me ≡ (Idle seen, [])) }
        ensures table { seat.new.table_id ≡ seat.old.table_id }
        ensures drawn { seat.new.me ≡ (after_draw (length (claims L.board.task.plan)) result seat.old.me.0, []) }
    {
        self.table.shared.fetch_add::<Draw<L>>(seat, 0, 1)
    }

    /// Step 2.
    pub(crate) fn enter<T: Telling>(&self, keeper: &mut Seat, claim: Seat, size: Option<u8>)
        requires size { size ≡ T.size }
        requires table { keeper.old.table_id ≡ (named self.now).table }
        requires same { claim.table_id ≡ (named self.now).table }
        requires keeper { (ledger : Ledger) × (keeper.old.me ≡ (Book ledger, [])) }
        requires claim { (number : ℕ) × (seen : List (ℕ × Option ℕ)) × (claim.me ≡ (Claim number seen, [])) }
        ensures table { keeper.new.table_id ≡ keeper.old.table_id }
        ensures entered { keeper.new.me ≡ (after_enter size keeper.old.me.0 claim.me.0, []) }
    {
        self.table.shared.join_seat::<Enter<T>>(keeper, claim);
    }

    /// Step 3.
    pub(crate) fn end(&self, keeper: &mut Seat, over: Seat)
        requires table { keeper.old.table_id ≡ (named self.now).table }
        requires same { over.table_id ≡ (named self.now).table }
        requires keeper { (ledger : Ledger) × (keeper.old.me ≡ (Book ledger, [])) }
        requires over { (read : ℕ) × (seen : List (ℕ × Option ℕ)) × (over.me ≡ (Over read seen, [])) }
        ensures table { keeper.new.table_id ≡ keeper.old.table_id }
        ensures ended { keeper.new.me ≡ (after_end keeper.old.me.0 over.me.0, []) }
    {
        self.table.shared.join_seat::<End>(keeper, over);
    }

    /// Step 4.
    pub(crate) fn give_in(&self, keeper: &mut Seat, idle: Seat)
        requires table { keeper.old.table_id ≡ (named self.now).table }
        requires same { idle.table_id ≡ (named self.now).table }
        requires keeper { (ledger : Ledger) × (keeper.old.me ≡ (Book ledger, [])) }
        requires idle { (seen : List (ℕ × Option ℕ)) × (idle.me ≡ (Idle seen, [])) }
        ensures table { keeper.new.table_id ≡ keeper.old.table_id }
        ensures given { keeper.new.me ≡ (after_give_in keeper.old.me.0 idle.me.0, []) }
    {
        self.table.shared.join_seat::<GiveIn>(keeper, idle);
    }

    /// Step 5.
    pub(crate) fn hand_out(&self, keeper: &mut Seat) -> Seat
        requires table { keeper.old.table_id ≡ (named self.now).table }
        requires free { (ledger : Ledger) × (keeper.old.me ≡ (Book ledger, [])) × (0 < ledger.free) }
        ensures table { (keeper.new.table_id ≡ keeper.old.table_id) × (result.table_id ≡ keeper.old.table_id) }
        ensures keeper { keeper.new.me ≡ (after_hand_out keeper.old.me.0, []) }
        ensures given { result.me ≡ (handed_out keeper.old.me.0, []) }
    {
        self.table.shared.split_seat::<HandOut>(keeper)
    }

    /// Step 6.
    pub(crate) fn compare<L: Name>(&self, keeper: &mut Seat)
        requires name { named self.now ≡ L.board }
        requires table { keeper.old.table_id ≡ L.board.table }
        requires keeper { (ledger : Ledger) × (keeper.old.me ≡ (Book ledger, [])) }
        ensures table { keeper.new.table_id ≡ keeper.old.table_id }
        ensures same { keeper.new.me ≡ keeper.old.me }
        ensures learned { (ledger : Ledger) → keeper.old.me.0 ≡ Book ledger
            → IsCompared (length (claims L.board.task.plan)) L.board.task.workers ledger }
    {
        self.table.shared.load::<Compare<L>>(keeper, 0);
    }
}
