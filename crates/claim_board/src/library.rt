//! The claims with their entries, and the steps that are taken under the lock.

ghost use Rattle.std.specs.Prelude.{◌≡◌, ℕ, ◌+◌, ◌≤◌, List, [], ◌∷◌, ◌++◌, Option, All, length, vec_len};
ghost use mathlib.Core.List.{IsPrefix};
ghost use Rattle.multiset_rank.specs.Claims.{claims};
ghost use Rattle.claim_core.specs.Laws.{AreOnceBelow, numbers};
ghost use Rattle.claim_core.specs.Sizes.{told};
ghost use Rattle.claim_board.specs.Words.{named};
ghost use Rattle.claim_board.specs.Entries.{AreRight, AreLeast, AreTold};

use crate::entry::Entry;
use crate::name::Name;
use crate::pass::{Claim, Over, Pass};
use crate::table::{Seat, Words};
use claim_core::lesser;
use std::marker::{Brand, Model, PhantomData};

/// The claims that were entered, each with an entry that is right for it, in the order in which they came. Contracts
/// see these, and how many workers that are over were given in.
#[derive(Drop)]
pub struct Library<L: Name, E: Entry> {
    pub(crate) entries: Vec<(u64, E)>,
    pub(crate) sizes: Vec<Option<u8>>,
    pub(crate) seat: Seat,
    pub(crate) of: PhantomData<L>,
}

impl<L: Name, E: Entry> Model for Library<L, E> {
    ghost use Rattle.std.specs.Prelude.{◌≡◌, ◌≤◌, length, vec_capacity};
    ghost use Rattle.multiset_rank.specs.Claims.{claims};
    ghost use Rattle.claim_board.specs.Entries.{LibraryState, IsLibrary, ended_in};

    ghost Value = { LibraryState E };

    ghost view = { λ l. record { book = l.entries.items; ended = ended_in l.seat.me.0 } };

    ghost invariant = { λ l. (l.seat.table_id ≡ L.board.table)
        × IsLibrary L.board.task E.size (E.right L.board.task) l.seat.me l.entries.items l.sizes.items
        × (length (claims L.board.task.plan) ≤ vec_capacity l.entries) };
}

impl<L: Name, E: Entry> Library<L, E> {
    /// The claims with their entries, in the order in which they were entered.
    pub fn entries(&self) -> &[(u64, E)]
        ensures entries { result.now ≡ self.now.book }
        ensures right { AreRight (E.right L.board.task) result.now }
    {
        self.entries.as_slice()
    }

    /// Puts a claim with its entry, which is right for it, at the end of the book. The pass has seen this book.
    pub fn enter(&mut self, words: &Words, claim: Claim, entry: E) -> Pass
        requires words { named words.now ≡ L.board }
        requires claim { claim.table ≡ L.board.table }
        requires right { E.right L.board.task claim.number entry }
        ensures library { self.new ≡ record {
          book = self.old.book ++ (claim.number, entry) ∷ [];
          ended = self.old.ended;
        } }
        ensures pass { result ≡ record { table = L.board.table; seen = told E.size self.new.book } }
        ensures earlier { IsPrefix claim.seen result.seen }
    {
        let Claim { number, seat } = claim;
        let size = entry.least();
        words.enter::<Brand>(&mut self.seat, seat, size);
        words.compare::<L>(&mut self.seat);
        let goal = words.plan().claim(number).0 as usize;
        self.sizes[goal] = lesser(self.sizes[goal], size);
        self.entries.push_reserved((number, entry));
        Pass {
            seat: words.hand_out(&mut self.seat),
        }
    }

    /// Tells the least size of each goal.
    pub(crate) fn look(&mut self, words: &Words, pass: Pass, sizes: &mut [Option<u8>]) -> Pass
        requires words { named words.now ≡ L.board }
        requires pass { pass.table ≡ L.board.table }
        requires places { length sizes.old ≡ L.board.task.plan.goals }
        ensures library { self.new ≡ self.old }
        ensures pass { result ≡ record { table = L.board.table; seen = told E.size self.new.book } }
        ensures earlier { IsPrefix pass.seen result.seen }
        ensures least { AreLeast L.board.task.plan result.seen sizes.new }
        ensures told { AreTold L.board.task.plan E.size (E.right L.board.task) sizes.new }
    {
        let Pass { seat } = pass;
        words.give_in(&mut self.seat, seat);
        words.compare::<L>(&mut self.seat);
        sizes.copy_from_slice(self.sizes.as_slice());
        Pass {
            seat: words.hand_out(&mut self.seat),
        }
    }

    /// Takes in a worker that is over.
    pub(crate) fn end(&mut self, words: &Words, over: Over)
        requires words { named words.now ≡ L.board }
        requires over { over.table ≡ L.board.table }
        ensures { self.new ≡ record { book = self.old.book; ended = self.old.ended + 1 } }
    {
        let Over { read: _, seat } = over;
        words.end(&mut self.seat, seat);
    }

    /// Takes in workers that are over.
    pub(crate) fn end_all(&mut self, words: &Words, overs: Vec<Over>)
        requires words { named words.now ≡ L.board }
        requires overs { All (λ over. over.table ≡ L.board.table) overs.items }
        ensures { self.new ≡ record { book = self.old.book; ended = self.old.ended + vec_len overs } }
    {
        for over in overs {
            self.end(words, over);
        }
    }

    /// Compares the book with the word, once all workers are over.
    pub(crate) fn complete(&mut self, words: &Words)
        requires words { named words.now ≡ L.board }
        requires all { L.board.task.workers ≤ self.old.ended }
        ensures same { self.new ≡ self.old }
        ensures once { AreOnceBelow (length (claims L.board.task.plan)) (numbers self.new.book) }
    {
        words.compare::<L>(&mut self.seat);
    }
}
