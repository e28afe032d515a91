//! The board that threads share, and the blank from which it is opened.

ghost use Rattle.std.specs.Prelude.{◌≡◌, ℕ, ◌+◌, ◌≤◌, List, [], ◌∷◌, ◌++◌, Option, IfOk, All, length, replicate};
ghost use Rattle.std.specs.Prelude.{vec_len, vec_capacity};
ghost use mathlib.Core.List.{IsPrefix};
ghost use Rattle.multiset_rank.specs.Claims.{claims};
ghost use Rattle.isel_spec.specs.declared.spec.Spec.{Spec};
ghost use Rattle.claim_core.specs.Laws.{AreOnceBelow, numbers};
ghost use Rattle.claim_board.specs.declared.view.View.TheVariants.{Book};
ghost use Rattle.claim_board.specs.Steps.{empty_ledger};
ghost use Rattle.claim_board.specs.Words.{named};
ghost use Rattle.claim_board.specs.Draws.{Draws};
ghost use Rattle.claim_board.specs.Entries.{AreRight, AreLeast, AreTold};

use crate::entry::{Entry, Task};
use crate::library::Library;
use crate::name::Name;
use crate::pass::{Claim, Drawn, Over, Pass};
use crate::table::{Seat, Words};
use isel_spec::Spec;
use multiset_rank::ClaimPlan;
use std::alloc::{AllocError, Global};
use std::marker::{Model, PhantomData};
use std::snapshot::Snapshot;
use std::sync::{Mutex, Wait};

/// A board that is not open yet, with all the memory that it will take. Contracts see its name.
#[derive(Drop)]
pub struct Blank<E: Entry> {
    words: Words,
    seat: Seat,
    entries: Vec<(u64, E)>,
    sizes: Vec<Option<u8>>,
    passes: Vec<Pass>,
    workers: u32,
}

impl<E: Entry> Model for Blank<E> {
    ghost use Rattle.std.specs.Prelude.{vec_capacity};
    ghost use Rattle.claim_board.specs.Names.{BoardName};

    ghost Value = { BoardName };

    ghost use Rattle.claim_board.specs.Words.{named};
    ghost use Rattle.claim_board.specs.Blanks.{IsBlank};

    ghost view = { λ b. named b.words };

    ghost invariant = { λ b. IsBlank (named b.words) b.seat.table_id b.seat.me b.entries.items
        (vec_capacity b.entries) b.sizes.items b.passes.items (vec_capacity b.passes) b.workers };
}

impl<E: Entry> Blank<E> {
    /// A board for the claims of a file's plan, among 1 to 64 workers, with an empty library that has room for all
    /// claims. An `Err` is out of memory.
    pub fn new(
        alloc: Global,
        spec: &Spec,
        plan: ClaimPlan,
        budget: u64,
        workers: u32,
    ) -> Result<Blank<E>, AllocError>
        requires some { 1 ≤ workers }
        requires most { workers ≤ 64 }
        ensures spec { IfOk result (λ blank. blank.task.spec.value ≡ spec.now) }
        ensures plan { IfOk result (λ blank. blank.task.plan ≡ plan) }
        ensures budget { IfOk result (λ blank. blank.task.budget ≡ budget) }
        ensures workers { IfOk result (λ blank. blank.task.workers ≡ workers) }
    {
        let entries = Vec::with_capacity(alloc, plan.claims() as usize)?;
        let sizes = vec![in alloc; None; plan.goals() as usize]?;
        let passes = Vec::with_capacity(alloc, workers as usize)?;
        let task = Task {
            spec: Snapshot::of(spec),
            plan,
            budget,
            workers,
        };
        let (words, seat) = Words::new(alloc, &task)?;
        Ok(Blank {
            words,
            seat,
            entries,
            sizes,
            passes,
            workers,
        })
    }

    /// Opens the board under its name: the board with an empty library, and a pass for each worker. It takes no memory.
    pub fn open<L: Name>(self) -> (Board<L, E>, Vec<Pass>)
        requires { L.board ≡ self }
        ensures { result.1.items ≡ replicate L.board.task.workers (record { table = L.board.table; seen = [] }) }
    {
        let Blank {
            words,
            mut seat,
            entries,
            sizes,
            mut passes,
            workers,
        } = self;
        hand_out_all(&words, &mut seat, &mut passes, workers);
        let library = Library {
            entries,
            sizes,
            seat,
            of: PhantomData,
        };
        let board = Board {
            words,
            library: Mutex::new(library),
        };
        (board, passes)
    }
}

/// Hands out a pass for each of so many workers.
fn hand_out_all(words: &Words, keeper: &mut Seat, passes: &mut Vec<Pass>, workers: u32)
    requires table { keeper.old.table_id ≡ (named words.now).table }
    requires keeper { keeper.old.me ≡ (Book (empty_ledger workers), []) }
    requires none { passes.old.items ≡ [] }
    requires room { workers ≤ vec_capacity passes.old }
    ensures table { keeper.new.table_id ≡ keeper.old.table_id }
    ensures keeper { keeper.new.me ≡ (Book (empty_ledger 0), []) }
    ensures passes { passes.new.items
        ≡ replicate workers (record { table = (named words.now).table; seen = [] }) }
{
    for _ in 0..workers {
        passes.push_reserved(Pass {
            seat: words.hand_out(keeper),
        });
    }
}

/// An open board. Workers share it, and each keeps what it holds.
#[derive(Drop)]
pub struct Board<L: Name, E: Entry> {
    words: Words,
    library: Mutex<Library<L, E>>,
    ghost name: { named words ≡ L.board },
}

impl<L: Name, E: Entry> Board<L, E> {
    /// The board's table of words.
    pub fn words(&self) -> &Words
        ensures { named result.now ≡ L.board }
    {
        &self.words
    }

    /// The plan of the claims.
    pub fn plan(&self) -> ClaimPlan
        ensures { result ≡ L.board.task.plan }
    {
        self.words.plan()
    }

    /// Draws the next claim, by one atomic step: the claim with the number that was read, or where there is none, the
    /// end of this worker. It waits for no other worker.
    pub fn claim(&self, pass: Pass) -> Drawn
        requires { pass.table ≡ L.board.table }
        ensures { Draws L.board pass result }
    {
        let Pass { mut seat } = pass;
        let read = self.words.draw::<L>(&mut seat);
        if read < self.plan().claims() {
            return Drawn::Claim(Claim { number: read, seat });
        }
        Drawn::Over(Over { read, seat })
    }

    /// Enters a claim into the library, with an entry that is right for it. The pass has seen a book that ends with
    /// this claim, and that begins with all that the claim's pass had seen.
    pub fn publish<R: Wait>(&self, rt: &R, claim: Claim, entry: E) -> Pass
        requires claim { claim.table ≡ L.board.table }
        requires right { E.right L.board.task claim.number entry }
        ensures table { result.table ≡ L.board.table }
        ensures last { (before : List (ℕ × Option ℕ)) × (result.seen ≡ before ++ (claim.number, E.size entry) ∷ []) }
        ensures earlier { IsPrefix claim.seen result.seen }
    {
        self.library.lock(rt).enter(&self.words, claim, entry)
    }

    /// Looks into the library: the least size of each goal that its book tells, and `None` where it tells none. There
    /// is a place for each goal. The pass has seen this book, which begins with all that it had seen before.
    pub fn look<R: Wait>(&self, rt: &R, pass: Pass, sizes: &mut [Option<u8>]) -> Pass
        requires pass { pass.table ≡ L.board.table }
        requires places { length sizes.old ≡ L.board.task.plan.goals }
        ensures table { result.table ≡ L.board.table }
        ensures earlier { IsPrefix pass.seen result.seen }
        ensures least { AreLeast L.board.task.plan result.seen sizes.new }
        ensures told { AreTold L.board.task.plan E.size (E.right L.board.task) sizes.new }
    {
        self.library.lock(rt).look(&self.words, pass, sizes)
    }

    /// The library, once all workers are over: each claim stands in it once, with an entry that is right for it.
    pub fn close(self, overs: Vec<Over>) -> Library<L, E>
        requires all { vec_len overs ≡ L.board.task.workers }
        requires overs { All (λ over. over.table ≡ L.board.table) overs.items }
        ensures once { AreOnceBelow (length (claims L.board.task.plan)) (numbers result.book) }
        ensures right { AreRight (E.right L.board.task) result.book }
    {
        let Board { words, library } = self;
        let mut library = library.into_inner();
        library.end_all(&words, overs);
        library.complete(&words);
        library
    }
}
