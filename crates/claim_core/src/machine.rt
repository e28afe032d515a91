//! The machine that takes the workers' events.

ghost use Rattle.std.specs.Prelude.{◌≡◌, if◌then◌else◌, ℕ, ◌<◌, ◌≤◌, ◌+◌, ◌++◌, ◌∷◌, List, [], Option, Some, IfOk};
ghost use Rattle.std.specs.Prelude.{length, slice_get, slice_set, map};
ghost use Rattle.multiset_rank.specs.Claims.{claims};
ghost use Rattle.claim_core.specs.Machine.{opening, drawn, MayCome, Leads, IsReached};
ghost use Rattle.claim_core.specs.Sizes.{TellsLeast, told, lesser};
ghost use Rattle.claim_core.specs.Laws.{AreDealtOnce, AreOnceBelow, AllOver, numbers};

use crate::event::{Event, Held};
use multiset_rank::ClaimPlan;
use std::alloc::{AllocError, Global};
use std::marker::Model;

/// What the machine knows of an entry.
pub trait Least {
    /// The size that it tells, if it tells one.
    ghost size: { Self → Option ℕ };

    /// The size of the first pattern that was found; `None` where there is none.
    fn least(&self) -> Option<u8>
        ensures { result ≡ size self.now };
}

/// Workers that draw the claims of a plan and publish them with entries. Contracts see it as the plan and a state
/// that a run has reached.
#[derive(Drop)]
pub struct Core<E> {
    plan: ClaimPlan,
    next: u64,
    held: Vec<Held>,
    book: Vec<(u64, E)>,
}

impl<E> Model for Core<E> {
    ghost use Rattle.std.specs.Prelude.{◌≤◌, length, vec_capacity};
    ghost use Rattle.multiset_rank.specs.Claims.{claims};
    ghost use Rattle.claim_core.specs.Machine.{Machine};

    ghost Value = { Machine E };

    ghost use Rattle.claim_core.specs.Machine.{IsReached};

    ghost view = { λ c. record {
      plan = c.plan;
      state = record { next = c.next; held = c.held.items; book = c.book.items };
    } };

    ghost invariant = { λ c. IsReached (length (claims c.plan))
        (record { next = c.next; held = c.held.items; book = c.book.items })
        × (length (claims c.plan) ≤ vec_capacity c.book) };
}

impl<E> Core<E> {
    /// The machine of 1 to 64 idle workers with an empty book, which has room for all claims. An `Err` is out of
    /// memory.
    pub fn new(alloc: Global, plan: ClaimPlan, workers: u32) -> Result<Core<E>, AllocError>
        requires some { 1 ≤ workers }
        requires most { workers ≤ 64 }
        ensures { IfOk result (λ core. core ≡ record { plan = plan; state = opening workers }) }
    {
        let held = vec![in alloc; Held::Idle; workers as usize]?;
        let book = Vec::with_capacity(alloc, plan.claims() as usize)?;
        Ok(Core {
            plan,
            next: 0,
            held,
            book,
        })
    }

    /// Takes an event that may come. It takes no memory.
    pub fn step(&mut self, event: Event<E>)
        requires { MayCome self.old.state event }
        ensures state { Leads (length (claims self.old.plan)) self.old.state event self.new.state }
        ensures plan { self.new.plan ≡ self.old.plan }
    {
        match event {
            Event::Look(_) => {}
            Event::Draw(worker) => self.draw(worker),
            Event::Publish(worker, entry) => self.publish(worker, entry),
        }
    }

    /// Gives an idle worker the next claim, if there is one.
    fn draw(&mut self, worker: u32)
        requires { slice_get self.old.state.held worker ≡ Some Held.Idle }
        ensures state { Leads (length (claims self.old.plan)) self.old.state (Event.Draw worker) self.new.state }
        ensures plan { self.new.plan ≡ self.old.plan }
    {
        self.held[worker as usize] = drawn(self.plan.claims(), self.next);
        self.next += 1;
    }

    /// Puts a worker's claim at the end of the book.
    fn publish(&mut self, worker: u32, entry: E)
        requires { (c : ℕ) × (slice_get self.old.state.held worker ≡ Some (Held.Claim c)) }
        ensures state { Leads (length (claims self.old.plan)) self.old.state (Event.Publish worker entry)
            self.new.state }
        ensures plan { self.new.plan ≡ self.old.plan }
    {
        let number = claim_of(self.held.as_slice(), worker);
        self.book.push_reserved((number, entry));
        self.held[worker as usize] = Held::Idle;
    }

    /// What a worker has.
    pub fn held(&self, worker: u32) -> Held
        requires { worker < length self.now.state.held }
        ensures { slice_get self.now.state.held worker ≡ Some result }
    {
        self.held[worker as usize]
    }

    /// The published claims, each with its entry, in the order in which they came.
    pub fn book(&self) -> &[(u64, E)]
        ensures book { result.now ≡ self.now.state.book }
        ensures reached { IsReached (length (claims self.now.plan)) self.now.state }
        ensures dealt { AreDealtOnce (length (claims self.now.plan)) self.now.state }
        ensures all { AllOver self.now.state.held → AreOnceBelow (length (claims self.now.plan)) (numbers result.now) }
    {
        self.book.as_slice()
    }

    /// The plan of the claims.
    pub fn plan(&self) -> ClaimPlan
        ensures { result ≡ self.now.plan }
    {
        self.plan
    }
}

impl<E: Least> Core<E> {
    /// The least size that the book tells of a goal; `None` where it tells none.
    pub fn least(&self, goal: u32) -> Option<u8>
        ensures { TellsLeast self.now.plan (told E.size self.now.state.book) goal result }
    {
        let mut least = None;
        for place in 0..self.book.len() {
            let (number, entry) = &self.book[place];
            let claim = self.plan.claim(*number);
            least = with_size(least, claim.0 == goal, entry.least());
        }
        least
    }
}

/// The claim of a worker that holds one.
fn claim_of(held: &[Held], worker: u32) -> u64
    requires { (c : ℕ) × (slice_get held.now worker ≡ Some (Held.Claim c)) }
    ensures { slice_get held.now worker ≡ Some (Held.Claim result) }
{
    let Held::Claim(number) = held[worker as usize] else {
        unreachable!()
    };
    number
}

/// What the next draw gives, where there are so many claims.
fn drawn(claims: u64, next: u64) -> Held
    ensures { result ≡ drawn claims next }
{
    if next < claims {
        Held::Claim(next)
    } else {
        Held::Over
    }
}

/// The least size with that of one claim more, which counts where the claim is of the goal.
fn with_size(least: Option<u8>, is_of_goal: bool, size: Option<u8>) -> Option<u8>
    ensures { result ≡ (if is_of_goal then lesser least size else least) }
{
    if is_of_goal {
        lesser(least, size)
    } else {
        least
    }
}

/// The lesser of two sizes, where `None` is no size.
pub fn lesser(left: Option<u8>, right: Option<u8>) -> Option<u8>
    ensures { result ≡ lesser left right }
{
    let Some(a) = left else { return right };
    let Some(b) = right else { return left };
    Some(a.min(b))
}
