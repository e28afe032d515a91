//! A draw beside a worker that is in the library: it does not wait for the lock.

ghost use Rattle.std.specs.Prelude.{◌≡◌, None};

use super::notes::{blank, next};
use claim_board::{Blank, Board, Drawn, Entry, Name, Pass};
use std::alloc::{AllocError, Global};
use std::marker::Brand;
use std::sync::atomic::AtomicBool;
use std::sync::atomic::Ordering::SeqCst;
use std::sync::{Arc, Wait};
use std::test::Fail;
use std::thread;
use std::thread::Threads;

/// What two workers tell each other.
#[derive(Drop)]
struct Signals {
    /// A worker is in the library.
    entered: AtomicBool,
    /// The other worker has drawn.
    drawn: AtomicBool,
    /// The worker in the library left it before the other had drawn.
    in_vain: AtomicBool,
}

/// An entry with its claim's number, which tells its size only after a draw.
#[derive(Drop)]
struct Patient {
    number: u64,
    signals: Arc<Signals>,
}

impl Entry for Patient {
    ghost right = { λ task number entry. entry.number ≡ number };

    ghost size = { λ entry. None };

    fn least(&self) -> Option<u8> {
        self.signals.entered.store(true, SeqCst);
        if !comes(&self.signals.drawn) {
            self.signals.in_vain.store(true, SeqCst);
        }
        None
    }
}

/// Whether the flag is set within many turns.
fn comes(flag: &AtomicBool) -> bool {
    for _ in 0..10_000_000 {
        if flag.load(SeqCst) {
            return true;
        }
        thread::yield_now();
    }
    false
}

/// Draws once the other worker is in the library.
fn draw_beside<L: Name>(board: &Board<L, Patient>, pass: Pass, signals: &Signals)
    requires { pass.table ≡ L.board.table }
{
    let _comes = comes(&signals.entered);
    let _drawn = board.claim(pass);
    signals.drawn.store(true, SeqCst);
}

/// Whether a worker draws while another is in the library.
fn draws_beside<L: Name + Send + Sync, R: Threads + Wait + Sync>(
    rt: &R,
    alloc: Global,
    blank: Blank<Patient>,
) -> Result<bool, AllocError>
    requires { L.board ≡ blank }
{
    let (board, mut passes) = blank.open::<L>();
    let (Some(first), Some(second)) = (next::<L>(&mut passes), next::<L>(&mut passes)) else {
        return Ok(false);
    };
    let signals = Arc::new(
        alloc,
        Signals {
            entered: AtomicBool::new(false),
            drawn: AtomicBool::new(false),
            in_vain: AtomicBool::new(false),
        },
    )?;
    let Drawn::Claim(claim) = board.claim(first) else {
        return Ok(false);
    };
    let entry = Patient {
        number: claim.number(),
        signals: Arc::try_clone(&signals)?,
    };
    let shared = &board;
    let told = &*signals;
    thread::join(
        rt,
        move ||
            requires { second.table ≡ L.board.table }
        { draw_beside(shared, second, told) },
        move ||
            requires table { claim.table ≡ L.board.table }
            requires right { entry.number ≡ claim.number }
        { drop(shared.publish(rt, claim, entry)) },
    );
    Ok(!signals.in_vain.load(SeqCst))
}

#[test]
fn a_draw_does_not_wait_for_the_library(rt: HostRuntime) -> Result<(), Fail> {
    let Some(blank) = blank::<Patient>(rt.alloc(), 2, 2, 1, 2)? else {
        panic!(rt; "the plan is small")
    };
    assert!(rt; draws_beside::<Brand, _>(&rt, rt.alloc(), blank)?);
    Ok(())
}
