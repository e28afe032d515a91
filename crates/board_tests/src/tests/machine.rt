//! The pure machine, by a list of events.

ghost use Rattle.std.specs.Prelude.{◌≡◌, ◌<◌, ◌≤◌, Option, length};

use claim_core::{Core, Event, Held, Least};
use multiset_rank::ClaimPlan;
use std::alloc::{AllocError, Global};
use std::test::Fail;

/// An entry that is a size.
#[derive(Drop)]
struct Size(Option<u8>);

impl Least for Size {
    ghost size = { λ entry. entry.0 };

    fn least(&self) -> Option<u8> {
        self.0
    }
}

/// Moves a worker by one event: it draws, or publishes what it holds with this size.
fn move_on(core: &mut Core<Size>, worker: u32, size: Option<u8>)
    requires { worker < length core.old.state.held }
    ensures { length core.new.state.held ≡ length core.old.state.held }
{
    match core.held(worker) {
        Held::Idle => core.step(Event::Draw(worker)),
        Held::Claim(_) => core.step(Event::Publish(worker, Size(size))),
        Held::Over => {}
    }
}

/// How many claims of two goals and two operations are published after so many turns of one worker, and the least sizes
/// of both goals. A turn publishes a size that is 1 less than the turn before.
fn published(
    alloc: Global,
    turns: u8,
    tells: bool,
) -> Result<Option<(usize, Option<u8>, Option<u8>)>, AllocError>
    requires { turns ≤ 20 }
{
    let Ok(plan) = ClaimPlan::new(2, 2, 1) else {
        return Ok(None);
    };
    let mut core = Core::new(alloc, plan, 1)?;
    for turn in 0..turns {
        move_on(&mut core, 0, if tells { Some(20 - turn) } else { None });
    }
    Ok(Some((core.book().len(), core.least(0), core.least(1))))
}

/// Turns, whether sizes are told, and what is published.
const RUNS: [(u8, bool, (usize, Option<u8>, Option<u8>)); 4] = [
    (1, true, (0, None, None)),
    (4, true, (2, Some(19), Some(17))),
    (20, true, (6, Some(13), Some(9))),
    (20, false, (6, None, None)),
];

#[test]
fn one_worker_publishes_each_claim(rt: HostRuntime) -> Result<(), Fail> {
    for (turns, tells, wanted) in RUNS {
        assert!(rt; published(rt.alloc(), turns, tells)? == Some(wanted));
    }
    Ok(())
}
