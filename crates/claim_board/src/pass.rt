//! What a worker holds: a pass, a claim, or the proof that it is over. Each takes part in one thread at a time, and is
//! given up for the next.

ghost use Rattle.std.specs.Prelude.{◌≡◌};

use crate::table::Seat;
use std::marker::Model;

/// A worker that may look or draw. Contracts see its board's table, and the claims that it saw last in the library.
#[derive(Drop)]
pub struct Pass {
    pub(crate) seat: Seat,
}

impl Model for Pass {
    ghost use Rattle.std.specs.Prelude.{◌≡◌, []};
    ghost use Rattle.claim_board.specs.declared.view.View.TheVariants.{Idle};
    ghost use Rattle.claim_board.specs.Passes.{PassState};
    ghost use Rattle.claim_board.specs.Views.{seen_by};

    ghost Value = { PassState };

    ghost view = { λ p. record { table = p.seat.table_id; seen = seen_by p.seat.me.0 } };

    ghost invariant = { λ p. p.seat.me ≡ (Idle (seen_by p.seat.me.0), []) };
}

/// A worker with a claim. Contracts see the claim's number beside what they see of a pass.
#[derive(Drop)]
pub struct Claim {
    pub(crate) number: u64,
    pub(crate) seat: Seat,
}

impl Model for Claim {
    ghost use Rattle.std.specs.Prelude.{◌≡◌, []};
    ghost use Rattle.claim_board.specs.declared.view.View.TheVariants as role;
    ghost use Rattle.claim_board.specs.Passes.{ClaimState};
    ghost use Rattle.claim_board.specs.Views.{seen_by};

    ghost Value = { ClaimState };

    ghost view = { λ c. record { table = c.seat.table_id; number = c.number; seen = seen_by c.seat.me.0 } };

    ghost invariant = { λ c. c.seat.me ≡ (role.Claim c.number (seen_by c.seat.me.0), []) };
}

impl Claim {
    /// The number of the claim, which is how many draws there were before this one.
    pub fn number(&self) -> u64
        ensures { result ≡ self.now.number }
    {
        self.number
    }
}

/// A worker that is over. Contracts see the number that it read beside what they see of a pass.
#[derive(Drop)]
pub struct Over {
    pub(crate) read: u64,
    pub(crate) seat: Seat,
}

impl Model for Over {
    ghost use Rattle.std.specs.Prelude.{◌≡◌, []};
    ghost use Rattle.claim_board.specs.declared.view.View.TheVariants as role;
    ghost use Rattle.claim_board.specs.Passes.{OverState};
    ghost use Rattle.claim_board.specs.Views.{seen_by};

    ghost Value = { OverState };

    ghost view = { λ o. record { table = o.seat.table_id; read = o.read; seen = seen_by o.seat.me.0 } };

    ghost invariant = { λ o. o.seat.me ≡ (role.Over o.read (seen_by o.seat.me.0), []) };
}

/// What a draw gives a worker.
#[derive(Drop)]
pub enum Drawn {
    /// The next claim.
    Claim(Claim),
    /// No claim: all were drawn.
    Over(Over),
}
