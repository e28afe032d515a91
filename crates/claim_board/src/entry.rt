//! What the workers of a board work on, and what they enter.

ghost use Rattle.std.specs.Prelude.{◌≡◌, ℕ, Option};
ghost use Rattle.claim_board.specs.declared.entry.Task.{Task};

use isel_spec::Spec;
use multiset_rank::ClaimPlan;
use std::snapshot::Snapshot;

/// What the workers of a board work on. The file is remembered and takes no bytes.
#[derive(Drop)]
pub struct Task {
    pub spec: Snapshot<Spec>,
    /// The claims.
    pub plan: ClaimPlan,
    /// The most units of work for a claim.
    pub budget: u64,
    pub workers: u32,
}

/// What a worker enters for a claim.
pub trait Entry: Send + Drop {
    ghost use Rattle.claim_board.specs.declared.entry.Task.{Task};

    /// Whether it is right for the claim with this number.
    ghost right: { Task → ℕ → Self → Type 0 };

    /// The size that it tells, if it tells one.
    ghost size: { Self → Option ℕ };

    /// The size of the first pattern that was found, a size above 255 as 255; `None` where there is none.
    fn least(&self) -> Option<u8>
        ensures { result ≡ size self.now };
}
