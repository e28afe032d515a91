//! The claims of a number of goals and operations, and their numbers.
//!
//! There are as many claims with fewer than `size` operations as claims with exactly `size - 1`
//! operations of one kind more: that kind fills a smaller multiset up. So the claims before those of
//! a size are one product, and the number of all claims is one too.

ghost use Rattle.std.specs.Prelude.{◌≡◌, ◌+◌, ◌*◌, ◌^◌, ◌<◌, ◌≤◌, ◌↔◌, length, IsErr, IfOk, IfErr};
ghost use Rattle.std.specs.List.{flat_map, range_with_len};
ghost use Rattle.multiset_rank.specs.Binomial.{choose};
ghost use Rattle.multiset_rank.specs.Multisets.{StandsAt};
ghost use Rattle.multiset_rank.specs.Claims.{Plan, IsPlan, IsInPlan, claims, claims_of_size, AreClaims};

use crate::binomial::multichoose;
use crate::multi::Multi;
use crate::order::{rank, unrank};
use std::marker::Model;

/// The most claims of a plan.
const MOST_CLAIMS: u64 = 1 << 20;

/// There are more claims than a plan can number.
#[derive(Clone, Copy, Debug, PartialEq, Eq)]
pub struct TooMany {
    /// How many there are.
    pub claims: u64,
}

/// The claims of 1 to 256 goals and 1 to 64 operations, with at most `bound` operations each:
/// at most 2^20 claims. Contracts see it as these three numbers.
#[derive(Clone, Copy, Debug, PartialEq, Eq)]
pub struct ClaimPlan {
    goals: u32,
    kinds: u32,
    bound: u8,
}

impl Model for ClaimPlan {
    ghost use Rattle.multiset_rank.specs.Claims.{Plan, IsPlan};

    ghost Value = { Plan };

    ghost view = { λ p. record { goals = p.goals; kinds = p.kinds; bound = p.bound } };

    ghost invariant = { λ p. IsPlan (record { goals = p.goals; kinds = p.kinds; bound = p.bound }) };

    ghost inverse = { λ p. record { goals = p.goals; kinds = p.kinds; bound = p.bound } };
}

impl ClaimPlan {
    /// The plan of 1 to 256 goals and 1 to 64 operations, with at most `bound` operations a claim, at
    /// most 6. An `Err` has the number of claims, which is above 2^20.
    pub fn new(goals: u32, kinds: u32, bound: u8) -> Result<ClaimPlan, TooMany>
        requires some_goals { 1 ≤ goals }
        requires most_goals { goals ≤ 256 }
        requires some_kinds { 1 ≤ kinds }
        requires most_kinds { kinds ≤ 64 }
        requires bound { bound ≤ 6 }
        ensures too_many { IsErr result ↔ (2 ^ 20 < goals * choose (kinds + bound) bound) }
        ensures claims { IfErr result (λ e. e.claims ≡ goals * choose (kinds + bound) bound) }
        ensures plan { IfOk result (λ p. p ≡ record { goals = goals; kinds = kinds; bound = bound }) }
    {
        let claims = u64::from(goals) * multichoose(kinds + 1, bound);
        if claims > MOST_CLAIMS {
            return Err(TooMany { claims });
        }
        Ok(ClaimPlan {
            goals,
            kinds,
            bound,
        })
    }

    /// The number of goals, 1 to 256.
    pub fn goals(&self) -> u32
        ensures value { result ≡ self.now.goals }
        ensures plan { IsPlan self.now }
    {
        self.goals
    }

    /// The number of operations, 1 to 64.
    pub fn kinds(&self) -> u32
        ensures value { result ≡ self.now.kinds }
        ensures plan { IsPlan self.now }
    {
        self.kinds
    }

    /// The most operations of a claim, at most 6.
    pub fn bound(&self) -> u8
        ensures value { result ≡ self.now.bound }
        ensures plan { IsPlan self.now }
    {
        self.bound
    }

    /// The number of claims with fewer than `size` operations.
    fn claims_below(&self, size: u8) -> u64
        requires { size ≤ self.now.bound + 1 }
        ensures value { result ≡ length (flat_map (claims_of_size self.now) (range_with_len 0 size)) }
        ensures small { result ≤ 2 ^ 20 }
    {
        if size == 0 {
            return 0;
        }
        u64::from(self.goals) * multichoose(self.kinds + 1, size - 1)
    }

    /// The number of claims, at most 2^20.
    pub fn claims(&self) -> u64
        ensures length { result ≡ length (claims self.now) }
        ensures formula { result ≡ self.now.goals * choose (self.now.kinds + self.now.bound) self.now.bound }
        ensures most { result ≤ 2 ^ 20 }
        ensures law { AreClaims self.now (claims self.now) }
        ensures plan { IsPlan self.now }
    {
        self.claims_below(self.bound + 1)
    }

    /// How many operations the claim with this number has.
    fn size_of(&self, number: u64) -> u8
        requires { number < length (claims self.now) }
        ensures bound { result ≤ self.now.bound }
        ensures from { length (flat_map (claims_of_size self.now) (range_with_len 0 result)) ≤ number }
        ensures to { number < length (flat_map (claims_of_size self.now) (range_with_len 0 (result + 1))) }
    {
        for size in 0..self.bound {
            if number < self.claims_below(size + 1) {
                return size;
            }
        }
        self.bound
    }

    /// The goal and the multiset of the claim with this number, which is below `claims`.
    pub fn claim(&self, number: u64) -> (u32, Multi)
        requires number { number < length (claims self.now) }
        ensures place { StandsAt (claims self.now) number result }
        ensures in_plan { IsInPlan self.now result.0 result.1 }
    {
        let size = self.size_of(number);
        let place = number - self.claims_below(size);
        let multisets = multichoose(self.kinds, size);
        let goal = place / multisets;
        (goal as u32, unrank(self.kinds, size, place % multisets))
    }

    /// The number of the claim of a goal with a multiset, both of the plan.
    pub fn number(&self, goal: u32, multi: &Multi) -> u64
        requires in_plan { IsInPlan self.now goal multi.now }
        ensures place { StandsAt (claims self.now) result (goal, multi.now) }
        ensures within { result < length (claims self.now) }
    {
        let size = multi.ops().len() as u8;
        let multisets = multichoose(self.kinds, size);
        self.claims_below(size) + u64::from(goal) * multisets + rank(self.kinds, multi)
    }
}
