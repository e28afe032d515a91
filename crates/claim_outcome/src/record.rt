//! What the budget of an undecided claim was spent on.

ghost use Rattle.std.specs.Prelude.{◌≡◌, ◌^◌, ◌-◌, min};
ghost use Rattle.claim_outcome.specs.Units.{units_of};

use bit_blast::Blasted;
use cnf_core::Log;
use collections::Seq;
use pattern_core::{Example, Pattern};

/// What a solver was asked.
#[derive(Debug, Drop)]
pub enum Question {
    /// For a pattern of the claim that gives the goal's results at the first so many examples of the record and is none
    /// of the first so many candidates.
    Find { examples: usize, candidates: usize },
    /// Whether a pattern differs from the goal at some input.
    Confirm { pattern: Pattern },
}

/// A question, its clauses, and the clauses that the solver learnt, each as a chain of resolutions.
#[derive(Debug, Drop)]
pub struct Asked {
    pub question: Question,
    pub blasted: Blasted,
    pub log: Log,
}

/// The inputs at which candidates were found to differ from the goal, the candidates, and the calls of the solver
/// whose chains count. About a megabyte for a thousand units.
#[derive(Debug, Drop)]
pub struct Record {
    pub examples: Seq<Example>,
    pub candidates: Seq<Pattern>,
    pub calls: Seq<Asked>,
}

/// The units of budget that a record tells of: its candidates, and the chains of its calls. A number above 2^64 - 1 is
/// told as 2^64 - 1.
pub fn units(kept: &Record) -> u64
    ensures { result ≡ min (units_of kept.now) (2 ^ 64 - 1) }
{
    let mut units = kept.candidates.len() as u64;
    for call in kept.calls.as_slice() {
        units = units.saturating_add(call.log.chains.len() as u64);
    }
    units
}
