//! Clauses that the checker found to be refuted.

ghost use Rattle.std.specs.Prelude.{◌≡◌, IfOk, IfSome, IfNone};
ghost use Rattle.cnf_core.specs.Clause.{HasNoModel};
ghost use Rattle.cnf_core.specs.Resolution.{IsAccepted};

use bit_blast::Blasted;
use cnf_core::Log;
use proof_check::{Verdict, check_log};
use std::alloc::{AllocError, Global};
use std::marker::Model;

/// The clauses of formulas, and a log that refutes them: [`check_log`] answered `Refuted`.
#[derive(Debug, Drop)]
pub struct Refutation {
    blasted: Blasted,
    log: Log,
}

impl Model for Refutation {
    ghost use Rattle.std.specs.Prelude.{IsTrue};
    ghost use Rattle.bv_query.specs.Refuted.{Refuted, is_accepted};

    ghost Value = { Refuted };

    ghost view = { λ r. record { formula = r.blasted.cnf; bits = r.blasted.bits; chains = r.log.chains } };

    ghost invariant = { λ r. IsTrue (is_accepted r.blasted.cnf.clauses r.log.chains) };
}

impl Refutation {
    /// The clauses, and the variables of the inputs' bits.
    pub fn blasted(&self) -> &Blasted
        ensures cnf { result.now.cnf ≡ self.now.formula }
        ensures bits { result.now.bits ≡ self.now.bits }
        ensures accepted { IsAccepted self.now.formula.clauses self.now.chains }
    {
        &self.blasted
    }

    /// The log.
    pub fn log(&self) -> &Log
        ensures chains { result.now.chains ≡ self.now.chains }
        ensures accepted { IsAccepted self.now.formula.clauses self.now.chains }
    {
        &self.log
    }
}

/// The refutation that a log is, by the checker; none where it refutes nothing. An `Err` is out of memory.
pub(crate) fn checked(
    alloc: Global,
    blasted: Blasted,
    log: Log,
) -> Result<Option<Refutation>, AllocError>
    ensures formula { IfOk result (λ o. IfSome o (λ r. r.formula ≡ blasted.cnf)) }
    ensures bits { IfOk result (λ o. IfSome o (λ r. r.bits ≡ blasted.bits)) }
    ensures chains { IfOk result (λ o. IfSome o (λ r. r.chains ≡ log.chains)) }
    ensures none { IfOk result (λ o. IfNone o (¬ IsAccepted blasted.cnf.clauses log.chains)) }
{
    let verdict = check_log(alloc, &blasted.cnf, &log)?;
    match verdict {
        Verdict::Refuted => Ok(Some(Refutation { blasted, log })),
        _ => Ok(None),
    }
}
