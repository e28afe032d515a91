//! The laws of logs, as functions without code: a caller that makes the call has the law's fact from then on.

ghost use Rattle.std.specs.Prelude.{◌≤◌, ◌^◌, length};
ghost use Rattle.cnf_core.specs.Clause.{HasNoModel};
ghost use Rattle.cnf_core.specs.Resolution.{IsAccepted, AreNewClauses};

use crate::cnf::Cnf;
use crate::log::Log;

/// A formula with an accepted log has no model.
pub fn no_model(cnf: &Cnf, log: &Log)
    requires { IsAccepted cnf.now.clauses log.now.chains }
    ensures { HasNoModel cnf.now.clauses }
{}

/// Over v variables a log of chains each of which says something new has at most 3^v chains.
pub fn new_clauses_bound(cnf: &Cnf, log: &Log)
    requires { AreNewClauses cnf.now.clauses log.now.chains }
    ensures { length log.now.chains ≤ 3 ^ cnf.now.variables }
{
    // The call tells that the clauses are over the formula's variables.
    let _clauses = cnf.clauses();
}
