//! Formulas that are written as numbers: a variable from 1, negative for its negation, and 0 at the end of a clause.

ghost use Rattle.std.specs.Prelude.{◌≡◌, IfOk};

use cnf_core::{Clause, Cnf, Lit};
use collections::Seq;
use std::alloc::{AllocError, Global};

/// The literal of a number.
pub fn lit(number: i32) -> Lit {
    Lit {
        variable: number.unsigned_abs().saturating_sub(1) as usize,
        positive: number > 0,
    }
}

/// The formula over that many variables of such numbers. It drops literals of other variables.
pub fn formula(alloc: Global, variables: usize, numbers: &[i32]) -> Result<Cnf, AllocError>
    ensures { IfOk result (λ cnf. cnf.variables ≡ variables) }
{
    let mut cnf = Cnf::new(alloc, variables);
    let mut lits = Seq::new(alloc);
    for number in numbers {
        let lit = lit(*number);
        if *number == 0 {
            cnf.push(Clause { lits })?;
            lits = Seq::new(alloc);
        } else if lit.variable < variables {
            lits.push(lit)?;
        }
    }
    Ok(cnf)
}
