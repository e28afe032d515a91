//! Values, new clauses and the laws, on formulas over two variables.

ghost use Rattle.std.specs.Prelude.{◌≡◌, ◌∷◌, [], IfOk};

use super::numbers::{formula, lit};
use cnf_core::{Chain, Clause, Cnf, Lit, Log, is_new_clause, new_clauses_bound, no_model};
use collections::Seq;
use std::alloc::{AllocError, Global};
use std::test::Fail;

/// The clause of such numbers.
fn clause(alloc: Global, numbers: &[i32]) -> Result<Clause, AllocError> {
    let mut lits = Seq::new(alloc);
    for number in numbers {
        lits.push(lit(*number))?;
    }
    Ok(Clause { lits })
}

/// A name, a formula of x and y, an assignment, and whether it is a model.
const VALUES: [(&str, &[i32], [bool; 2], bool); 7] = [
    ("no clause", &[], [false, false], true),
    ("an empty clause", &[1, 0, 0], [true, true], false),
    ("neither", &[1, -2, 0, -1, 2, 0], [false, false], true),
    ("y alone", &[1, -2, 0, -1, 2, 0], [false, true], false),
    ("x alone", &[1, -2, 0, -1, 2, 0], [true, false], false),
    ("both", &[1, -2, 0, -1, 2, 0], [true, true], true),
    ("the last clause", &[1, 0, -1, 0], [true, false], false),
];

#[test]
fn a_model_makes_every_clause_true(rt: HostRuntime) -> Result<(), Fail> {
    for (name, numbers, assignment, wanted) in VALUES {
        let cnf = formula(rt.alloc(), 2, numbers)?;
        assert!(rt; cnf.value(&assignment) == wanted, "{name}");
    }
    Ok(())
}

/// A name, two earlier clauses, a clause, and whether it is new.
const NEW: [(&str, &[i32], &[i32], &[i32], bool); 8] = [
    ("an empty clause", &[2, 1, 2, 1], &[-1], &[], true),
    ("a subset", &[2, 1, 2, 1], &[-1], &[1], true),
    ("another sign", &[2, 1, 2, 1], &[-1], &[1, -2], true),
    ("the last again", &[2, 1, 2, 1], &[-1], &[-1], false),
    ("the first again", &[2, 1, 2, 1], &[-1], &[1, 2], false),
    ("a tautology", &[3], &[4], &[1, 2, -1], false),
    ("two empty clauses", &[1], &[], &[], false),
    ("after an empty clause", &[1], &[], &[2], false),
];

/// Whether the last of three clauses is new after the others.
fn is_last_new(
    alloc: Global,
    first: &[i32],
    second: &[i32],
    last: &[i32],
) -> Result<bool, AllocError> {
    let earlier = vec![in alloc; clause(alloc, first)?, clause(alloc, second)?]?;
    let last = clause(alloc, last)?;
    Ok(is_new_clause(&earlier, &last))
}

#[test]
fn a_new_clause_is_no_tautology_and_not_subsumed(rt: HostRuntime) -> Result<(), Fail> {
    for (name, first, second, last, wanted) in NEW {
        let found = is_last_new(rt.alloc(), first, second, last)?;
        assert!(rt; found == wanted, "{name}");
    }
    Ok(())
}

/// The clause of one literal.
fn unit(alloc: Global, lit: Lit) -> Result<Clause, AllocError>
    ensures { IfOk result (λ c. c.lits ≡ lit ∷ []) }
{
    Ok(Clause {
        lits: Seq::from_vec(vec![in alloc; lit]?),
    })
}

#[test]
fn a_refuted_formula_has_no_model(rt: HostRuntime) -> Result<(), Fail> {
    let x = Lit {
        variable: 0,
        positive: true,
    };
    let mut cnf = Cnf::new(rt.alloc(), 1);
    cnf.push(unit(rt.alloc(), x)?)?;
    cnf.push(unit(rt.alloc(), x.opposite())?)?;
    let steps = Seq::from_vec(vec![in rt.alloc(); (x, 1)]?);
    let chains = Seq::from_vec(vec![in rt.alloc(); Chain { first: 0, steps }]?);
    let log = Log { chains };
    no_model(&cnf, &log);
    new_clauses_bound(&cnf, &log);
    assert!(rt; !cnf.value(&[true]));
    Ok(())
}
