//! Whether clauses have a model in which some variables have given values: the variables get values in order, and the
//! search goes back at the first clause that is made false.

use bit_blast::Blasted;
use cnf_core::{Clause, Cnf, Lit};
use std::alloc::{AllocError, Global};

/// More steps than the clauses of these tests take.
const STEPS: u32 = 1 << 24;

/// Whether a literal is false, where the first variables have these values.
fn is_false(lit: Lit, values: &[bool]) -> bool {
    match values.get(lit.variable) {
        Some(value) => *value != lit.positive,
        None => false,
    }
}

/// Whether all literals of a clause are false.
fn is_falsified(clause: &Clause, values: &[bool]) -> bool {
    for lit in clause.lits.as_slice() {
        if !is_false(*lit, values) {
            return false;
        }
    }
    true
}

/// The greatest variable of a clause; 0 where it has none.
fn greatest(clause: &Clause) -> usize {
    let mut found = 0;
    for lit in clause.lits.as_slice() {
        found = lit.variable.max(found);
    }
    found
}

/// The numbers of the clauses by their greatest variables: one of these is false first where a clause becomes false.
fn by_greatest(alloc: Global, cnf: &Cnf) -> Result<Vec<Vec<usize>>, AllocError> {
    let mut lists: Vec<Vec<usize>> = Vec::new(alloc);
    for _variable in 0..cnf.variables() {
        lists.push(Vec::new(alloc))?;
    }
    for number in 0..cnf.clauses().len() {
        let variable = greatest(&cnf.clauses()[number]);
        if variable < lists.len() {
            lists[variable].push(number)?;
        }
    }
    Ok(lists)
}

/// Whether a clause is false whose greatest variable got its value last.
fn has_falsified(cnf: &Cnf, lists: &[Vec<usize>], values: &[bool]) -> bool {
    let Some(list) = lists.get(values.len().wrapping_sub(1)) else {
        return false;
    };
    for number in list.iter() {
        if let Some(clause) = cnf.clauses().get(*number) {
            if is_falsified(clause, values) {
                return true;
            }
        }
    }
    false
}

/// The value that a variable has to have, if there is one.
fn given(fixed: &[Option<bool>], variable: usize) -> Option<bool> {
    match fixed.get(variable) {
        Some(value) => *value,
        None => None,
    }
}

/// Goes back to the last variable that was tried as false and may be true, and makes it true. Whether there is one.
fn turn_back(values: &mut Vec<bool>, fixed: &[Option<bool>]) -> Result<bool, AllocError> {
    for _place in 0..values.len() {
        let Some(value) = values.pop() else {
            return Ok(false);
        };
        if !value && given(fixed, values.len()).is_none() {
            values.push(true)?;
            return Ok(true);
        }
    }
    Ok(false)
}

/// Whether there is a model that gives these variables these values.
fn has_model(alloc: Global, cnf: &Cnf, fixed: &[Option<bool>]) -> Result<bool, AllocError> {
    let lists = by_greatest(alloc, cnf)?;
    let mut values: Vec<bool> = Vec::new(alloc);
    for _step in 0..STEPS {
        if has_falsified(cnf, &lists, &values) {
            if !turn_back(&mut values, fixed)? {
                return Ok(false);
            }
        } else if values.len() >= cnf.variables() {
            return Ok(true);
        } else {
            values.push(given(fixed, values.len()).unwrap_or(false))?;
        }
    }
    Err(AllocError)
}

/// Whether a number has a bit.
fn bit(number: u64, place: u8) -> bool {
    number.checked_shr(u32::from(place)).unwrap_or(0) % 2 == 1
}

/// Whether there is a model in which the inputs have these numbers, by their places.
pub(crate) fn has_model_at(
    alloc: Global,
    blasted: &Blasted,
    inputs: &[u64],
) -> Result<bool, AllocError> {
    let mut fixed = vec![in alloc; None; blasted.cnf.variables()]?;
    for (number, place, variable) in blasted.bits.as_slice() {
        if let Some(input) = inputs.get(*number as usize) {
            if *variable < fixed.len() {
                fixed[*variable] = Some(bit(*input, *place));
            }
        }
    }
    has_model(alloc, &blasted.cnf, &fixed)
}
