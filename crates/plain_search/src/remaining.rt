//! What is left of some operations: those without one of them, and the different ones.

ghost use Rattle.std.specs.Prelude.{◌≡◌, nat_eq, IfOk};
ghost use Rattle.std.specs.List.{list_any};
ghost use Rattle.plain_search.specs.Patterns.{without, different};

use std::alloc::{AllocError, Global};

/// The operations without the first one that is this.
pub(crate) fn without(alloc: Global, op: u16, ops: &[u16]) -> Result<Vec<u16>, AllocError>
    ensures { IfOk result (λ left. left.items ≡ without op ops.now) }
{
    let mut left = Vec::new(alloc);
    for (place, other) in ops.iter().enumerate() {
        if op == *other {
            left.extend_from_slice(&ops[place + 1..])?;
            return Ok(left);
        }
        left.push(*other)?;
    }
    Ok(left)
}

/// Whether an operation is one of these.
fn is_among(op: u16, ops: &[u16]) -> bool
    ensures { result ≡ list_any (nat_eq op) ops.now }
{
    for other in ops {
        if op == *other {
            return true;
        }
    }
    false
}

/// The different ones of some operations, the last of equal ones.
pub(crate) fn different(alloc: Global, ops: &[u16]) -> Result<Vec<u16>, AllocError>
    ensures { IfOk result (λ found. found.items ≡ different ops.now) }
{
    let mut found = Vec::new(alloc);
    for (place, op) in ops.iter().enumerate() {
        if !is_among(*op, &ops[place + 1..]) {
            found.push(*op)?;
        }
    }
    Ok(found)
}
