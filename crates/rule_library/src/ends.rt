//! The ends of entries.

ghost use Rattle.std.specs.Prelude.{◌≡◌, ℕ, [], ◌∷◌, ◌++◌, OnOk, if◌then◌else◌};
ghost use Rattle.std.specs.List.{list_any};
ghost use Rattle.claim_outcome.specs.declared.outcome.Outcome.{Outcome};
ghost use Rattle.rule_library.specs.Book.{is_spent, ran_out};

use claim_outcome::{End, Outcome};
use multiset_rank::Multi;
use std::alloc::AllocError;

/// Whether the budget was spent.
fn is_spent(end: &End) -> bool
    ensures { result ≡ is_spent end.now }
{
    match end {
        End::Decided => false,
        End::Spent(_) => true,
        End::Skipped { .. } => false,
        End::NoMemory => false,
    }
}

/// Whether memory ran out.
fn ran_out(end: &End) -> bool
    ensures { result ≡ ran_out end.now }
{
    match end {
        End::Decided => false,
        End::Spent(_) => false,
        End::Skipped { .. } => false,
        End::NoMemory => true,
    }
}

/// Whether memory ran out at some claim of a book.
pub(crate) fn has_run_out(book: &[(u64, Outcome)]) -> bool
    ensures { result ≡ list_any (λ (e : ℕ × Outcome). ran_out e.1.end) book.now }
{
    for entry in book {
        if ran_out(&entry.1.end) {
            return true;
        }
    }
    false
}

/// Adds the operations of a claim at the end, where its budget was spent.
pub(crate) fn note_open(
    undecided: &mut Vec<Multi>,
    multi: Multi,
    end: &End,
) -> Result<(), AllocError>
    ensures { OnOk result (undecided.new.items
        ≡ undecided.old.items ++ (if is_spent end.now then multi ∷ [] else [])) }
{
    if is_spent(end) {
        undecided.push(multi)?;
    }
    Ok(())
}
