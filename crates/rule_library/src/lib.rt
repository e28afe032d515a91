//! The library of a file from a book of its claims, that is, from what became of each pair of a goal and a multiset of
//! operations: for each goal the smallest patterns that were found, and the claims that are open.
//!
//! - `finish`: [`finish_book`] and [`Finished`], an answer for each goal.
//! - `index`: where the entries of claims stand in a book, and what they tell of a goal.
//! - `ends`: the ends of entries, one by one and in a book.
//! - `copies`: copies of patterns.
//! - `laws`: [`enough_budget_decides`], that an answer leaves nothing open where the budget is at least the trials.
//!
//! The smallest patterns first: Buchwald, Fried, Hack, CGO 2018.
#![tactic(auto)]

mod copies;
mod ends;
mod finish;
mod index;
mod laws;

pub use finish::{Finished, finish_book};
pub use laws::enough_budget_decides;
