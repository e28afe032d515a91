//! A board on which threads share the claims of a plan: each draws claims by one atomic step, and enters what it found
//! into one library under a lock.
//!
//! - `entry`: [`Entry`], what a worker enters for a claim; [`Task`], what all of them work on.
//! - `name`: [`Name`], which board its parts are of.
//! - `pass`: [`Pass`], [`Claim`] and [`Over`], what a worker holds; [`Drawn`], what a draw gives it.
//! - `table` and `words`: [`Words`], the table with the one word that counts the draws, and the steps at it.
//! - `library`: [`Library`], the claims with their entries, which lies under the lock.
//! - `board`: [`Blank`], a board that is not open yet; [`Board`], the open one.
//!
//! What threads know stands in views, of `specs/Views`. `specs/Steps` has the steps that they take, and `specs/Rule`
//! the rule that holds between any two of them: each claim that was drawn is in the library or out with a worker, once.
#![tactic(auto)]

mod board;
mod entry;
mod library;
mod name;
mod pass;
mod steps;
mod table;
mod view;
mod words;

pub use board::{Blank, Board};
pub use entry::{Entry, Task};
pub use library::Library;
pub use name::Name;
pub use pass::{Claim, Drawn, Over, Pass};
pub use table::Words;
