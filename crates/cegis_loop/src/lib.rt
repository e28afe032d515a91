//! The search for the rules of a claim, by candidates and counterexamples.
//!
//! - `inputs`: inputs of some sorts by their numbers.
//! - `trial`: [`TestCases`], a goal's results at some inputs, and [`first_difference`], the first of them at which a
//!   pattern differs from the goal.
//! - `miter`: a formula that is true at the inputs where a pattern differs from its goal.
//! - `confirmation`: [`confirm`], whether a pattern is a rule.
//! - `answer`: [`Confirm`], its answer.
//! - `finder`: the formulas by which the next candidate is found.
//! - `search`: the state of the search for a claim's rules, and its steps.
//! - `settling`: [`settle`], the outcome for a claim. `listing`, `copies`: rising lists of patterns, and copies.
//!
//! Candidates and counterexamples in turn: A. Solar-Lezama, L. Tancau, R. Bodik, S. Seshia, V. Saraswat, Combinatorial
//! sketching for finite programs, ASPLOS 2006.
#![tactic(auto)]

mod answer;
mod confirmation;
mod copies;
mod finder;
mod inputs;
mod listing;
mod miter;
mod search;
mod settling;
mod trial;

pub use answer::{Confirm, Tried};
pub use confirmation::confirm;
pub use settling::settle;
pub use trial::{TestCases, first_difference, test_cases};
