//! The rules of a goal by plain search: each pattern of a multiset of operations, tried on every input.
//!
//! - `inputs`: the inputs of some sorts by their numbers.
//! - `agreement`: `GoalTable`, a goal's results at its first inputs, and `is_rule`, whether a pattern gives the goal's
//!   results at all of them.
//! - `choices`: the choices of one element of each of some lists.
//! - `sources`: the sources of a sort, and the choices of them for arguments and results.
//! - `remaining`: what is left of some operations.
//! - `sifting`: `each_pattern`, each pattern of a multiset in order, handed to a `Sieve`.
//! - `rules`: `search`, the library of a goal, and `search_multi`, its rules with one multiset of operations.
//! - `extent`: `can_search`, whether a goal has few enough bits to be tried, and `has_no_memory`.
//! - `trial_count`: `trials`, how many trials a multiset of operations takes.
//!
//! Smallest patterns first: Buchwald, Fried, Hack, CGO 2018.
#![tactic(auto)]

mod agreement;
mod choices;
mod extent;
mod inputs;
mod remaining;
mod rules;
mod sifting;
mod sources;
mod trial_count;

pub use agreement::{GoalTable, goal_table, is_rule};
pub use extent::{attribute_bits_of, can_search, has_no_memory};
pub use rules::{search, search_multi};
pub use sifting::{Sieve, each_pattern};
pub use trial_count::trials;
