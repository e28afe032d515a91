//! Patterns of IR operations: what they are, what they compute, and the order of a library.
//!
//! - `pattern`: `Pattern`, `Node` and `Src`; `Example`, inputs of a goal; and `GoalAnswer`, what a library says of a
//!   goal.
//! - `well_formed`: `is_well_formed`, whether a pattern is one for a goal.
//! - `walk`: `is_canonical`, whether its nodes stand in the order of its walk, and `well_formed_is_forward`, the law
//!   that it can be walked where it is well-formed.
//! - `renaming`: `canonical`, the one renaming of a pattern of which that is so.
//! - `meaning`: `eval` and `eval_goal`, the values that patterns and goals give, and `rules_are_plain`: where
//!   there is no memory, a rule is one over values.
//! - `evaluation`: `Evaluation`, what the values of many patterns of a file need, found once; and `goal_nodes`.
//! - `known`: results of operations that are kept, so that they are computed once.
//! - `symbolic`: `as_terms` and `goal_terms`, the results of patterns and goals as terms over terms of the inputs.
//! - `feasibility`: `hopeless`, whether counts and sorts alone tell that a goal has no pattern with some operations,
//!   and `hopeless_has_no_pattern`, the law.
//! - `comparison`: `order`, the order of patterns, and `order_is_total`, its law.
//!
//! Patterns as programs over components: Gulwani, Jha, Tiwari, Venkatesan, PLDI 2011; rules, and the
//! smallest first: Buchwald, Fried, Hack, CGO 2018. The order is this project's own.
#![tactic(auto)]

mod comparison;
mod evaluation;
mod feasibility;
mod known;
mod meaning;
mod pattern;
mod renaming;
mod symbolic;
mod walk;
mod well_formed;

pub use comparison::{order, order_is_total};
pub use evaluation::{Evaluation, goal_nodes};
pub use feasibility::{hopeless, hopeless_has_no_pattern};
pub use meaning::{eval, eval_goal, rules_are_plain};
pub use pattern::{Example, GoalAnswer, Node, Pattern, Src};
pub use renaming::canonical;
pub use symbolic::{as_terms, goal_terms};
pub use walk::{is_canonical, well_formed_is_forward};
pub use well_formed::is_well_formed;
