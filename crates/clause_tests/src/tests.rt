//! A module for each subject.

mod formulas;
mod logs;
mod multisets;
mod numbers;
mod refutations;
mod solver;
mod texts;
