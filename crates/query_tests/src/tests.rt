//! A module for each subject.

mod answers;
mod budgets;
mod identities;
mod programs;
mod sessions;
