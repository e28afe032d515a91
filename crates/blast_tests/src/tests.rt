//! A module for each subject.

mod blasters;
mod models;
mod operators;
mod values;
