//! A module for each subject.

mod faults;
mod library;
mod orders;
mod patterns;
mod search;
mod specs;
mod symbolic;
