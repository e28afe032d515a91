//! A module for each subject.

mod grafts;
mod lists;
mod operators;
mod reading;
mod terms;
mod values;
mod written;
