//! Tests of public calls, from the outside of the program to its runs, with ample memory; there is no
//! code. They stand here, since a crate with tests of its own is proved once more for them.
//!
//! - `tests/outside`: real files and streams, and those in memory
//! - `tests/runs`: what runs of the program write, and the status that they end with
//! - `tests/tables`: elements and names in the order in which they were added
#![tactic(auto)]

#[cfg(test)]
mod tests;
