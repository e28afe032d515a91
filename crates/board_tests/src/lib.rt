//! Tests of claims among workers, with ample memory; there is no code. They stand here, since a crate with tests of its
//! own is proved once more for them.
//!
//! - `tests/machine`: the pure machine, by a list of events
//! - `tests/notes`: a small entry, and workers that enter it
//! - `tests/boards`: boards that are worked on to the end, by one worker and by two threads
//! - `tests/waiting`: a draw beside a worker that is in the library
#![tactic(auto)]

#[cfg(test)]
mod tests;
