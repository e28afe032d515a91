//! Tests of whole files, of what a file is made of, and of patterns, with ample memory; there is no code. They stand
//! here, since a crate with tests of its own is proved once more for them.
//!
//! - `tests/faults`: the first fault of a text, with its place
//! - `tests/library`: libraries that are read, and the first fault of a text that is none
//! - `tests/orders`: patterns that differ in each way that their order looks at
//! - `tests/patterns`: what patterns and goals compute on a file that was read
//! - `tests/search`: how many rules goals of files that were read have, and which multisets have no pattern
//! - `tests/specs`: files that are read, and files that are built of definitions
//! - `tests/symbolic`: patterns and goals of a file as terms
#![tactic(auto)]

#[cfg(test)]
mod tests;
