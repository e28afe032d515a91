//! Tests of libraries that come from books of claims, with ample memory; there is no code. They stand here, since a
//! crate with tests of its own is proved once more for them.
//!
//! - `tests/books`: the answers for a file whose claims were all settled by an enumeration
#![tactic(auto)]

#[cfg(test)]
mod tests;
