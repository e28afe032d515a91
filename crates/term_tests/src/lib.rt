//! Tests of public calls on terms and lists, with ample memory; there is no code. They stand here, since a crate
//! with tests of its own is proved once more for them.
//!
//! - `tests/grafts`: a term of one table made in another
//! - `tests/lists`: faults and forests of small texts
//! - `tests/operators`: values of operators that change the width
//! - `tests/reading`: terms that are read, their faults, and terms that are written and read back
//! - `tests/terms`: faults of `make`, and the nodes of subterms with their values
//! - `tests/values`: values of each operator by the standard, at narrow and at wide bit-vectors
//! - `tests/written`: operators of a term's text: over what they may stand, and their values
#![tactic(auto)]

#[cfg(test)]
mod tests;
