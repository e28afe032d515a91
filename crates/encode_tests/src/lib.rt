//! Tests of the location formulas, with ample memory; there is no code.
//!
//! - `tests/given`: what the calls require, as tests
//! - `tests/asking`: each pattern of a formula, by a session, where each that was found is blocked
//! - `tests/patterns`: the patterns of one operation over two bits, and how many agree with a goal at some inputs
//! - `tests/enumerated`: the canonical patterns of a formula are those that plain enumeration lists
#![tactic(auto)]

#[cfg(test)]
mod tests;
