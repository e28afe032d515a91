//! Tests of the bit-blaster, with ample memory; there is no code. The search for a model is their own.
//!
//! - `tests/models`: whether clauses have a model in which some bits have given values
//! - `tests/values`: what the operators give, in machine words
//! - `tests/operators`: each operator at 1 to 4 bits, at all arguments: a model exists for its value alone
//! - `tests/blasters`: formulas asserted one after the other
#![tactic(auto)]

#[cfg(test)]
mod tests;
