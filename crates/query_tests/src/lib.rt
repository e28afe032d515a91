//! Tests of questions about formulas, with ample memory; there is no code.
//!
//! - `tests/programs`: terms by short programs for a stack
//! - `tests/answers`: what is answered to a formula, with values tried by the evaluator and logs by the checker
//! - `tests/identities`: each operator's identity at widths 1, 8, 32 and 64, and beside it one that fails at one value
//! - `tests/sessions`: formulas asserted one after the other, with questions between
//! - `tests/budgets`: questions with little fuel
#![tactic(auto)]

#[cfg(test)]
mod tests;
