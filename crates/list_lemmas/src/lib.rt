//! Lemmas on lists, look-ups, orders and numbers that know nothing of this project. It has no code.
#![tactic(auto)]
