//! A claim as a formula: the values of its inputs that make it true stand for the patterns that are searched for.
//!
//! - `slots`: [`Slot`], what an input of the formula says, and its number.
//! - `encoded`: [`Encoded`], the formula; [`encode`], [`extend`] and [`block`] make it.
//! - `decoding`, `assignment`: [`decode`], the pattern for which values stand; [`assign`], values that stand for one.
//! - `laws`: what holds of each formula.
//! - `shape`: the values stand for a pattern of the claim. `layout`: which slots there are. `kinds`, `sources`,
//!   `sorts`, `filling`, `choosing`, `naming`, `mentions`: its conditions, each a term. `truths`: nodes of truth
//!   values.
//! - `agreement`: the pattern gives the goal's results at an example. `lines`, `taking`, `building`: the terms of each
//!   line's results, of what takes one of some sources, and of choices.
//! - `difference`: the pattern is another one than a blocked one. `conditions`: its parts. `source_sorts`: sorts of
//!   sources.
//!
//! Locations of components: Gulwani, Jha, Tiwari, Venkatesan, PLDI 2011; here each is written one-hot.
#![tactic(auto)]

mod agreement;
mod assignment;
mod building;
mod choosing;
mod conditions;
mod decoding;
mod difference;
mod encoded;
mod filling;
mod kinds;
mod laws;
mod layout;
mod lines;
mod mentions;
mod naming;
mod shape;
mod slots;
mod sorts;
mod source_sorts;
mod sources;
mod taking;
mod truths;

pub use assignment::assign;
pub use decoding::decode;
pub use encoded::{Encoded, block, encode, extend};
pub use laws::{
    has_one_claim, inputs_have_one_sort, patterns_have_values, stays_right, values_fit,
};
pub use slots::Slot;
