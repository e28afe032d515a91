//! Collections for public fields, which contracts see as plain lists.
//!
//! A `Vec` or a map in a contract is a value with a capacity and a pointer, so two of them with the
//! same elements may differ. The types of this crate are seen as their elements alone.
//!
//! - `seq`: [`Seq`], a list.
//! - `name_map`: [`NameMap`], a table of values under names.
#![tactic(auto)]

mod name_map;
mod seq;

pub use name_map::NameMap;
pub use seq::Seq;
