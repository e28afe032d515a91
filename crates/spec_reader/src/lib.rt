//! The reader of whole files: the meanings of IR operations and goals, or the first fault at its place.
//!
//! - `fault`: [`SpecFault`], why a text is no file. `text`: a fault of the text's lists.
//! - `form`: the parts of a definition, by the form of its item.
//! - `limits`: the limits on a file. `names`: the names that a file binds.
//! - `head`: the head of a file. `scope`: what the names of a definition stand for. `results`: its terms.
//! - `memory`: the rules on results together. `shape`: the one on the chain of memories. `accesses`: those on pointers
//!   and accessed bytes.
//! - `add`: a definition at the end of a file. `item`, `items`: what items define.
//! - `read`: [`read_spec`], the file that bytes are.
#![tactic(auto)]

mod accesses;
mod add;
mod fault;
mod form;
mod head;
mod item;
mod items;
mod limits;
mod memory;
mod names;
mod read;
mod results;
mod scope;
mod shape;
mod text;

pub use fault::{SpecFault, SpecKind, Which};
pub use read::read_spec;
