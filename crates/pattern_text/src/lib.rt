//! The text of a library: a function of the file and the answers, and the reader of such a text.
//!
//! - `write`: `write_library`, the text of an answer for each goal of a file.
//! - `claimed`: [`Claimed`], what a library says of a goal. `fault`: [`LibFault`], why a text is no library.
//! - `form`: rules and open claims by their form. `items`: claims and the head. `names`: operations and goals by name.
//! - `small`: the pattern of a rule whose numbers are small. `rules`: the rules of a goal. `index`: the earlier ones in
//!   their order, so that a rule that stands twice is found fast.
//! - `opens`: open claims. `claims`: the items of a library. `text`: a fault of the text's lists.
//! - `read`: [`read_library`], and [`one_outcome`], the law that a text has one outcome.
//! - `round_trip`: [`written_is_read`], the law that what was written is read as the same answers.
//!
//! The format is this project's own.
#![tactic(auto)]

mod claimed;
mod claims;
mod fault;
mod form;
mod index;
mod items;
mod names;
mod opens;
mod read;
mod round_trip;
mod rules;
mod small;
mod text;
mod write;

pub use claimed::{Claimed, State};
pub use fault::{LibFault, LibKind};
pub use read::{one_outcome, read_library};
pub use round_trip::written_is_read;
pub use write::write_library;
