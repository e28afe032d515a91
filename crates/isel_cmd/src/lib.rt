//! The commands of the program, over a source of files and two sinks that are handed in.
//!
//! - `words`: the forms of the command line. `status`: how a run ends, and the numbers of the statuses.
//! - `place`: the line and the column of a byte. `refusal`: why a run fails, and the line that says so.
//! - `accepted`: the named file, where it is not refused. `library`: the text of its library.
//! - `program`: `run_here`, all that the program does. The promise of the program is its contract.
#![tactic(auto)]

mod accepted;
mod library;
mod place;
mod program;
mod refusal;
mod status;
mod words;

pub use program::run_here;
pub use words::{Command, parse};
