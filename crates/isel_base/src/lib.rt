//! Files that are read and streams that are written, as they are handed in.
//!
//! - `traits`: `Files` and `Sink`, whose objects count their faults.
//! - `reading`: `read_all`, all bytes of a file.
//! - `writing`: `put_all`, all bytes of a text.
//! - `fakes`: `MemFiles` and `MemSink`, in memory, for tests.
//! - `real`: `RealFiles` and `RealOut`, the files and streams of the system, which are trusted.
#![tactic(auto)]

mod fakes;
mod reading;
mod real;
mod traits;
mod writing;

pub use fakes::{MemFiles, MemSink};
pub use reading::{FILE_LIMIT, ReadAllFault, read_all};
pub use real::{RealFiles, RealOut};
pub use traits::{Failed, Files, Sink};
pub use writing::put_all;
