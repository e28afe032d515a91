//! The reader of formulas in DIMACS form, a clause a line, and of a log after them ([`parse`], [`read`]):
//!
//! ```text
//! c a comment
//! p cnf VARIABLES CLAUSES
//! LITERAL .. 0
//! r FIRST LITERAL NUMBER LITERAL NUMBER ..
//! ```
//!
//! The form of formulas is that of the SAT competitions, with a clause a line: what stands after its 0 is refused, and
//! so is a head that is not true of the clauses. A line `r` is a chain: it begins with the clause of number `FIRST`,
//! and each step names a literal and a clause. Clauses are numbered from 0, those of the formula first.
//!
//! - `text`: the lines of a text, and the words of a line
//! - `line`: what a line says: a head, a clause or a chain
//! - `input`: what the lines say, one after another
//! - `error`: which line is not of the form, and why
#![tactic(auto)]

mod error;
mod input;
mod line;
mod text;

pub use error::{Fault, ParseError};
pub use input::{Input, parse, read};
