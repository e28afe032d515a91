//! The lexical layer of every text: words and nested lists, each with its span.
//!
//! `token` says what a byte does, `builder` keeps the items of the tokens so far and the lists that are
//! open, `reader` goes over the bytes once, and `forest` is what is read, with its accessors. What bytes
//! are which forest, and which fault comes where they are none, stands in `specs/`: `Lexical` says by place
//! what the tokens of a text are and `Token` computes them, and from these it goes by `Tree` and `Forest`
//! to `Fault`. `Progress` is for the reader's own functions.
//!
//! `words` has the words that more than one text has: numerals and names.
#![tactic(auto)]

mod builder;
mod fault;
mod forest;
mod reader;
mod token;
mod words;

pub use fault::SexpFault;
pub use forest::{Body, Forest, Item};
pub use reader::{item_trees, one_fault, one_reading, read};
pub use words::{is_name, is_numeral, name, numeral, numeral_between};
