//! The text of terms, as SMT-LIB 2.6 writes them: its operators, of which there are more than a table of terms has
//! operations.
//!
//! - `operator`: [`Operator`], what a term's text may have at the head of a list.
//! - `words`: [`operator_named`], the operator of a word.
//! - `literal`: constants as words.
//! - `head`: what a list begins with.
//! - `judge`: over arguments of which sorts an operator may stand, [`OperatorFault`] where it may not.
//! - `bindings`: the bindings of a `let`, and what is wrong with them.
//! - `fault`: [`TermFault`], why a text is no term.
//! - `scope`: names in scope.
//! - `walk`: the walk over the items of a term's text.
//! - `read`: [`read_term`], the term of an item.
//! - `build`: nodes of a table whose operation may stand over their arguments.
//! - `signed`: the signed divisions, made in a table.
//! - `write`: [`write_term`], the text of a term.
//! - `write_out`: the term that an operator over terms is, made in a table.
#![tactic(auto)]

mod bindings;
mod build;
mod fault;
mod head;
mod judge;
mod literal;
mod operator;
mod read;
mod scope;
mod signed;
mod walk;
mod words;
mod write;
mod write_out;

pub use fault::{TermFault, TermKind};
pub use judge::OperatorFault;
pub use operator::{Bitwise, Division, LeftAssociative, Operator, Order};
pub use read::read_term;
pub use words::operator_named;
pub use write::write_term;
