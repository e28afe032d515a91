//! How claims are dealt out to workers, as a pure machine: what threads do in one order or another is a list of
//! events here, each one step of one worker.
//!
//! - `event`: [`Event`], a step of a worker; [`Held`], what a worker has.
//! - `machine`: [`Core`], the machine that takes events; [`Least`], what it knows of an entry;
//!   [`lesser`], the lesser of two sizes.
//! - `laws`: what holds after every list of events, and at the end.
//!
//! `specs/Machine` says which events may come and what each of them does, and `specs/Laws` what each list of events
//! leaves.
#![tactic(auto)]

mod event;
mod laws;
mod machine;

pub use event::{Event, Held};
pub use laws::{claims_are_dealt_once, claims_end_in_the_book};
pub use machine::{Core, Least, lesser};
