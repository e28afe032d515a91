//! Tests, by what they are about.

mod boards;
mod machine;
mod notes;
mod waiting;
