//! A module for each subject.

mod asking;
mod enumerated;
mod given;
mod patterns;
