//! A module for each subject.

mod outside;
mod runs;
mod tables;
