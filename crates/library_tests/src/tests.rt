//! A module for each subject.

mod books;
