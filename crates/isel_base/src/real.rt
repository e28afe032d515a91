//! The files and streams of the system. They are trusted, and tell no bytes; each counts its failures,
//! and a count that stands at its last value stays there.

ghost use Rattle.std.specs.Prelude.{◌≡◌, None, IfOk, ◌≤◌, length, false};

use crate::traits::{Failed, Files, Sink};
use std::io::{Read, Seek, SeekFrom, Write};
use std::{fs, io};

/// The files of the system, through a runtime. Each read opens the file anew. What the files hold is
/// not told: that the system gives a file's bytes is trusted.
#[derive(Drop)]
pub struct RealFiles<'a, R> {
    rt: &'a R,
    faults: u64,
}

impl<'a, R: std::rt::Files> RealFiles<'a, R> {
    /// The files that the runtime reaches.
    pub fn new(rt: &'a R) -> RealFiles<'a, R> {
        RealFiles { rt, faults: 0 }
    }

    /// How many reads have failed, of all names together.
    pub fn faults(&self) -> u64
        ensures { result ≡ self.now.faults }
    {
        self.faults
    }
}

/// Opens a file and reads from a place on.
fn read_at<R: std::rt::Files>(rt: &R, name: &str, place: u64, into: &mut [u8]) -> io::Result<usize>
    ensures { IfOk result (λ n. n ≤ length into.new) }
{
    let mut file = fs::open(rt, name)?;
    file.seek(SeekFrom::Start(place))?;
    file.read(into)
}

impl<R: std::rt::Files> Files for RealFiles<'_, R> {
    ghost faults = { λ s _. s.faults };

    ghost bytes = { λ _ _. None };

    ghost never_fails = { λ _ _. false };

    ghost read_leaves = { λ _ _ _. Unit {0} };

    fn read(&mut self, name: &str, place: u64, into: &mut [u8]) -> Result<usize, Failed> {
        match read_at(self.rt, name, place, into) {
            Ok(count) => Ok(count),
            Err(_) => {
                self.faults = self.faults.saturating_add(1);
                Err(Failed)
            }
        }
    }
}

/// A stream of the system. What it holds is not told: that the system keeps the bytes is trusted.
#[derive(Drop)]
pub struct RealOut<W> {
    to: W,
    faults: u64,
}

impl<W: Write> RealOut<W> {
    /// The stream that the writer writes.
    pub fn new(to: W) -> RealOut<W> {
        RealOut { to, faults: 0 }
    }

    /// How many writes have failed.
    pub fn faults(&self) -> u64
        ensures { result ≡ self.now.faults }
    {
        self.faults
    }
}

impl<W: Write> Sink for RealOut<W> {
    ghost faults = { λ s. s.faults };

    ghost written = { λ _. None };

    fn put(&mut self, bytes: &[u8]) -> Result<usize, Failed> {
        match self.to.write(bytes) {
            Ok(count) if count > 0 || bytes.is_empty() => Ok(count),
            _ => {
                self.faults = self.faults.saturating_add(1);
                Err(Failed)
            }
        }
    }
}
