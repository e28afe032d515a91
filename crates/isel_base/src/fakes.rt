//! Files and streams in memory, for tests: they tell their bytes, take or give at most `step` bytes at a
//! time, and fail at the calls whose numbers they are given. `step` is at least 1.

ghost use Rattle.std.specs.Prelude.{◌≡◌, ◌≤◌, ◌<◌, ℕ, List, [], None, Some, Ok, Bool, IfOk, IfSome, IsOk, IsErr};
ghost use Rattle.std.specs.Prelude.{IsSome, IsTrue};
ghost use Rattle.std.specs.Prelude.{OnErr, MatchOption, length, map, take, drop, min, option_map, is_some, IsNone};
ghost use Rattle.std.specs.Prelude.{find, ◌==◌};
ghost use Rattle.std.specs.String.{string_bytes};
ghost use Rattle.isel_base.specs.Outside.{Rose, IsReadAt, IsAppended, NothingOnlyWhereRose};
ghost use Rattle.std.specs.Cmp.Lexicographic.{pointwise};
ghost use Rattle.isel_base.specs.Fakes.{file_bytes, fault_count, is_failing, counted, read_gives, after_read};
ghost use Rattle.isel_base.specs.Fakes.{after_put, has_no_failing};

use crate::traits::{Failed, Files, Sink};
use std::alloc::Global;
use std::marker::Model;

/// Files in memory. They tell the bytes of the names that are there. Contracts see them as
/// `MemoryFiles` of `specs/Fakes`.
#[derive(Debug, Drop)]
pub struct MemFiles {
    files: Vec<(String, Vec<u8>)>,
    step: usize,
    failing: Vec<u64>,
    reads: u64,
    faults: u64,
    faults_elsewhere: u64,
}

impl Model for MemFiles {
    ghost use Rattle.std.specs.Prelude.{◌≤◌, map};
    ghost use Rattle.std.specs.String.{string_bytes};
    ghost use Rattle.isel_base.specs.Fakes.{MemoryFiles};

    ghost Value = { MemoryFiles };

    ghost view = { λ s. record {
      files = map (λ e. (string_bytes e.0, e.1.items)) s.files.items;
      step = s.step;
      failing = s.failing.items;
      reads = s.reads;
      faults = s.faults;
      faults_elsewhere = s.faults_elsewhere;
    } };

    ghost invariant = { λ s. 1 ≤ s.step };
}

impl MemFiles {
    /// Files with their bytes; of files with one name the first counts. A read gives at most `step`
    /// bytes. The reads whose numbers, counted from 0, stand in `failing` fail.
    pub fn new(files: Vec<(String, Vec<u8>)>, step: usize, failing: Vec<u64>) -> MemFiles
        requires { 1 ≤ step }
        ensures { result ≡ record {
          files = map (λ e. (string_bytes e.0, e.1.items)) files.items;
          step = step;
          failing = failing.items;
          reads = 0;
          faults = 0;
          faults_elsewhere = 0;
        } }
    {
        MemFiles {
            files,
            step,
            failing,
            reads: 0,
            faults: 0,
            faults_elsewhere: 0,
        }
    }
}

/// The first of the files that has this name.
fn file_named<'a>(files: &'a [(String, Vec<u8>)], name: &str) -> Option<&'a (String, Vec<u8>)>
    ensures { option_map (λ e. e.now) result
        ≡ find (λ e. pointwise ◌==◌ (string_bytes e.0) name.now) files.now }
{
    files.iter().find(|entry| entry.0.as_str() == name)
}

/// Copies the bytes from a place on to the front of a buffer, at most that many.
fn copy_from(bytes: &[u8], place: u64, most: usize, into: &mut [u8]) -> usize
    requires { most ≤ length into.old }
    ensures count { result ≡ length (take most (drop place bytes.now)) }
    ensures copied { take result into.new ≡ take most (drop place bytes.now) }
{
    let start = place.min(bytes.len() as u64) as usize;
    let rest = &bytes[start..];
    let count = rest.len().min(most);
    into[..count].copy_from_slice(&rest[..count]);
    count
}

/// Reads a file that is there.
#[tactic(auto, using(crate::proofs::FakeLemmas::file_bytes_of_map))]
fn read_named(
    files: &[(String, Vec<u8>)],
    name: &str,
    place: u64,
    most: usize,
    into: &mut [u8],
) -> Option<usize>
    requires { most ≤ length into.old }
    ensures { MatchOption
        (option_map (λ all. take most (drop place all))
        (file_bytes (map (λ e. (string_bytes e.0, e.1.items)) files.now) name.now))
        (IsNone result) (λ got. (result ≡ Some (length got)) × (take (length got) into.new ≡ got)) }
{
    let file = file_named(files, name)?;
    Some(copy_from(&file.1, place, most, into))
}

/// Whether a file of that name is there.
#[tactic(auto, using(crate::proofs::FakeLemmas::there))]
fn is_there(files: &[(String, Vec<u8>)], name: &str) -> bool
    ensures { result ≡ is_some (file_bytes (map (λ e. (string_bytes e.0, e.1.items)) files.now) name.now) }
{
    file_named(files, name).is_some()
}

/// A count that is one greater where the call fails, unless it stands at its last value.
fn counted(fails: bool, count: u64) -> u64
    ensures { result ≡ counted fails count }
{
    if fails {
        count.saturating_add(1)
    } else {
        count
    }
}

/// Whether the call of that number fails.
fn is_failing(failing: &[u64], number: u64) -> bool
    ensures { result ≡ is_failing failing.now number }
{
    failing.iter().any(|fails| number == *fails)
}

impl Files for MemFiles {
    ghost faults = { fault_count };

    ghost bytes = { λ s name. file_bytes s.files name };

    ghost never_fails = { has_no_failing };

    ghost read_leaves = { λ s name t. t ≡ after_read s name };

    // The clauses of the trait, and then what this source answers and leaves, exactly.
    fn read(&mut self, name: &str, place: u64, into: &mut [u8]) -> Result<usize, Failed>
        ensures within { IfOk result (λ n. n ≤ length into.new) }
        ensures told { IfSome (file_bytes self.old.files name.now) (λ all. IfOk result (IsReadAt all place into.new)) }
        ensures cause { OnErr result (Rose (fault_count self.old name.now) (fault_count self.new name.now)) }
        ensures counts { (other : List ℕ) → fault_count self.old other ≤ fault_count self.new other }
        ensures same { (other : List ℕ) → file_bytes self.new.files other ≡ file_bytes self.old.files other }
        ensures leaves { self.new ≡ after_read self.old name.now }
        ensures apart { file_bytes self.old.files name.now ≡ None → (other : List ℕ) →
            IsSome (file_bytes self.old.files other) →
            fault_count self.new other ≡ fault_count self.old other }
        ensures steady { IsTrue (has_no_failing self.old name.now) → IsOk result }
        ensures stays { (other : List ℕ) → IsTrue (has_no_failing self.old other) →
            IsTrue (has_no_failing self.new other) }
        ensures gives { MatchOption (read_gives self.old name.now place (length into.old)) (IsErr result)
            (λ got. (result ≡ Ok (length got)) × (take (length got) into.new ≡ got)) }
    {
        let here = is_there(&self.files, name);
        let fails = is_failing(&self.failing, self.reads);
        self.reads = counted(true, self.reads);
        self.faults = counted(here & fails, self.faults);
        self.faults_elsewhere = counted(!here, self.faults_elsewhere);
        if fails {
            return Err(Failed);
        }
        let most = self.step.min(into.len());
        let Some(count) = read_named(&self.files, name, place, most, into) else {
            return Err(Failed);
        };
        Ok(count)
    }
}

/// A stream in memory. It tells the bytes that were written. Contracts see it as `MemoryStream` of
/// `specs/Fakes`.
#[derive(Debug, Drop)]
pub struct MemSink {
    bytes: Vec<u8>,
    step: usize,
    failing: Vec<u64>,
    puts: u64,
    faults: u64,
}

impl Model for MemSink {
    ghost use Rattle.std.specs.Prelude.{◌≤◌};
    ghost use Rattle.isel_base.specs.Fakes.{MemoryStream};

    ghost Value = { MemoryStream };

    ghost view = { λ s. record {
      bytes = s.bytes.items;
      step = s.step;
      failing = s.failing.items;
      puts = s.puts;
      faults = s.faults;
    } };

    ghost invariant = { λ s. 1 ≤ s.step };
}

impl MemSink {
    /// An empty stream. A put takes at most `step` bytes. The puts whose numbers, counted from 0,
    /// stand in `failing` fail, and so does a put that finds no memory.
    pub fn new(alloc: Global, step: usize, failing: Vec<u64>) -> MemSink
        requires { 1 ≤ step }
        ensures { result ≡ record { bytes = []; step = step; failing = failing.items; puts = 0; faults = 0 } }
    {
        MemSink {
            bytes: Vec::new(alloc),
            step,
            failing,
            puts: 0,
            faults: 0,
        }
    }

    /// The bytes that were written so far.
    pub fn bytes(&self) -> &[u8]
        ensures { result.now ≡ self.now.bytes }
    {
        self.bytes.as_slice()
    }
}

impl Sink for MemSink {
    ghost faults = { λ s. s.faults };

    ghost written = { λ s. Some s.bytes };

    // The clauses of the trait, and then what this stream answers and leaves: a put that is not to fail
    // takes as many bytes as it may, or finds no memory.
    fn put(&mut self, bytes: &[u8]) -> Result<usize, Failed>
        ensures within { IfOk result (λ n. n ≤ length bytes.now) }
        ensures told { IsAppended (Some self.old.bytes) bytes.now result (Some self.new.bytes) }
        ensures cause { NothingOnlyWhereRose bytes.now result self.old.faults self.new.faults }
        ensures counts { self.old.faults ≤ self.new.faults }
        ensures fails { IsTrue (is_failing self.old.failing self.old.puts) → IsErr result }
        ensures takes { IfOk result (λ n. n ≡ min (length bytes.now) self.old.step) }
        ensures leaves { self.new ≡ after_put self.old bytes.now result }
    {
        let fails = is_failing(&self.failing, self.puts);
        self.puts = counted(true, self.puts);
        let count = bytes.len().min(self.step);
        if fails || self.bytes.extend_from_slice(&bytes[..count]).is_err() {
            self.faults = counted(true, self.faults);
            return Err(Failed);
        }
        Ok(count)
    }
}
