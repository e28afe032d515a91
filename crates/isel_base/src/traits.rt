//! The traits of the outside: a source of files by name, and a stream that is written.
//!
//! Each object counts its faults, and the count never falls. So a caller can say of a fault of its own
//! that it comes only where that count rose during the call.

ghost use Rattle.std.specs.Prelude.{◌≡◌, ◌≤◌, ℕ, List, Option, Bool, IsTrue, IfOk, IfSome, IsSome, IsOk, OnErr, length};
ghost use Rattle.isel_base.specs.Outside.{Rose, IsReadAt, IsAppended, NothingOnlyWhereRose};

/// A read or a write that failed.
#[derive(Clone, Copy, Debug, PartialEq, Eq)]
pub struct Failed;

/// A source of files by name.
pub trait Files {
    /// How often reading a name has failed. The count never falls.
    ghost faults: { Self → List ℕ → ℕ };

    /// The bytes of a name, where the source tells them.
    ghost bytes: { Self → List ℕ → Option (List ℕ) };

    /// Whether no read of a name fails from now on. A source that cannot know says no.
    ghost never_fails: { Self → List ℕ → Bool };

    /// What one read of a name may leave of the source.
    ghost read_leaves: { Self → List ℕ → Self → Type 0 };

    /// Reads bytes of a file from a place on, counted in bytes from 0: as many as are answered, at the
    /// front of `into`. It answers 0 at the end, if `into` is not empty. A name that cannot be opened
    /// is a failure.
    fn read(&mut self, name: &str, place: u64, into: &mut [u8]) -> Result<usize, Failed>
        ensures within { IfOk result (λ n. n ≤ length into.new) }
        ensures told { IfSome (bytes self.old name.now) (λ all. IfOk result (IsReadAt all place into.new)) }
        ensures cause { OnErr result (Rose (faults self.old name.now) (faults self.new name.now)) }
        ensures counts { (other : List ℕ) → faults self.old other ≤ faults self.new other }
        ensures same { (other : List ℕ) → bytes self.new other ≡ bytes self.old other }
        ensures leaves { read_leaves self.old name.now self.new }

        // A name that isn't told has a count of its own.
        ensures apart { bytes self.old name.now ≡ None → (other : List ℕ) → IsSome (bytes self.old other) →
            faults self.new other ≡ faults self.old other }

        // A name that never fails doesn't, and goes on so.
        ensures steady { IsTrue (never_fails self.old name.now) → IsOk result }
        ensures stays { (other : List ℕ) → IsTrue (never_fails self.old other) →
            IsTrue (never_fails self.new other) };
}

/// A stream that is written.
pub trait Sink {
    /// How often a write has failed. The count never falls.
    ghost faults: { Self → ℕ };

    /// The bytes that were written so far, where the sink tells them.
    ghost written: { Self → Option (List ℕ) };

    /// Appends the first bytes of a piece, as many as are answered. After an `Err` none were.
    fn put(&mut self, bytes: &[u8]) -> Result<usize, Failed>
        ensures within { IfOk result (λ n. n ≤ length bytes.now) }
        ensures told { IsAppended (written self.old) bytes.now result (written self.new) }
        ensures cause { NothingOnlyWhereRose bytes.now result (faults self.old) (faults self.new) }
        ensures counts { faults self.old ≤ faults self.new };
}
