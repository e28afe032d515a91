//! The call that does all that the program does, and the steps that it takes: read, search, write.
//!
//! Nothing is written to `out` before the work is done, and a failure is told on `notes` alone.

ghost use Rattle.std.specs.Prelude.{◌≡◌, ◌≢◌, ◌≤◌, ◌++◌, ℕ, List, Some, IsErrOf, IsTrue, map, ◌⊎◌, ◌↔◌};
ghost use Rattle.std.specs.Prelude.{MatchResult};
ghost use Rattle.std.specs.String.{string_bytes};
ghost use Rattle.isel_spec.specs.File.{File};
ghost use Rattle.isel_base.specs.Outside.{Rose, HasPrefix, ReadsOnly};
ghost use Rattle.isel_cmd.specs.declared.refusal.Reason.{Reason};
ghost use Rattle.isel_cmd.specs.Words.{Task, IsTask, HasNoForm, Synth, file_of, bound_of};
ghost use Rattle.isel_cmd.specs.Refusal.{IsReason, refusal_line};
ghost use Rattle.isel_cmd.specs.Status.{number_of, done_status, failure_status, failure_line, memory_line, IsDone};
ghost use Rattle.isel_cmd.specs.Program.{IsAccepted, IsWork, IsSomeWork, IsRefused, IsCause, IsNote, IsSomeNote};
ghost use Rattle.isel_cmd.specs.Program.{Writes, WritesAtMostPart, IsTaskStatus, with_text, no_form_line};

use crate::accepted::accepted;
use crate::library::{Library, library_of};
use crate::refusal::{Failure, line_of, status_of};
use crate::status::Status;
use crate::words::parse;
use isel_base::{Files, Sink, put_all};
use std::alloc::{AllocError, Global};

/// The library of the file of that name.
fn library_for<F: Files>(
    alloc: Global,
    files: &mut F,
    name: &str,
    bound: u8,
    budget: u64,
) -> Result<Library, Failure>
    requires bound { bound ≤ 6 }
    requires budget { 1 ≤ budget }
    ensures outcome { MatchResult result
        (λ l. IsWork (F.bytes files.old) (Synth name.now bound budget) (done_status l.is_open) (string_bytes l.text))
        (IsCause (F.bytes files.old) (λ other. Rose (F.faults files.old other) (F.faults files.new other)) name.now
        bound) }
    ensures only { ReadsOnly F.read_leaves name.now files.old files.new }
    ensures steady { IsTrue (F.never_fails files.old name.now) → ¬ IsErrOf result Failure.ReadFault }
    ensures counts { (other : List ℕ) → F.faults files.old other ≤ F.faults files.new other }
    ensures same { (other : List ℕ) → F.bytes files.new other ≡ F.bytes files.old other }
    ensures stays { (other : List ℕ) → IsTrue (F.never_fails files.old other) →
        IsTrue (F.never_fails files.new other) }
{
    let accepted = match accepted(alloc, files, name, bound) {
        Ok(accepted) => accepted,
        Err(failure) => return Err(failure),
    };
    match library_of(alloc, &accepted.spec, accepted.plan, budget) {
        Ok(library) => Ok(library),
        Err(AllocError) => Err(Failure::NoMemory),
    }
}

/// Writes a line to `notes` and answers a status; `WriteFailed` where that fails.
fn tell<E: Sink>(notes: &mut E, text: &[u8], status: Status) -> Status
    requires { number_of status ≢ 5 }
    ensures status { (number_of result ≡ number_of status) ⊎ (number_of result ≡ 5) }
    ensures count { E.faults notes.old ≤ E.faults notes.new }
    ensures told { number_of result ≢ 5 → E.written notes.new ≡ with_text text.now (E.written notes.old) }
    ensures cut { number_of result ≡ 5 → HasPrefix (E.written notes.old) text.now (E.written notes.new) }
    ensures cause { number_of result ≡ 5 → Rose (E.faults notes.old) (E.faults notes.new) }
{
    match put_all(notes, text) {
        Ok(()) => status,
        Err(_) => Status::WriteFailed,
    }
}

/// Writes the line of a failure to `notes`.
fn refuse<E: Sink>(alloc: Global, notes: &mut E, name: &str, failure: Failure) -> Status
    ensures status { (number_of result ≡ failure_status failure) ⊎ (number_of result ≡ 5) ⊎ (number_of result ≡ 6) }
    ensures told { number_of result ≢ 5 → number_of result ≢ 6 →
        E.written notes.new ≡ with_text (failure_line name.now failure) (E.written notes.old) }
    ensures told_memory { number_of result ≡ 6 → E.written notes.new ≡ with_text memory_line (E.written notes.old) }
    ensures cut { number_of result ≡ 5 →
        HasPrefix (E.written notes.old) (failure_line name.now failure) (E.written notes.new)
        ⊎ HasPrefix (E.written notes.old) memory_line (E.written notes.new) }
    ensures count { E.faults notes.old ≤ E.faults notes.new }
    ensures cause { number_of result ≡ 5 → Rose (E.faults notes.old) (E.faults notes.new) }
{
    match line_of(alloc, name, failure) {
        Ok(line) => tell(notes, line.as_bytes(), status_of(failure)),
        Err(_) => tell(notes, b"memory\n", Status::NoMemory),
    }
}

/// The status where the work is done, by whether a claim is listed as undecided.
fn done(is_open: bool) -> Status
    ensures { number_of result ≡ done_status is_open }
{
    if is_open { Status::Open } else { Status::Done }
}

/// Writes a library to `out`.
fn deliver<S: Sink>(out: &mut S, library: &Library) -> Status
    ensures status { (number_of result ≡ done_status library.now.is_open) ⊎ (number_of result ≡ 5) }
    ensures done { number_of result ≢ 5 →
        S.written out.new ≡ with_text (string_bytes library.now.text) (S.written out.old) }
    ensures cut { number_of result ≡ 5 →
        HasPrefix (S.written out.old) (string_bytes library.now.text) (S.written out.new) }
    ensures cause { number_of result ≡ 5 → Rose (S.faults out.old) (S.faults out.new) }
    ensures count { S.faults out.old ≤ S.faults out.new }
{
    match put_all(out, library.text.as_bytes()) {
        Ok(()) => done(library.is_open),
        Err(_) => Status::WriteFailed,
    }
}

/// Writes the library of the file of that name to `out`.
fn synth<F: Files, S: Sink, E: Sink>(
    alloc: Global,
    files: &mut F,
    out: &mut S,
    notes: &mut E,
    name: &str,
    bound: u8,
    budget: u64,
) -> Status
    requires bound { bound ≤ 6 }
    requires budget { 1 ≤ budget }
    ensures status { IsTaskStatus (number_of result) }
    ensures headline { IsDone (number_of result) →
        Writes (IsWork (F.bytes files.old) (Synth name.now bound budget) (number_of result)) (S.written out.old)
        (S.written out.new) }
    ensures line { number_of result ≢ 5 → Writes (IsNote (F.bytes files.old)
        (λ other. Rose (F.faults files.old other) (F.faults files.new other)) (Synth name.now bound budget)
        (number_of result)) (E.written notes.old) (E.written notes.new) }
    ensures cut { number_of result ≡ 5 →
        WritesAtMostPart (IsSomeWork (F.bytes files.old) (Synth name.now bound budget)) (S.written out.old)
        (S.written out.new) }
    ensures cut_line { number_of result ≡ 5 → WritesAtMostPart (IsSomeNote (F.bytes files.old)
        (λ other. Rose (F.faults files.old other) (F.faults files.new other)) (Synth name.now bound budget))
        (E.written notes.old) (E.written notes.new) }
    ensures write_fault { number_of result ≡ 5 → Rose (S.faults out.old) (S.faults out.new) ⊎
        Rose (E.faults notes.old) (E.faults notes.new) }
    ensures one_fails { number_of result ≡ 5 →
        ((S.written out.new ≡ S.written out.old) × Rose (E.faults notes.old) (E.faults notes.new)) ⊎
        ((E.written notes.new ≡ E.written notes.old) × Rose (S.faults out.old) (S.faults out.new)) }
    ensures out_left { ¬ IsDone (number_of result) → number_of result ≢ 5 → out.new ≡ out.old }
    ensures only { ReadsOnly F.read_leaves name.now files.old files.new }
    ensures steady { IsTrue (F.never_fails files.old name.now) → number_of result ≢ 4 }
    ensures files_count { (other : List ℕ) → F.faults files.old other ≤ F.faults files.new other }
    ensures files_same { (other : List ℕ) → F.bytes files.new other ≡ F.bytes files.old other }
    ensures files_stay { (other : List ℕ) → IsTrue (F.never_fails files.old other) →
        IsTrue (F.never_fails files.new other) }
    ensures out_count { S.faults out.old ≤ S.faults out.new }
    ensures notes_count { E.faults notes.old ≤ E.faults notes.new }
    ensures notes_left { IsDone (number_of result) → notes.new ≡ notes.old }
    ensures one_left { number_of result ≡ 5 → (out.new ≡ out.old) ⊎ (notes.new ≡ notes.old) }
{
    match library_for(alloc, files, name, bound, budget) {
        Ok(library) => deliver(out, &library),
        Err(failure) => refuse(alloc, notes, name, failure),
    }
}

/// The statuses, for readers of the contract: 0 the library was written; 1 it was, and lists an undecided claim; 2 the
/// words have no form; 3 the file is refused; 4 the file could not be read; 5 a write failed; 6 memory ran out.
///
/// All that the program does: the words of the command line, without the program's name, are
/// looked at, the named file is read from `files`, its library is written to `out`, and where that is
/// not to be done a line says so on `notes`.
pub fn run_here<F: Files, S: Sink, E: Sink>(
    alloc: Global,
    words: &[String],
    files: &mut F,
    out: &mut S,
    notes: &mut E,
) -> u8
    // The bytes of the named file are a file that is not refused, and what this call appended to `out` is the text of
    // an answer for each of its goals: its rules are right on every input; where no claim is listed as undecided they
    // are complete for the bound, and the whole budget was spent on each claim that is. Status 1 comes exactly where
    // the work is done and a claim is listed as undecided.
    ensures headline { (task : Task) → IsTask (map string_bytes words.now) task → IsDone result →
        Writes (IsWork (F.bytes files.old) task result) (S.written out.old) (S.written out.new) }

    // Status 2 comes exactly where the words have no form, unless the line could not be written.
    ensures no_form { result ≡ 2 → HasNoForm (map string_bytes words.now) }
    ensures no_form_only { HasNoForm (map string_bytes words.now) → (result ≡ 2) ⊎ (result ≡ 5) }
    ensures form { (task : Task) → IsTask (map string_bytes words.now) task → IsTaskStatus result }

    // It comes exactly where they have none and the line was written, where `notes` tells its bytes.
    ensures no_form_exact { (before : List ℕ) → E.written notes.old ≡ Some before →
        ((result ≡ 2) ↔ (HasNoForm (map string_bytes words.now)
        × (E.written notes.new ≡ Some (before ++ no_form_line)))) }

    // What is written to `notes`: nothing where the work is done, else the line of the status, whose cause holds: the
    // bytes are refused for the reason that it says, or reading them failed. With status 5 a part of a line whose cause
    // holds, or nothing.
    ensures line { (task : Task) → IsTask (map string_bytes words.now) task → result ≢ 5 →
        Writes (IsNote (F.bytes files.old) (λ other. Rose (F.faults files.old other) (F.faults files.new other)) task
        result) (E.written notes.old) (E.written notes.new) }
    ensures no_form_line { result ≡ 2 → E.written notes.new ≡ with_text no_form_line (E.written notes.old) }
    ensures cut_line { (task : Task) → IsTask (map string_bytes words.now) task → result ≡ 5 →
        WritesAtMostPart (IsSomeNote (F.bytes files.old)
        (λ other. Rose (F.faults files.old other) (F.faults files.new other)) task)
        (E.written notes.old) (E.written notes.new) }
    ensures cut_no_form_line { HasNoForm (map string_bytes words.now) → result ≡ 5 →
        HasPrefix (E.written notes.old) no_form_line (E.written notes.new) }

    // A file that is refused has no library. Its bytes have one reason, and so its line is theirs.
    ensures refused_only { (task : Task) (bytes : List ℕ) (reason : Reason) →
        IsTask (map string_bytes words.now) task → F.bytes files.old (file_of task) ≡ Some bytes →
        IsReason bytes (bound_of task) reason → ¬ IsDone result }
    ensures refused_line { (task : Task) (bytes : List ℕ) (reason : Reason) →
        IsTask (map string_bytes words.now) task → F.bytes files.old (file_of task) ≡ Some bytes →
        IsReason bytes (bound_of task) reason → result ≡ 3 →
        E.written notes.new ≡ with_text (refusal_line (file_of task) reason) (E.written notes.old) }

    // Status 3 comes exactly where the line of a refused file was written, and so where it is refused, where `notes`
    // tells its bytes.
    ensures refused_exact { (task : Task) (before : List ℕ) → IsTask (map string_bytes words.now) task →
        E.written notes.old ≡ Some before →
        ((result ≡ 3) ↔ ((text : List ℕ) × IsRefused (F.bytes files.old) task text
        × (E.written notes.new ≡ Some (before ++ text)))) }

    // A write fails only where the count of its object rose in this call.
    ensures write_fault { result ≡ 5 → Rose (S.faults out.old) (S.faults out.new) ⊎
        Rose (E.faults notes.old) (E.faults notes.new) }

    // Where `out` failed nothing is written to `notes`; where `notes` failed nothing is written to `out`.
    ensures one_fails { result ≡ 5 →
        ((S.written out.new ≡ S.written out.old) × Rose (E.faults notes.old) (E.faults notes.new)) ⊎
        ((E.written notes.new ≡ E.written notes.old) × Rose (S.faults out.old) (S.faults out.new)) }

    // Nothing is written to `out` before the work is done, and a part of the text where a write fails.
    ensures untouched { ¬ IsDone result → result ≢ 5 → S.written out.new ≡ S.written out.old }
    ensures no_form_untouched { HasNoForm (map string_bytes words.now) → S.written out.new ≡ S.written out.old }
    ensures cut { (task : Task) → IsTask (map string_bytes words.now) task → result ≡ 5 →
        WritesAtMostPart (IsSomeWork (F.bytes files.old) task) (S.written out.old) (S.written out.new) }

    // No file but the named one is read. What the source tells stays, and counts never fall.
    ensures reads_only { (task : Task) → IsTask (map string_bytes words.now) task →
        ReadsOnly F.read_leaves (file_of task) files.old files.new }
    ensures files_count { (other : List ℕ) → F.faults files.old other ≤ F.faults files.new other }
    ensures files_same { (other : List ℕ) → F.bytes files.new other ≡ F.bytes files.old other }
    ensures files_stay { (other : List ℕ) → IsTrue (F.never_fails files.old other) →
        IsTrue (F.never_fails files.new other) }
    ensures out_count { S.faults out.old ≤ S.faults out.new }
    ensures notes_count { E.faults notes.old ≤ E.faults notes.new }

    // Where the bytes are a file that is not refused and no count rose, the work is done, unless memory ran out. A name
    // that never fails is read.
    ensures complete { (task : Task) (bytes : List ℕ) (f : File) → IsTask (map string_bytes words.now) task →
        F.bytes files.old (file_of task) ≡ Some bytes → IsAccepted bytes (bound_of task) f →
        ¬ Rose (F.faults files.old (file_of task)) (F.faults files.new (file_of task)) →
        ¬ Rose (S.faults out.old) (S.faults out.new) → ¬ Rose (E.faults notes.old) (E.faults notes.new) →
        IsDone result ⊎ (result ≡ 6) }
    ensures steady { (task : Task) → IsTask (map string_bytes words.now) task →
        IsTrue (F.never_fails files.old (file_of task)) → result ≢ 4 }

    // What is not to be used is left as it was, also where it tells nothing.
    ensures out_left { ¬ IsDone result → result ≢ 5 → out.new ≡ out.old }
    ensures notes_left { IsDone result → notes.new ≡ notes.old }
    ensures one_left { result ≡ 5 → (out.new ≡ out.old) ⊎ (notes.new ≡ notes.old) }
    ensures no_form_left { HasNoForm (map string_bytes words.now) → (files.new ≡ files.old) × (out.new ≡ out.old) }
{
    match parse(words) {
        None => tell(notes, b"words: no such form\n", Status::NoForm).number(),
        Some(command) => {
            let (name, bound, budget) = (command.file(), command.bound(), command.budget());
            synth(alloc, files, out, notes, name, bound, budget).number()
        }
    }
}
