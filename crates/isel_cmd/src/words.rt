//! The form of the command line, and the command that words of that form are. Words are of one form at
//! most.

ghost use Rattle.std.specs.Prelude.{◌≡◌, ℕ, List, map, MatchOption, IfSome, IfNone, IsTrue, ◌↔◌, ◌≤◌, ◌^◌};
ghost use Rattle.std.specs.String.{string_bytes};
ghost use Rattle.std.specs.Fmt.{decimal};
ghost use Rattle.isel_cmd.specs.Words.{IsFileName, HasNoForm, file_of, bound_of, budget_of};
ghost use Rattle.isel_cmd.specs.Command.{IsCommand, task_of};

use sexp_read::numeral_between;

/// The largest budget.
const MOST_BUDGET: u64 = 1 << 32;

/// What the words ask for.
#[derive(Clone, Copy, Debug)]
pub enum Command<'a> {
    /// To write the library of the file of that name, for patterns of at most `bound` operations, with `budget` units
    /// of work for each goal with a multiset of operations.
    Synth {
        file: &'a str,
        bound: u8,
        budget: u64,
    },
}

impl<'a> Command<'a> {
    /// The name of the file that the command reads.
    pub fn file(self) -> &'a str
        ensures { result.now ≡ file_of (task_of self.entry) }
    {
        let Command::Synth { file, .. } = self;
        file
    }

    /// How many operations a pattern may have.
    pub fn bound(self) -> u8
        ensures { result ≡ bound_of (task_of self.entry) }
    {
        let Command::Synth { bound, .. } = self;
        bound
    }

    /// How many units of work each goal with a multiset of operations may take.
    pub fn budget(self) -> u64
        ensures { result ≡ budget_of (task_of self.entry) }
    {
        let Command::Synth { budget, .. } = self;
        budget
    }
}

/// Whether a word may name a file: it is not empty and does not begin with a dash.
fn is_file_name(word: &str) -> bool
    ensures { IsTrue result ↔ IsFileName word.now }
{
    match word.as_bytes().first() {
        Some(first) => *first != b'-',
        None => false,
    }
}

/// The bound that a word says.
fn bound_of(word: &str) -> Option<u8>
    ensures some { IfSome result (λ bound. (word.now ≡ decimal bound) × (bound ≤ 6)) }
    ensures none { IfNone result ((bound : ℕ) → bound ≤ 6 → word.now ≡ decimal bound → ⊥) }
{
    match numeral_between(0, 6, word.as_bytes()) {
        Some(bound) => Some(bound as u8),
        None => None,
    }
}

/// The budget that a word says.
fn budget_of(word: &str) -> Option<u64>
    ensures some { IfSome result (λ budget. (word.now ≡ decimal budget) × (1 ≤ budget) × (budget ≤ 2 ^ 32)) }
    ensures none { IfNone result ((budget : ℕ) → 1 ≤ budget → budget ≤ 2 ^ 32 → word.now ≡ decimal budget → ⊥) }
{
    numeral_between(1, MOST_BUDGET, word.as_bytes())
}

/// The command that the words are, or `None` where they have no form.
pub fn parse(words: &[String]) -> Option<Command<'_>>
    ensures { MatchOption result (HasNoForm (map string_bytes words.now)) (IsCommand (map string_bytes words.now)) }
{
    let [command, file, bound_flag, bound, budget_flag, budget] = words else {
        return None;
    };
    let file = file.as_str();
    if command.as_str() != "synth" {
        return None;
    }
    if bound_flag.as_str() != "--bound" {
        return None;
    }
    if budget_flag.as_str() != "--budget" {
        return None;
    }
    if !is_file_name(file) {
        return None;
    }
    let Some(bound) = bound_of(bound.as_str()) else {
        return None;
    };
    let Some(budget) = budget_of(budget.as_str()) else {
        return None;
    };
    Some(Command::Synth {
        file,
        bound,
        budget,
    })
}
