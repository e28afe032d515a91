//! What was written is read as the same answers: the law of the writer and the reader of a library.

ghost use Rattle.isel_spec.specs.Spec.{file};
ghost use Rattle.pattern_text.specs.RoundTrip.{WrittenIsRead};

use isel_spec::Spec;
use pattern_core::GoalAnswer;

/// Answers for a file's goals, with at most 65,536 canonical rules in all, are what their text says.
pub fn written_is_read(spec: &Spec, _answers: &[GoalAnswer])
    ensures { WrittenIsRead (file spec.now) _answers.now }
{
    // That the terms make a table, and so are well-sorted, is known from a call alone.
    spec.terms.len();
}
