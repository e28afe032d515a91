//! The lines of a text and the words of a line.

ghost use Rattle.std.specs.Prelude.{◌≡◌, IfOk, map};
ghost use Rattle.std.specs.Str.{bytes_eq};
ghost use Rattle.dimacs.specs.Text.{lines, is_gap, words, is_comment};

use std::alloc::{AllocError, Global};

/// The lines of a text, without their line feeds. What follows the last line feed is a line, also where it is empty.
pub(crate) fn lines(alloc: Global, bytes: &[u8]) -> Result<Vec<&[u8]>, AllocError>
    ensures { IfOk result (λ found. map (λ line. line.now) found.items ≡ lines bytes.now) }
{
    bytes.split(|byte| *byte == b'\n').collect(alloc)
}

fn is_gap(byte: u8) -> bool
    ensures { result ≡ is_gap byte }
{
    byte == b' ' || byte == b'\t'
}

/// The words of a line, which blanks and tabs part.
pub(crate) fn words(alloc: Global, line: &[u8]) -> Result<Vec<&[u8]>, AllocError>
    ensures { IfOk result (λ found. map (λ word. word.now) found.items ≡ words line.now) }
{
    line.split(|byte| is_gap(*byte))
        .filter(|word| !word.is_empty())
        .collect(alloc)
}

/// Whether two words are the same.
pub(crate) fn is_word(word: &[u8], other: &[u8]) -> bool
    ensures { result ≡ bytes_eq word.now other.now }
{
    word == other
}

/// Whether a line that begins with this word is a comment.
pub(crate) fn is_comment(word: &[u8]) -> bool
    ensures { result ≡ is_comment word.now }
{
    match word {
        [] => false,
        [first, ..] => *first == b'c',
    }
}
