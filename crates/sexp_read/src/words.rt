//! The words that more than one text has: numerals and names.

ghost use Rattle.std.specs.Prelude.{◌≡◌, ◌<◌, ◌≤◌, option_map, IfSome, if◌then◌else◌, Some, None};
ghost use Rattle.std.specs.List.{list_all};
ghost use Rattle.sexp_read.specs.Words.{is_digit, is_alphabetic, is_numeral, numeral, numeral_between, is_name_byte};
ghost use Rattle.sexp_read.specs.Words.{starts_alphabetic, is_truth_value, is_name};

fn is_digit(byte: u8) -> bool
    ensures { result ≡ is_digit byte }
{
    byte.is_ascii_digit()
}

fn is_alphabetic(byte: u8) -> bool
    ensures { result ≡ is_alphabetic byte }
{
    byte.is_ascii_alphabetic()
}

fn is_name_byte(byte: u8) -> bool
    ensures { result ≡ is_name_byte byte }
{
    is_alphabetic(byte) || is_digit(byte) || byte == b'_' || byte == b'.' || byte == b'-'
}

fn starts_alphabetic(word: &[u8]) -> bool
    ensures { result ≡ starts_alphabetic word.now }
{
    match word {
        [] => false,
        [first, ..] => is_alphabetic(*first),
    }
}

fn all_name_bytes(word: &[u8]) -> bool
    ensures { result ≡ list_all is_name_byte word.now }
{
    word.iter().all(|byte| is_name_byte(*byte))
}

fn is_truth_value(word: &[u8]) -> bool
    ensures { result ≡ is_truth_value word.now }
{
    word == b"true".as_slice() || word == b"false".as_slice()
}

/// Whether a word is a name: a letter, then letters, digits, `_`, `.` and `-`; neither `true` nor `false`.
pub fn is_name(word: &[u8]) -> bool
    ensures { result ≡ is_name word.now }
{
    starts_alphabetic(word) && all_name_bytes(word) && !is_truth_value(word)
}

/// A word as a name, or `None` where it is not one.
pub fn name(word: &[u8]) -> Option<&str>
    ensures { option_map (λ name. name.now) result ≡ if is_name word.now then Some word.now else None }
{
    if !is_name(word) {
        return None;
    }
    // A name is ASCII.
    str::from_utf8(word).ok()
}

fn all_digits(word: &[u8]) -> bool
    ensures { result ≡ list_all is_digit word.now }
{
    word.iter().all(|byte| is_digit(*byte))
}

/// Whether a word is a numeral: `0`, or digits without a leading zero.
pub fn is_numeral(word: &[u8]) -> bool
    ensures { result ≡ is_numeral word.now }
{
    match word {
        [] => false,
        [digit] => is_digit(*digit),
        [first, ..] => *first != b'0' && all_digits(word),
    }
}

/// The number of a numeral, or 2^64 - 1 where it is greater; `None` where the word is no numeral.
pub fn numeral(word: &[u8]) -> Option<u64>
    ensures { result ≡ numeral word.now }
{
    if !is_numeral(word) {
        return None;
    }
    Some(numeral_between(0, u64::MAX, word).unwrap_or(u64::MAX))
}

/// The number of a numeral between two numbers; `None` where the word is no numeral, or one out of this range.
pub fn numeral_between(low: u64, high: u64, word: &[u8]) -> Option<u64>
    ensures value { result ≡ numeral_between low high word.now }
    ensures bounded { IfSome result (λ number. (low ≤ number) × (number ≤ high)) }
{
    if !is_numeral(word) {
        return None;
    }
    let mut number: u128 = 0;
    for byte in word {
        number = 10 * number + u128::from(*byte - b'0');
        if number > u128::from(high) {
            return None;
        }
    }
    if number < u128::from(low) {
        None
    } else {
        Some(number as u64)
    }
}
