//! Constants as words.

ghost use Rattle.std.specs.Prelude.{◌≡◌, ◌<◌, ◌≤◌, ◌^◌, ◌*◌, ◌-◌, length, drop, IfSome};
ghost use Rattle.term_text.specs.Literal.{binary_digit, hex_digit, digit_in, digit_bits, number, width, constant_in};
ghost use Rattle.term_text.specs.Literal.{literal, decimal_literal, truth_value};

use bv_terms::Op;
use sexp_read::numeral_between;

/// The base of a literal's digits.
#[derive(Clone, Copy)]
pub(crate) enum Base {
    Binary,
    Hexadecimal,
}

fn binary_digit(byte: u8) -> Option<u8>
    ensures { result ≡ binary_digit byte }
{
    match byte {
        b'0'..=b'1' => Some(byte - b'0'),
        _ => None,
    }
}

/// The value of a hexadecimal digit, of either case.
fn hex_digit(byte: u8) -> Option<u8>
    ensures { result ≡ hex_digit byte }
{
    match byte {
        b'0'..=b'9' => Some(byte - b'0'),
        b'A'..=b'F' => Some(byte - b'A' + 10),
        b'a'..=b'f' => Some(byte - b'a' + 10),
        _ => None,
    }
}

fn digit_in(base: Base, byte: u8) -> Option<u8>
    ensures value { result ≡ digit_in base byte }
    ensures small { IfSome result (λ digit. digit < 2 ^ digit_bits base) }
{
    match base {
        Base::Binary => binary_digit(byte),
        Base::Hexadecimal => hex_digit(byte),
    }
}

/// How many numbers a digit may be.
fn size(base: Base) -> u64
    ensures { result ≡ 2 ^ digit_bits base }
{
    match base {
        Base::Binary => 2,
        Base::Hexadecimal => 16,
    }
}

/// The number that digits stand for, which has at most 64 bits.
fn number(base: Base, digits: &[u8]) -> Option<u64>
    requires { digit_bits base * length digits.now ≤ 64 }
    ensures { result ≡ number base digits.now }
{
    let size = size(base);
    let mut number: u64 = 0;
    for byte in digits {
        let digit = digit_in(base, *byte)?;
        number = size * number + u64::from(digit);
    }
    Some(number)
}

/// How many bits that many digits have: at most 64.
fn width(base: Base, count: usize) -> Option<u8>
    ensures { result ≡ width base count }
{
    match base {
        Base::Binary if 1 <= count && count <= 64 => Some(count as u8),
        Base::Hexadecimal if 1 <= count && count <= 16 => Some(4 * count as u8),
        _ => None,
    }
}

fn constant_in(base: Base, digits: &[u8]) -> Option<Op>
    ensures { result ≡ constant_in base digits.now }
{
    let width = width(base, digits.len())?;
    let number = number(base, digits)?;
    Some(Op::Bits { width, number })
}

/// The constant that is written as `#b` and 1 to 64 binary digits, or as `#x` and 1 to 16 hexadecimal digits.
pub(crate) fn literal(word: &[u8]) -> Option<Op>
    ensures { result ≡ literal word.now }
{
    if word.len() < 2 || word[0] != b'#' {
        return None;
    }
    let digits = &word[2..];
    match word[1] {
        b'b' => constant_in(Base::Binary, digits),
        b'x' => constant_in(Base::Hexadecimal, digits),
        _ => None,
    }
}

/// A word without its first two bytes.
fn after_two(word: &[u8]) -> &[u8]
    ensures { result.now ≡ drop 2 word.now }
{
    match word {
        [_, _, rest @ ..] => rest,
        _ => &[],
    }
}

/// The greatest number of so many bits.
fn greatest(width: u8) -> u64
    requires { width ≤ 64 }
    ensures { result ≡ 2 ^ width - 1 }
{
    if width < 64 {
        (1 << width) - 1
    } else {
        u64::MAX
    }
}

/// The constant of the two words `bvX` and `n` of `(_ bvX n)`: X at width n.
pub(crate) fn decimal_literal(word: &[u8], width: &[u8]) -> Option<Op>
    ensures { result ≡ decimal_literal word.now width.now }
{
    let width = numeral_between(1, 64, width)? as u8;
    let number = numeral_between(0, greatest(width), after_two(word))?;
    Some(Op::Bits { width, number })
}

/// The constant `true` or `false`.
pub(crate) fn truth_value(word: &[u8]) -> Option<Op>
    ensures { result ≡ truth_value word.now }
{
    if word == b"true".as_slice() {
        Some(Op::Bool { value: true })
    } else if word == b"false".as_slice() {
        Some(Op::Bool { value: false })
    } else {
        None
    }
}
