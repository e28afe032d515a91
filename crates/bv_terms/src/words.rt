//! The operators of SMT-LIB's QF_BV on bit-vectors of 1 to 64 bits, each in a machine word.
//!
//! A bit-vector of `width` bits is a number below 2^width, and so is each result. At wider widths and larger numbers
//! each operator is safe, and its result is any value.
ghost use Rattle.std.specs.Prelude.{◌≡◌, ◌+◌, ◌-◌, ◌*◌, ◌/◌, ◌%◌, ◌^◌, ◌<◌, ◌≤◌, bit_and, bit_or, bit_xor};
ghost use Rattle.std.specs.Prelude.{nat_lt, nat_le, if◌then◌else◌};
ghost use Rattle.bv_terms.specs.Term.{bits};
ghost use Rattle.bv_terms.specs.Words.{is_negative, udiv, urem, ashr, sign_extended, slt, sle};

use crate::value::{Value, mask};

/// The bit-vector of a number modulo 2^width.
pub(crate) fn bits(width: u8, number: u64) -> Value
    ensures { width ≤ 64 → result ≡ bits width number }
{
    Value::Bits {
        width,
        number: number & mask(width),
    }
}

/// The bits of `s` inverted.
pub(crate) fn not(width: u8, s: u64) -> Value
    ensures { width ≤ 64 → s < 2 ^ width → result ≡ bits width (2 ^ width - 1 - s) }
{
    bits(width, !s)
}

/// The bits that are 1 in both.
pub(crate) fn and(width: u8, s: u64, t: u64) -> Value
    ensures { s < 2 ^ width → t < 2 ^ width → result ≡ bits width (bit_and s t) }
{
    Value::Bits {
        width,
        number: s & t,
    }
}

/// The bits that are 1 in one of both at least.
pub(crate) fn or(width: u8, s: u64, t: u64) -> Value
    ensures { s < 2 ^ width → t < 2 ^ width → result ≡ bits width (bit_or s t) }
{
    Value::Bits {
        width,
        number: s | t,
    }
}

/// The bits that are 1 in one of both alone.
pub(crate) fn xor(width: u8, s: u64, t: u64) -> Value
    ensures { s < 2 ^ width → t < 2 ^ width → result ≡ bits width (bit_xor s t) }
{
    Value::Bits {
        width,
        number: s ^ t,
    }
}

/// What added to `s` gives 0, modulo 2^width.
pub(crate) fn neg(width: u8, s: u64) -> Value
    ensures { width ≤ 64 → s < 2 ^ width → result ≡ bits width (2 ^ width - s) }
{
    sub(width, 0, s)
}

/// The sum, modulo 2^width.
pub(crate) fn add(width: u8, s: u64, t: u64) -> Value
    ensures { width ≤ 64 → result ≡ bits width (s + t) }
{
    bits(width, s.wrapping_add(t))
}

/// The difference, modulo 2^width.
pub(crate) fn sub(width: u8, s: u64, t: u64) -> Value
    ensures { width ≤ 64 → t < 2 ^ width → result ≡ bits width (s + (2 ^ width - t)) }
{
    bits(width, s.wrapping_sub(t))
}

/// The product, modulo 2^width.
pub(crate) fn mul(width: u8, s: u64, t: u64) -> Value
    ensures { width ≤ 64 → result ≡ bits width (s * t) }
{
    bits(width, s.wrapping_mul(t))
}

/// The quotient of unsigned numbers; by 0 it is all ones.
pub(crate) fn udiv(width: u8, s: u64, t: u64) -> Value
    ensures { width ≤ 64 → s < 2 ^ width → result ≡ bits width (udiv width s t) }
{
    Value::Bits {
        width,
        number: if t == 0 { mask(width) } else { s / t },
    }
}

/// The remainder of unsigned numbers; by 0 it is `s`.
pub(crate) fn urem(width: u8, s: u64, t: u64) -> Value
    ensures { s < 2 ^ width → result ≡ bits width (urem s t) }
{
    Value::Bits {
        width,
        number: if t == 0 { s } else { s % t },
    }
}

/// `s` shifted left by `t` places, which may be more than the width.
pub(crate) fn shl(width: u8, s: u64, t: u64) -> Value
    ensures { width ≤ 64 → result ≡ bits width (s * 2 ^ t) }
{
    bits(width, shift_left(s, t))
}

/// `s` shifted right by `t` places, which may be more than the width, with zeros in the places that get free.
pub(crate) fn lshr(width: u8, s: u64, t: u64) -> Value
    ensures { s < 2 ^ width → result ≡ bits width (s / 2 ^ t) }
{
    Value::Bits {
        width,
        number: shift_right(s, t),
    }
}

/// `s` shifted right by `t` places, which may be more than the width, with its top bit in the places that get free.
pub(crate) fn ashr(width: u8, s: u64, t: u64) -> Value
    ensures { width ≤ 64 → s < 2 ^ width → result ≡ bits width (ashr width s t) }
{
    let inverted = if_negative(width, s, mask(width));
    Value::Bits {
        width,
        number: shift_right(s ^ inverted, t) ^ inverted,
    }
}

/// The bits of `s`, and below them those of `t`.
pub(crate) fn concat(width: u8, s: u64, low_width: u8, t: u64) -> Value
    ensures { width + low_width ≤ 64 → s < 2 ^ width → t < 2 ^ low_width
        → result ≡ Value.Bits (width + low_width) (s * 2 ^ low_width + t) }
{
    Value::Bits {
        width: width.wrapping_add(low_width),
        number: s.wrapping_shl(u32::from(low_width)) | t,
    }
}

/// The bits of `s` from place `low` to place `high`, both included; the lowest has place 0.
pub(crate) fn extract(high: u8, low: u8, s: u64) -> Value
    ensures { low ≤ high → high < 64 → result ≡ bits (high - low + 1) (s / 2 ^ low) }
{
    bits(
        high.wrapping_sub(low).wrapping_add(1),
        s.wrapping_shr(u32::from(low)),
    )
}

/// `s` with `by` zeros above its bits.
pub(crate) fn zero_extend(width: u8, by: u8, s: u64) -> Value
    ensures { width + by ≤ 64 → result ≡ Value.Bits (width + by) s }
{
    Value::Bits {
        width: width.wrapping_add(by),
        number: s,
    }
}

/// `s` with its top bit `by` times above its bits.
pub(crate) fn sign_extend(width: u8, by: u8, s: u64) -> Value
    ensures { width + by ≤ 64 → s < 2 ^ width
        → result ≡ bits (width + by) (sign_extended width (width + by) s) }
{
    bits(
        width.wrapping_add(by),
        s | if_negative(width, s, !mask(width)),
    )
}

/// Whether `s` is below `t`, as unsigned numbers.
pub(crate) fn ult(s: u64, t: u64) -> bool
    ensures { result ≡ nat_lt s t }
{
    s < t
}

/// Whether `s` is `t` or below it, as unsigned numbers.
pub(crate) fn ule(s: u64, t: u64) -> bool
    ensures { result ≡ nat_le s t }
{
    s <= t
}

/// Whether `s` is below `t`, as signed numbers.
pub(crate) fn slt(width: u8, s: u64, t: u64) -> bool
    ensures { width ≤ 64 → result ≡ slt width s t }
{
    let negative = is_negative(width, s);
    if negative == is_negative(width, t) {
        s < t
    } else {
        negative
    }
}

/// Whether `s` is `t` or below it, as signed numbers.
pub(crate) fn sle(width: u8, s: u64, t: u64) -> bool
    ensures { width ≤ 64 → result ≡ sle width s t }
{
    let negative = is_negative(width, s);
    if negative == is_negative(width, t) {
        s <= t
    } else {
        negative
    }
}

/// Whether the top bit is 1.
fn is_negative(width: u8, s: u64) -> bool
    ensures { width ≤ 64 → result ≡ is_negative width s }
{
    s > mask(width) >> 1
}

/// `ones` where the top bit of `s` is 1, and else 0.
fn if_negative(width: u8, s: u64, ones: u64) -> u64
    ensures { width ≤ 64 → result ≡ (if is_negative width s then ones else 0) }
{
    if is_negative(width, s) { ones } else { 0 }
}

/// A word shifted left by `t` places, which may be more than it has.
fn shift_left(s: u64, t: u64) -> u64
    ensures { result ≡ s * 2 ^ t % 2 ^ 64 }
{
    if t < 64 { s << t } else { 0 }
}

/// A word shifted right by `t` places, which may be more than it has.
fn shift_right(s: u64, t: u64) -> u64
    ensures { result ≡ s / 2 ^ t }
{
    if t < 64 { s >> t } else { 0 }
}
