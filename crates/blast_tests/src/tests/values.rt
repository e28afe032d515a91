//! What the operators give at words of a few bits, as numbers, by the standard's formulas: SMT-LIB 2.6, theory
//! FixedSizeBitVectors and logic QF_BV.

use bv_terms::Op;

/// The number modulo 2^width.
fn reduced(width: u8, number: u64) -> u64 {
    number
        % 1_u64
            .checked_shl(u32::from(width))
            .unwrap_or(u64::MAX)
            .max(1)
}

/// 2^number, or 0 where that is no number of 64 bits.
fn power(number: u64) -> u64 {
    match u32::try_from(number) {
        Ok(small) => 1_u64.checked_shl(small).unwrap_or(0),
        Err(_) => 0,
    }
}

/// A word in two's complement, moved up so that numbers keep their order.
fn raised(width: u8, number: u64) -> u64 {
    number ^ power(u64::from(width).saturating_sub(1))
}

/// The number of a word with all bits inverted.
fn inverted(width: u8, number: u64) -> u64 {
    reduced(width, !number)
}

/// What an operation over two words gives; a truth value is 0 or 1.
pub(crate) fn value_of_two(op: Op, width: u8, s: u64, t: u64) -> u64 {
    let wide = match op {
        Op::BvAnd => s & t,
        Op::BvOr => s | t,
        Op::BvXor => s ^ t,
        Op::BvAdd => s.wrapping_add(t),
        Op::BvSub => s.wrapping_sub(t),
        Op::BvMul => s.wrapping_mul(t),
        Op::BvUdiv => s.checked_div(t).unwrap_or(u64::MAX),
        Op::BvUrem => s.checked_rem(t).unwrap_or(s),
        Op::BvShl => s.wrapping_mul(power(t)),
        Op::BvLshr => s.checked_div(power(t)).unwrap_or(0),
        Op::BvAshr if raised(width, s) < s => !inverted(width, s)
            .checked_div(power(t))
            .unwrap_or(0),
        Op::BvAshr => s.checked_div(power(t)).unwrap_or(0),
        Op::BvUlt => u64::from(s < t),
        Op::BvUle => u64::from(s <= t),
        Op::BvSlt => u64::from(raised(width, s) < raised(width, t)),
        Op::BvSle => u64::from(raised(width, s) <= raised(width, t)),
        Op::Eq => u64::from(s == t),
        Op::Concat => return s.wrapping_mul(power(u64::from(width))).wrapping_add(t),
        _ => 0,
    };
    reduced(width, wide)
}

/// What an operation over one word gives.
pub(crate) fn value_of_one(op: Op, width: u8, s: u64) -> u64 {
    match op {
        Op::BvNot => inverted(width, s),
        Op::BvNeg => reduced(width, 0_u64.wrapping_sub(s)),
        Op::Extract { high, low } => {
            reduced(
                high.saturating_sub(low).saturating_add(1),
                s.checked_div(power(u64::from(low))).unwrap_or(0),
            )
        }
        Op::SignExtend { by } if raised(width, s) < s => {
            reduced(width.saturating_add(by), !inverted(width, s))
        }
        _ => s,
    }
}

/// What an operation over two truth values gives.
pub(crate) fn value_of_truths(op: Op, p: bool, q: bool) -> bool {
    match op {
        Op::And => p && q,
        Op::Or => p || q,
        Op::Xor => p != q,
        Op::Implies => !p || q,
        _ => p == q,
    }
}
