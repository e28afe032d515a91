//! Circuits of words: bit-vectors as signals, the lowest bit first.
//!
//! - `bits`: bit by bit, equality, choice.
//! - `parts`: words joined, extended, and parts of words, which cost nothing.
//! - `sums`: addition, subtraction, order.
//! - `shifts`: by varying amounts.
//! - `products`: multiplication, by few additions where a factor is known.
//! - `quotients`: division and remainder, by 0 too, as SMT-LIB 2.6 has it.
//!
//! All words of a call have one width where nothing else is said. Circuits of arithmetic: Knuth, TAOCP 2, 4.3.1; signed
//! digits: G. W. Reitwiesner, Binary arithmetic, 1960.
#![tactic(auto)]

mod bits;
mod parts;
mod products;
mod quotients;
mod shifts;
mod sums;

pub use bits::{BitFunction, constant, copied, equal, inverted, select, zip};
pub use parts::{joined, part, sign_extended, zero_extended};
pub use products::product;
pub use quotients::division;
pub use shifts::{shifted_left, shifted_right, shifted_right_signed};
pub use sums::{difference, is_less, is_signed_less, negated, sum};
