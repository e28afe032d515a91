//! Words joined, extended, and parts of words. They take no gate.

ghost use Rattle.std.specs.Prelude.{◌≡◌, ℕ, ◌+◌, ◌-◌, ◌*◌, ◌/◌, ◌%◌, ◌^◌, ◌<◌, ◌≤◌, ◌++◌, length, replicate, IfOk};
ghost use Rattle.circuit.specs.Signal.{signal_true, IsSignalOver};
ghost use Rattle.circuit.specs.Gate.{Netlist};
ghost use Rattle.bv_terms.specs.Words as words;
ghost use Rattle.word_circuits.specs.Word.{word_number, AreOver, IsWordOf, shifted_with};

use crate::bits::{constant, copied};
use circuit::Signal;
use collections::Seq;
use std::alloc::{AllocError, Global};

/// The high word above the low one; their widths may differ. An `Err`, here and below, is out of memory.
pub fn joined(alloc: Global, high: &[Signal], low: &[Signal]) -> Result<Seq<Signal>, AllocError>
    ensures signals { IfOk result (λ r. r ≡ low.now ++ high.now) }
    ensures word { IfOk result (λ r. (n : Netlist) → AreOver n high.now → AreOver n low.now
        → IsWordOf n (length high.now + length low.now)
        (λ v. word_number v high.now * 2 ^ length low.now + word_number v low.now) r) }
{
    let mut result = copied(alloc, low)?;
    for place in 0..high.len() {
        result.push(high[place])?;
    }
    Ok(result)
}

/// The word with so many copies of a signal above it.
fn extended(
    alloc: Global,
    word: &[Signal],
    by: usize,
    signal: Signal,
) -> Result<Seq<Signal>, AllocError>
    ensures { IfOk result (λ r. r ≡ word.now ++ replicate by signal) }
{
    let mut result = copied(alloc, word)?;
    for _place in 0..by {
        result.push(signal)?;
    }
    Ok(result)
}

/// The bits of a word from place `low` to place `high`, both included.
pub fn part(
    alloc: Global,
    word: &[Signal],
    low: usize,
    high: usize,
) -> Result<Seq<Signal>, AllocError>
    requires order { low ≤ high }
    requires within { high < length word.now }
    ensures { IfOk result (λ r. (n : Netlist) → AreOver n word.now
        → IsWordOf n (high - low + 1) (λ v. word_number v word.now / 2 ^ low % 2 ^ (high - low + 1)) r) }
{
    copied(alloc, &word[low..high + 1])
}

/// The word with so many zeros above it.
pub fn zero_extended(alloc: Global, word: &[Signal], by: usize) -> Result<Seq<Signal>, AllocError>
    ensures { IfOk result (λ r. (n : Netlist) → AreOver n word.now
        → IsWordOf n (length word.now + by) (λ v. word_number v word.now) r) }
{
    extended(alloc, word, by, Signal::Constant(false))
}

/// The word with so many copies of its highest bit above it.
pub fn sign_extended(alloc: Global, word: &[Signal], by: usize) -> Result<Seq<Signal>, AllocError>
    requires { 1 ≤ length word.now }
    ensures { IfOk result (λ r. (n : Netlist) → AreOver n word.now
        → IsWordOf n (length word.now + by)
        (λ v. words.sign_extended (length word.now) (length word.now + by) (word_number v word.now)) r) }
{
    extended(alloc, word, by, word[word.len() - 1])
}

/// The word moved so many places up, modulo 2^width, with zeros in those that get free.
pub(crate) fn moved_up(alloc: Global, word: &[Signal], by: usize) -> Result<Seq<Signal>, AllocError>
    requires { by ≤ length word.now }
    ensures { IfOk result (λ r. (n : Netlist) → AreOver n word.now
        → IsWordOf n (length word.now) (λ v. word_number v word.now * 2 ^ by % 2 ^ length word.now) r) }
{
    let zeros = constant(alloc, by, 0)?;
    joined(alloc, &word[..word.len() - by], zeros.as_slice())
}

/// The word moved so many places down, with that signal in those that get free.
pub(crate) fn moved_down(
    alloc: Global,
    word: &[Signal],
    by: usize,
    fill: Signal,
) -> Result<Seq<Signal>, AllocError>
    requires { by ≤ length word.now }
    ensures { IfOk result (λ r. (n : Netlist) → AreOver n word.now → IsSignalOver (length n.gates) fill
        → IsWordOf n (length word.now)
        (λ v. shifted_with (length word.now) (word_number v word.now) by (signal_true v fill)) r) }
{
    extended(alloc, &word[by..], by, fill)
}
