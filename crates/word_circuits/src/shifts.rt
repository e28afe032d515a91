//! Shifts by varying amounts, by a stage for each bit of the amount.

ghost use Rattle.std.specs.Prelude.{◌≡◌, ℕ, ◌*◌, ◌/◌, ◌%◌, ◌^◌, ◌<◌, ◌≤◌, nat_lt, length, take, OnOk, IfOk};
ghost use Rattle.circuit.specs.Signal.{signal_true, IsSignalOver};
ghost use Rattle.circuit.specs.Gate.{IsNetlist, Grows, IsSignalOf};
ghost use Rattle.bv_terms.specs.Words.{ashr};
ghost use Rattle.word_circuits.specs.Word.{bit, word_number, AreOver, IsWordOf, shifted_with};

use crate::bits::{copied, select};
use crate::parts::{moved_down, moved_up};
use circuit::{Circuit, Signal};
use collections::Seq;
use std::alloc::{AllocError, Global};

/// Whether a word's number isn't 0.
fn any(alloc: Global, circuit: &mut Circuit, word: &[Signal]) -> Result<Signal, AllocError>
    requires netlist { IsNetlist circuit.old }
    requires word { AreOver circuit.old word.now }
    ensures grows { OnOk result (Grows circuit.old circuit.new) }
    ensures value { IfOk result (IsSignalOf circuit.new (λ v. nat_lt 0 (word_number v word.now))) }
{
    let mut result = Signal::Constant(false);
    for place in 0..word.len() {
        result = circuit.or(alloc, result, word[place])?;
    }
    Ok(result)
}

/// How many low bits an amount below the width has, for widths up to 64.
fn stage_count(width: usize) -> usize
    ensures few { result ≤ width }
    ensures enough { width ≤ 64 → width ≤ 2 ^ result }
    ensures below { (k : ℕ) → k < result → (k < 6) × (2 ^ k < width) }
{
    let mut count = 0;
    while count < 6 && 1 << count < width {
        count += 1;
    }
    count
}

/// The word moved so many places up, modulo 2^width, where the condition holds, and else the word.
fn moved_if(
    alloc: Global,
    circuit: &mut Circuit,
    word: &[Signal],
    by: usize,
    condition: Signal,
) -> Result<Seq<Signal>, AllocError>
    requires netlist { IsNetlist circuit.old }
    requires word { AreOver circuit.old word.now }
    requires within { by ≤ length word.now }
    requires condition { IsSignalOver (length circuit.old.gates) condition }
    ensures grows { OnOk result (Grows circuit.old circuit.new) }
    ensures word { IfOk result (IsWordOf circuit.new (length word.now)
        (λ v. word_number v word.now * 2 ^ (by * bit (signal_true v condition)) % 2 ^ length word.now)) }
{
    let moved = moved_up(alloc, word, by)?;
    select(alloc, circuit, condition, moved.as_slice(), word)
}

/// The word moved up by the number that so many low bits of an amount are.
fn moved_by_stages(
    alloc: Global,
    circuit: &mut Circuit,
    word: &[Signal],
    amount: &[Signal],
    stages: usize,
) -> Result<Seq<Signal>, AllocError>
    requires netlist { IsNetlist circuit.old }
    requires word { AreOver circuit.old word.now }
    requires amount { AreOver circuit.old amount.now }
    requires few { stages ≤ length amount.now }
    requires below { (k : ℕ) → k < stages → (k < 6) × (2 ^ k < length word.now) }
    ensures grows { OnOk result (Grows circuit.old circuit.new) }
    ensures word { IfOk result (IsWordOf circuit.new (length word.now)
        (λ v. word_number v word.now * 2 ^ word_number v (take stages amount.now) % 2 ^ length word.now)) }
{
    let mut result = copied(alloc, word)?;
    for stage in 0..stages {
        result = moved_if(alloc, circuit, result.as_slice(), 1 << stage, amount[stage])?;
    }
    Ok(result)
}

/// The word moved so many places down where the condition holds, with a signal in those that get free, and else the
/// word.
fn filled_if(
    alloc: Global,
    circuit: &mut Circuit,
    word: &[Signal],
    by: usize,
    condition: Signal,
    fill: Signal,
) -> Result<Seq<Signal>, AllocError>
    requires netlist { IsNetlist circuit.old }
    requires word { AreOver circuit.old word.now }
    requires within { by ≤ length word.now }
    requires condition { IsSignalOver (length circuit.old.gates) condition }
    requires fill { IsSignalOver (length circuit.old.gates) fill }
    ensures grows { OnOk result (Grows circuit.old circuit.new) }
    ensures word { IfOk result (IsWordOf circuit.new (length word.now)
        (λ v. shifted_with (length word.now) (word_number v word.now) (by * bit (signal_true v condition))
        (signal_true v fill))) }
{
    let moved = moved_down(alloc, word, by, fill)?;
    select(alloc, circuit, condition, moved.as_slice(), word)
}

/// The word moved down by the number that so many low bits of an amount are, with a signal in the places that get free.
fn filled_by_stages(
    alloc: Global,
    circuit: &mut Circuit,
    word: &[Signal],
    amount: &[Signal],
    stages: usize,
    fill: Signal,
) -> Result<Seq<Signal>, AllocError>
    requires netlist { IsNetlist circuit.old }
    requires word { AreOver circuit.old word.now }
    requires amount { AreOver circuit.old amount.now }
    requires few { stages ≤ length amount.now }
    requires below { (k : ℕ) → k < stages → (k < 6) × (2 ^ k < length word.now) }
    requires fill { IsSignalOver (length circuit.old.gates) fill }
    ensures grows { OnOk result (Grows circuit.old circuit.new) }
    ensures word { IfOk result (IsWordOf circuit.new (length word.now)
        (λ v. shifted_with (length word.now) (word_number v word.now) (word_number v (take stages amount.now))
        (signal_true v fill))) }
{
    let mut result = copied(alloc, word)?;
    for stage in 0..stages {
        result = filled_if(
            alloc,
            circuit,
            result.as_slice(),
            1 << stage,
            amount[stage],
            fill,
        )?;
    }
    Ok(result)
}

/// The word shifted right by the amount, with that signal in the places that get free.
fn filled(
    alloc: Global,
    circuit: &mut Circuit,
    word: &[Signal],
    amount: &[Signal],
    fill: Signal,
) -> Result<Seq<Signal>, AllocError>
    requires netlist { IsNetlist circuit.old }
    requires word { AreOver circuit.old word.now }
    requires amount { AreOver circuit.old amount.now }
    requires width { length amount.now ≡ length word.now }
    requires narrow { length word.now ≤ 64 }
    requires fill { IsSignalOver (length circuit.old.gates) fill }
    ensures grows { OnOk result (Grows circuit.old circuit.new) }
    ensures word { IfOk result (IsWordOf circuit.new (length word.now)
        (λ v. shifted_with (length word.now) (word_number v word.now) (word_number v amount.now)
        (signal_true v fill))) }
{
    let stages = stage_count(word.len());
    let near = filled_by_stages(alloc, circuit, word, amount, stages, fill)?;
    let gone = any(alloc, circuit, &amount[stages..])?;
    filled_if(alloc, circuit, near.as_slice(), word.len(), gone, fill)
}

/// The word shifted to higher places by the amount, modulo 2^width. Here and below the width is at most 64, and an
/// `Err` is out of memory, and leaves the circuit unusable.
pub fn shifted_left(
    alloc: Global,
    circuit: &mut Circuit,
    word: &[Signal],
    amount: &[Signal],
) -> Result<Seq<Signal>, AllocError>
    requires netlist { IsNetlist circuit.old }
    requires word { AreOver circuit.old word.now }
    requires amount { AreOver circuit.old amount.now }
    requires width { length amount.now ≡ length word.now }
    requires narrow { length word.now ≤ 64 }
    ensures grows { OnOk result (Grows circuit.old circuit.new) }
    ensures word { IfOk result (IsWordOf circuit.new (length word.now)
        (λ v. word_number v word.now * 2 ^ word_number v amount.now % 2 ^ length word.now)) }
{
    let stages = stage_count(word.len());
    let near = moved_by_stages(alloc, circuit, word, amount, stages)?;
    let gone = any(alloc, circuit, &amount[stages..])?;
    moved_if(alloc, circuit, near.as_slice(), word.len(), gone)
}

/// The word shifted to lower places by the amount, with zeros in the places that get free.
pub fn shifted_right(
    alloc: Global,
    circuit: &mut Circuit,
    word: &[Signal],
    amount: &[Signal],
) -> Result<Seq<Signal>, AllocError>
    requires netlist { IsNetlist circuit.old }
    requires word { AreOver circuit.old word.now }
    requires amount { AreOver circuit.old amount.now }
    requires width { length amount.now ≡ length word.now }
    requires narrow { length word.now ≤ 64 }
    ensures grows { OnOk result (Grows circuit.old circuit.new) }
    ensures word { IfOk result (IsWordOf circuit.new (length word.now)
        (λ v. word_number v word.now / 2 ^ word_number v amount.now)) }
{
    filled(alloc, circuit, word, amount, Signal::Constant(false))
}

/// The word shifted to lower places by the amount, with its highest bit in the places that get free.
pub fn shifted_right_signed(
    alloc: Global,
    circuit: &mut Circuit,
    word: &[Signal],
    amount: &[Signal],
) -> Result<Seq<Signal>, AllocError>
    requires netlist { IsNetlist circuit.old }
    requires word { AreOver circuit.old word.now }
    requires amount { AreOver circuit.old amount.now }
    requires width { length amount.now ≡ length word.now }
    requires signed { 1 ≤ length word.now }
    requires narrow { length word.now ≤ 64 }
    ensures grows { OnOk result (Grows circuit.old circuit.new) }
    ensures word { IfOk result (IsWordOf circuit.new (length word.now)
        (λ v. ashr (length word.now) (word_number v word.now) (word_number v amount.now))) }
{
    filled(alloc, circuit, word, amount, word[word.len() - 1])
}
