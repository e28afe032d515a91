//! Multisets of one size and their places in lexicographic order.
//!
//! The multisets that begin with one number stand side by side, and there are as many as the
//! multisets of the remaining size from that number on.

ghost use Rattle.std.specs.Prelude.{◌≡◌, ◌+◌, ◌-◌, ◌∷◌, ◌<◌, ◌≤◌, length, option_map, slice_get};
ghost use Rattle.multiset_rank.specs.Binomial.{choose};
ghost use Rattle.multiset_rank.specs.Multisets.{multisets, AreBelow, AreMultisets, StandsAt};
ghost use Rattle.multiset_rank.specs.Rising.{multichoose, rising};

use crate::binomial::{multichoose, without_a_kind};
use crate::multi::{MOST, Multi};

/// The number of multisets of `size` operations of `kinds` kinds: C(kinds + size - 1, size). There are
/// 1 to 64 kinds, and at most 6 operations.
pub fn count(kinds: u32, size: u8) -> u64
    requires some { 1 ≤ kinds }
    requires most { kinds ≤ 64 }
    requires size { size ≤ 6 }
    ensures formula { result ≡ choose (kinds + size - 1) size }
    ensures length { result ≡ length (multisets kinds size) }
    ensures law { AreMultisets kinds size (multisets kinds size) }
{
    multichoose(kinds, size)
}

/// Where a place is among the multisets of `size + 1` numbers from `from` on and below `kinds`: the
/// first number, and the place of the others among the multisets from that number on.
fn first_number(from: u32, kinds: u32, size: u8, number: u64) -> (u32, u64)
    requires kinds { kinds ≤ 64 }
    requires size { size < 6 }
    requires number { number < multichoose (kinds - from) (size + 1) }
    ensures below { result.0 < kinds }
    ensures rest { result.1 < multichoose (kinds - result.0) size }
    ensures place { slice_get (rising from (kinds - from) (size + 1)) number
        ≡ option_map (λ xs. result.0 ∷ xs) (slice_get (rising result.0 (kinds - result.0) size) result.1) }
{
    let mut first = from;
    let mut rest = number;
    let mut block = multichoose(kinds - first, size);
    while block <= rest {
        rest -= block;
        first += 1;
        block = without_a_kind(block, kinds - first, size);
    }
    (first, rest)
}

/// The multiset at place `number` of the multisets of `size` operations of `kinds` kinds in
/// lexicographic order. The place is below `count`.
pub fn unrank(kinds: u32, size: u8, number: u64) -> Multi
    requires some { 1 ≤ kinds }
    requires most { kinds ≤ 64 }
    requires size { size ≤ 6 }
    requires number { number < length (multisets kinds size) }
    ensures place { StandsAt (multisets kinds size) number result }
    ensures size { length result ≡ size }
    ensures below { AreBelow kinds result }
{
    let mut places = [0; MOST];
    let mut from = 0;
    let mut inner = number;
    for place in 0..size {
        let (first, next) = first_number(from, kinds, size - place - 1, inner);
        places[usize::from(place)] = first as u16;
        from = first;
        inner = next;
    }
    Multi::of_places(places, size)
}

/// How many multisets of `size` numbers from `from` on and below `kinds` begin below `first`.
fn skipped(from: u32, first: u32, kinds: u32, size: u8) -> u64
    requires from { from ≤ first }
    requires first { first < kinds }
    requires kinds { kinds ≤ 64 }
    requires size { size ≤ 6 }
    ensures { result + multichoose (kinds - first) size ≡ multichoose (kinds - from) size }
{
    multichoose(kinds - from, size) - multichoose(kinds - first, size)
}

/// The place of a multiset among the multisets of its size of `kinds` kinds in lexicographic order.
/// Its numbers are below `kinds`.
pub fn rank(kinds: u32, multi: &Multi) -> u64
    requires some { 1 ≤ kinds }
    requires most { kinds ≤ 64 }
    requires below { AreBelow kinds multi.now }
    ensures place { StandsAt (multisets kinds (length multi.now)) result multi.now }
    ensures within { result < length (multisets kinds (length multi.now)) }
{
    let ops = multi.ops();
    let mut from = 0;
    let mut number = 0;
    for place in 0..ops.len() {
        let op = u32::from(ops[place]);
        number += skipped(from, op, kinds, (ops.len() - place) as u8);
        from = op;
    }
    number
}
