//! Multisets of operations. The numbers never fall, and the places that they leave are 0, so that equal multisets
//! are equal values.

ghost use Rattle.std.specs.Prelude.{◌≡◌, ℕ, ◌+◌, ◌<◌, ◌≤◌, ◌↔◌, ◌⊎◌, length, take, false, IsTrue, IsNone, IfSome};
ghost use Rattle.multiset_rank.specs.Multisets.{never_falls, IsMulti};
ghost use Rattle.multiset_rank.specs.Rising.{padded};

use std::marker::Model;

/// The most numbers of a multiset.
pub const MOST: usize = 6;

/// A multiset of operations: 0 to 6 operation numbers, which never fall. Contracts see it as the
/// list of these numbers.
#[derive(Clone, Copy, Debug)]
pub struct Multi {
    places: [u16; MOST],
    len: u8,
}

impl Model for Multi {
    ghost use Rattle.std.specs.Prelude.{List, ℕ, length, take};
    ghost use Rattle.multiset_rank.specs.Rising.{padded};

    ghost Value = { List ℕ };

    ghost use Rattle.multiset_rank.specs.Padded.{IsPadded, padded_again};

    ghost view = { λ m. take m.len m.places };

    ghost invariant = { λ m. IsPadded m.len m.places };

    ghost inverse = { λ xs. record { places = padded xs; len = length xs } };

    ghost inverse_ok = { λ m h. padded_again m h };
}

impl PartialEq for Multi {
    ghost use Rattle.std.specs.Prelude.{nat_eq};
    ghost use Rattle.std.specs.Cmp.{nat_eq_equiv, partial_equiv_from_equiv};
    ghost use Rattle.std.specs.Cmp.Lexicographic.{pointwise, lists_per};

    ghost eq = { λ x y. pointwise nat_eq x y };

    ghost laws = { lists_per (partial_equiv_from_equiv nat_eq_equiv) };

    /// Whether both have the same numbers.
    fn eq(&self, other: &Multi) -> bool {
        self.ops() == other.ops()
    }
}

impl Eq for Multi {
    ghost use Rattle.std.proofs.lemmas.Cmp.{nat_list_eq_equiv};

    ghost laws = { nat_list_eq_equiv };
}

/// Whether some number is less than the one before it.
fn falls(ops: &[u16]) -> bool
    ensures { IsTrue result ↔ (never_falls ops.now ≡ false) }
{
    for place in 1..ops.len() {
        if ops[place] < ops[place - 1] {
            return true;
        }
    }
    false
}

impl Multi {
    /// The multiset of these numbers; `None` where there are more than six, or one of them is less
    /// than the one before it.
    pub fn new(ops: &[u16]) -> Option<Multi>
        ensures none { IsNone result ↔ ((6 < length ops.now) ⊎ (never_falls ops.now ≡ false)) }
        ensures numbers { IfSome result (λ multi. multi ≡ ops.now) }
    {
        if ops.len() > MOST {
            return None;
        }
        if falls(ops) {
            return None;
        }
        let mut places = [0; MOST];
        for place in 0..ops.len() {
            places[place] = ops[place];
        }
        Some(Multi::of_places(places, ops.len() as u8))
    }

    /// The multiset of the first `len` numbers; the other places are 0.
    pub(crate) fn of_places(places: [u16; MOST], len: u8) -> Multi
        requires len { len ≤ 6 }
        requires rest { places ≡ padded (take len places) }
        requires order { IsTrue (never_falls (take len places)) }
        ensures { result ≡ take len places }
    {
        Multi { places, len }
    }

    /// The numbers, which never fall.
    pub fn ops(&self) -> &[u16]
        ensures numbers { result.now ≡ self.now }
        ensures multi { IsMulti self.now }
    {
        &self.places[..usize::from(self.len)]
    }
}
