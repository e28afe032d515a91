//! Sorts and values: truth values and bit-vectors of 1 to 64 bits, as numbers below 2^width.

ghost use Rattle.std.specs.Prelude.{◌≡◌, ◌-◌, ◌^◌, ◌≤◌, min};

use collections::Seq;

/// The kind of a value: a truth value, a bit-vector of so many bits, or a memory.
#[derive(Clone, Copy, Debug, PartialEq, Eq, Hash)]
pub enum Sort {
    Bool,
    Bits(u8),
    Mem,
}

impl Sort {
    ghost use Rattle.bv_terms.specs.Sorts.{same_sort, width_of};

    /// How many bits a value of the sort has: 0 for a memory, which is no number of bits.
    pub fn width(self) -> u8
        ensures { result ≡ width_of self }
    {
        match self {
            Sort::Bool => 1,
            Sort::Bits(width) => width,
            Sort::Mem => 0,
        }
    }

    /// Whether the sorts are the same, widths included.
    pub fn is_same(self, other: Sort) -> bool
        ensures { result ≡ same_sort self other }
    {
        self == other
    }
}

/// A truth value, or a bit-vector by its width in bits and the number that it stands for.
#[derive(Clone, Copy, Debug, PartialEq, Eq, Hash)]
pub enum Value {
    Bool(bool),
    Bits { width: u8, number: u64 },
}

/// The values of a term's inputs: input `k` has the value in place `k`.
#[derive(Debug, Drop)]
pub struct Env {
    pub values: Seq<Value>,
}

/// The ones in the places of a bit-vector's bits; for widths of 64 and more, all ones.
pub(crate) fn mask(width: u8) -> u64
    ensures { result ≡ 2 ^ min width 64 - 1 }
{
    if width < 64 {
        (1 << width) - 1
    } else {
        u64::MAX
    }
}
