//! Combinations with repetition, counted in exact integers.

ghost use Rattle.std.specs.Prelude.{◌≡◌, ◌+◌, ◌^◌, ◌<◌, ◌≤◌};
ghost use Rattle.multiset_rank.specs.Rising.{multichoose};

/// The number of multisets of `size` things of `kinds` kinds. Each step from one size to the next is
/// a product and an exact quotient.
pub fn multichoose(kinds: u32, size: u8) -> u64
    requires kinds { kinds ≤ 65 }
    requires size { size ≤ 6 }
    ensures value { result ≡ multichoose kinds size }
    ensures small { result ≤ 70 ^ 6 }
{
    let mut ways = 1;
    for chosen in 0..size {
        ways = ways * (u64::from(kinds) + u64::from(chosen)) / (u64::from(chosen) + 1);
    }
    ways
}

/// The same of one kind fewer, from the number `ways` of one kind more.
pub fn without_a_kind(ways: u64, kinds: u32, size: u8) -> u64
    requires some { 1 ≤ kinds }
    requires most { kinds ≤ 64 }
    requires size { size ≤ 6 }
    requires ways { ways ≡ multichoose (kinds + 1) size }
    ensures { result ≡ multichoose kinds size }
{
    ways * u64::from(kinds) / (u64::from(kinds) + u64::from(size))
}
