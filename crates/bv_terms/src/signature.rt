//! What an operation takes and gives: the slots of its arguments, what its own numbers have to meet, and the sort of
//! its result. One table says it for all operations (`Op::signature`); all else is said by slot and by rule.

ghost use Rattle.std.specs.Prelude.{◌≡◌, ◌*◌, ◌<◌, Some, None, nat_le, if◌then◌else◌};
ghost use Rattle.bv_terms.specs.Sorts.{is_width, width_of};
ghost use Rattle.bv_terms.specs.Sorts.{same_sort};
ghost use Rattle.bv_terms.specs.Signature.{accessed, fits, is_access, is_indexed, misfit, result_sort, width_at};

use crate::value::{Sort, mask};

/// What an operation takes in a place.
#[derive(Clone, Copy, Debug, PartialEq, Eq)]
pub enum Slot {
    /// A truth value.
    Truth,
    /// A bit-vector of any width.
    Vector,
    /// A truth value or a bit-vector.
    NoMemory,
    /// The sort of the argument in that earlier place.
    SameAs(usize),
    /// A memory.
    Memory,
    /// A bit-vector as wide as a pointer.
    Pointer,
    /// A bit-vector of as many bytes as the operation accesses.
    Accessed,
}

/// What the numbers of an operation have to meet.
#[derive(Clone, Copy, Debug, PartialEq, Eq)]
pub enum IndexRule {
    /// Nothing.
    Free,
    /// A sort whose width, where it has one, is 1 to 64.
    Sized(Sort),
    /// A width from 1 to 64, and a number below 2^width.
    Number { width: u8, number: u64 },
    /// `low <= high`, and `high` is below the width of the first argument.
    Slice { high: u8, low: u8 },
    /// 1, 2, 4 or 8 bytes, and no more than a memory has.
    Access(u8),
}

/// The sort of an operation's result.
#[derive(Clone, Copy, Debug, PartialEq, Eq)]
pub enum ResultRule {
    /// This sort.
    Is(Sort),
    /// That of the argument in a place.
    SameAs(usize),
    /// A bit-vector as wide as both arguments together.
    Joined,
    /// A bit-vector wider than the first argument by so much.
    Longer(u8),
    /// A bit-vector of the bits from `high` down to `low`.
    Slice { high: u8, low: u8 },
    /// A bit-vector of so many bytes.
    Bytes(u8),
}

/// What an operation takes and gives.
#[derive(Clone, Copy, Debug)]
pub struct Signature {
    pub slots: &'static [Slot],
    pub index: IndexRule,
    pub result: ResultRule,
}

impl Signature {
    /// A signature with a rule for the operation's own numbers.
    pub(crate) fn new(slots: &'static [Slot], index: IndexRule, rule: ResultRule) -> Signature
        ensures slots { result.slots.now ≡ slots.now }
        ensures index { result.index ≡ index }
        ensures rule { result.result ≡ rule }
    {
        Signature {
            slots,
            index,
            result: rule,
        }
    }

    /// The signature of an operation without numbers of its own.
    pub(crate) fn free(slots: &'static [Slot], rule: ResultRule) -> Signature
        ensures slots { result.slots.now ≡ slots.now }
        ensures index { result.index ≡ IndexRule.Free }
        ensures rule { result.result ≡ rule }
    {
        Signature::new(slots, IndexRule::Free, rule)
    }
}

impl Slot {
    /// Whether an argument of a sort may stand here, among arguments of these sorts.
    pub fn fits(self, pointer: u8, index: IndexRule, sorts: &[Sort], sort: Sort) -> bool
        ensures { result ≡ fits pointer index sorts.now self sort }
    {
        match self {
            Slot::Truth => sort == Sort::Bool,
            Slot::Vector => matches!(sort, Sort::Bits(_)),
            Slot::NoMemory => sort != Sort::Mem,
            Slot::SameAs(place) => sorts.get(place).is_some_and(|first| *first == sort),
            Slot::Memory => sort == Sort::Mem,
            Slot::Pointer => sort == Sort::Bits(pointer),
            Slot::Accessed => is_of_bytes(sort, index.accessed()),
        }
    }
}

/// Whether the sort is that of a bit-vector of so many bytes.
fn is_of_bytes(sort: Sort, bytes: u8) -> bool
    ensures { result ≡ same_sort sort (Sort.Bits (8 * bytes)) }
{
    match sort {
        Sort::Bits(width) => usize::from(width) == 8 * usize::from(bytes),
        _ => false,
    }
}

impl IndexRule {
    /// How many bytes the operation accesses.
    fn accessed(self) -> u8
        ensures { result ≡ accessed self }
    {
        match self {
            IndexRule::Access(bytes) => bytes,
            _ => 0,
        }
    }

    /// Whether the operation's numbers meet it over arguments of these sorts.
    pub fn is_met(self, pointer: u8, sorts: &[Sort]) -> bool
        ensures { result ≡ is_indexed pointer self sorts.now }
    {
        match self {
            IndexRule::Free => true,
            IndexRule::Sized(Sort::Bits(width)) => is_width(width),
            IndexRule::Sized(_) => true,
            IndexRule::Number { width, number } => is_width(width) && number <= mask(width),
            IndexRule::Slice { high, low } => low <= high && u16::from(high) < width_at(sorts, 0),
            IndexRule::Access(bytes) => is_access(pointer, bytes),
        }
    }
}

fn is_width(width: u8) -> bool
    ensures { result ≡ is_width width }
{
    1 <= width && width <= 64
}

/// Whether so many bytes may be accessed at once, where a memory has 2^pointer of them.
fn is_access(pointer: u8, bytes: u8) -> bool
    ensures { result ≡ is_access pointer bytes }
{
    match bytes {
        1 => true,
        2 => 1 <= pointer,
        4 => 2 <= pointer,
        8 => 3 <= pointer,
        _ => false,
    }
}

/// The width of the sort in a place, as a number that two such widths don't overflow.
fn width_at(sorts: &[Sort], place: usize) -> u16
    ensures value { result ≡ width_at sorts.now place }
    ensures bounded { result < 256 }
{
    match sorts.get(place) {
        Some(sort) => u16::from(sort.width()),
        None => 0,
    }
}

/// The sort of bit-vectors of a width, where that is at most 64.
fn vector(width: u16) -> Option<Sort>
    ensures { result ≡ if nat_le width 64 then Some (Sort.Bits width) else None }
{
    if width <= 64 {
        Some(Sort::Bits(width as u8))
    } else {
        None
    }
}

/// The place of the first argument whose sort does not fit its slot.
pub fn misfit(pointer: u8, index: IndexRule, slots: &[Slot], sorts: &[Sort]) -> Option<usize>
    ensures { result ≡ misfit pointer index slots.now sorts.now }
{
    slots
        .iter()
        .zip(sorts)
        .position(|(slot, sort)| !slot.fits(pointer, index, sorts, *sort))
}

/// The sort, where it has at most 64 bits.
fn bounded(sort: Sort) -> Option<Sort>
    ensures { result ≡ if nat_le (width_of sort) 64 then Some sort else None }
{
    (sort.width() <= 64).then_some(sort)
}

impl ResultRule {
    /// The sort of the result over arguments of these sorts, where it has at most 64 bits.
    pub fn sort(self, sorts: &[Sort]) -> Option<Sort>
        ensures { result ≡ if nat_le (width_of (result_sort self sorts.now)) 64
            then Some (result_sort self sorts.now) else None }
    {
        match self {
            ResultRule::Is(sort) => bounded(sort),
            ResultRule::SameAs(place) => match sorts.get(place) {
                Some(sort) => bounded(*sort),
                None => Some(Sort::Bool),
            },
            ResultRule::Joined => vector(width_at(sorts, 0) + width_at(sorts, 1)),
            ResultRule::Longer(by) => vector(width_at(sorts, 0) + u16::from(by)),
            ResultRule::Slice { high, low } => vector(u16::from(high.saturating_sub(low)) + 1),
            ResultRule::Bytes(bytes) => vector(8 * u16::from(bytes)),
        }
    }
}
