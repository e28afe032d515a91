//! Operations, and the faults of making a node. The first fault counts: that of the number of arguments, then that
//! of their sorts, then that of an index, then that of the result's width.

ghost use Rattle.std.specs.Prelude.{◌≡◌, length, MatchOption};
ghost use Rattle.bv_terms.specs.Signature.{arity, refusal, result_sort};
ghost use Rattle.bv_terms.specs.Signature.{signature};

use crate::signature::{IndexRule, ResultRule, Signature, Slot, misfit};
use crate::value::Sort;
use std::alloc::AllocFailed;

/// The number of a node in a table of terms.
#[derive(Clone, Copy, Debug, PartialEq, Eq, PartialOrd, Ord, Hash)]
pub struct TermId(pub usize);

/// What a node does with its arguments. The meanings are those of SMT-LIB 2.6; those of the three memory operations are
/// this project's own.
#[derive(Clone, Copy, Debug, PartialEq, Eq, Hash)]
pub enum Op {
    /// The input of that number, of that sort. No argument.
    Input { number: u32, sort: Sort },
    /// A truth value. No argument.
    Bool { value: bool },
    /// A bit-vector. No argument.
    Bits { width: u8, number: u64 },
    /// The opposite of a truth value.
    Not,
    /// Two truth values, joined.
    And,
    Or,
    Xor,
    Implies,
    /// Whether two values of one sort, no memories, are equal.
    Eq,
    /// The second of three arguments where the first is true, and else the third. Those two are of one sort, no memory.
    Ite,
    /// The bits of a bit-vector inverted.
    BvNot,
    /// A bit-vector's number taken from 0, modulo 2^width.
    BvNeg,
    /// Two bit-vectors of one width, joined bit by bit.
    BvAnd,
    BvOr,
    BvXor,
    /// Sum, difference and product of two bit-vectors of one width, modulo 2^width.
    BvAdd,
    BvSub,
    BvMul,
    /// The quotient of two bit-vectors of one width as numbers; all ones where the divisor is 0.
    BvUdiv,
    /// The remainder; the dividend where the divisor is 0.
    BvUrem,
    /// The first of two bit-vectors of one width, shifted by the second: left, right, and right with the sign bit
    /// filled in.
    BvShl,
    BvLshr,
    BvAshr,
    /// Whether the first of two bit-vectors of one width is less (or equal), as numbers.
    BvUlt,
    BvUle,
    /// The same in two's complement.
    BvSlt,
    BvSle,
    /// Two bit-vectors joined, the first one high. The result has at most 64 bits.
    Concat,
    /// The bits `high` down to `low`.
    Extract { high: u8, low: u8 },
    /// So many zeros in front.
    ZeroExtend { by: u8 },
    /// So many copies of the sign bit in front.
    SignExtend { by: u8 },
    /// The bytes of a memory from a pointer on as one bit-vector, the first one low: 1, 2, 4 or 8.
    MLoad { bytes: u8 },
    /// The memory with these addresses marked as read.
    MMark { bytes: u8 },
    /// The memory with the bytes of a bit-vector from a pointer on, the low one first, marked as written.
    MStore { bytes: u8 },
}

/// Why a node is not made.
#[derive(Clone, Copy, Debug, PartialEq, Eq)]
pub enum MakeFault {
    /// The number of arguments is wrong.
    Arity,
    /// The argument at that place, counted from 0, is the first whose sort does not fit.
    Sorts { place: u32 },
    /// The width of an input or a constant is not 1 to 64; a constant is 2^width or more; not `low <= high < width` in
    /// an `Extract`; the bytes of an access are not 1, 2, 4 or 8, or more than the memory has addresses.
    Index,
    /// The result would be wider than 64 bits.
    Width,
    /// Out of memory.
    NoMemory,
}

impl<T: Drop> From<AllocFailed<T>> for MakeFault {
    ghost use Rattle.std.specs.Prelude.{◌≡◌};
    ghost use Rattle.bv_terms.specs.declared.op.MakeFault.TheVariants.{NoMemory};

    ghost from_gives = { λ _ fault. fault ≡ NoMemory };

    fn from(_failed: AllocFailed<T>) -> MakeFault {
        MakeFault::NoMemory
    }
}

impl Op {
    /// How many arguments the operation has.
    pub fn arity(&self) -> usize
        ensures { result ≡ arity self.now }
    {
        self.signature().slots.len()
    }

    /// The sort of the operation over arguments of these sorts, or why it cannot stand over them, where a pointer has
    /// so many bits.
    pub(crate) fn sort_over(&self, pointer: u8, sorts: &[Sort]) -> Result<Sort, MakeFault>
        ensures { MatchOption (refusal pointer self.now sorts.now)
            (result ≡ Ok (result_sort (signature self.now).result sorts.now)) (λ f. result ≡ Err f) }
    {
        let signature = self.signature();
        if sorts.len() != signature.slots.len() {
            return Err(MakeFault::Arity);
        }
        if let Some(place) = misfit(pointer, signature.index, signature.slots, sorts) {
            return Err(MakeFault::Sorts {
                place: place as u32,
            });
        }
        if !signature.index.is_met(pointer, sorts) {
            return Err(MakeFault::Index);
        }
        signature.result.sort(sorts).ok_or(MakeFault::Width)
    }

    /// What the operation takes and gives.
    pub fn signature(&self) -> Signature
        ensures slots { result.slots.now ≡ (signature self.now).slots }
        ensures index { result.index ≡ (signature self.now).index }
        ensures result { result.result ≡ (signature self.now).result }
    {
        match *self {
            Op::Input { sort, .. } => Signature::new(
                &[],
                IndexRule::Sized(sort),
                ResultRule::Is(sort),
            ),
            Op::Bool { .. } => Signature::free(&[], ResultRule::Is(Sort::Bool)),
            Op::Bits { width, number } => {
                Signature::new(
                    &[],
                    IndexRule::Number { width, number },
                    ResultRule::Is(Sort::Bits(width)),
                )
            }
            Op::Not => Signature::free(&[Slot::Truth], ResultRule::Is(Sort::Bool)),
            Op::And | Op::Or | Op::Xor | Op::Implies => {
                Signature::free(&[Slot::Truth, Slot::Truth], ResultRule::Is(Sort::Bool))
            }
            Op::Eq => Signature::free(
                &[Slot::NoMemory, Slot::SameAs(0)],
                ResultRule::Is(Sort::Bool),
            ),
            Op::Ite => {
                Signature::free(
                    &[Slot::Truth, Slot::NoMemory, Slot::SameAs(1)],
                    ResultRule::SameAs(1),
                )
            }
            Op::BvNot | Op::BvNeg => Signature::free(&[Slot::Vector], ResultRule::SameAs(0)),
            Op::BvAnd
            | Op::BvOr
            | Op::BvXor
            | Op::BvAdd
            | Op::BvSub
            | Op::BvMul
            | Op::BvUdiv
            | Op::BvUrem
            | Op::BvShl
            | Op::BvLshr
            | Op::BvAshr => {
                Signature::free(&[Slot::Vector, Slot::SameAs(0)], ResultRule::SameAs(0))
            }
            Op::BvUlt | Op::BvUle | Op::BvSlt | Op::BvSle => {
                Signature::free(&[Slot::Vector, Slot::SameAs(0)], ResultRule::Is(Sort::Bool))
            }
            Op::Concat => Signature::free(&[Slot::Vector, Slot::Vector], ResultRule::Joined),
            Op::Extract { high, low } => Signature::new(
                &[Slot::Vector],
                IndexRule::Slice { high, low },
                ResultRule::Slice { high, low },
            ),
            Op::ZeroExtend { by } | Op::SignExtend { by } => {
                Signature::free(&[Slot::Vector], ResultRule::Longer(by))
            }
            Op::MLoad { bytes } => Signature::new(
                &[Slot::Memory, Slot::Pointer],
                IndexRule::Access(bytes),
                ResultRule::Bytes(bytes),
            ),
            Op::MMark { bytes } => Signature::new(
                &[Slot::Memory, Slot::Pointer],
                IndexRule::Access(bytes),
                ResultRule::Is(Sort::Mem),
            ),
            Op::MStore { bytes } => Signature::new(
                &[Slot::Memory, Slot::Pointer, Slot::Accessed],
                IndexRule::Access(bytes),
                ResultRule::Is(Sort::Mem),
            ),
        }
    }
}
