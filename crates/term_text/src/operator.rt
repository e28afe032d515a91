//! The operators of SMT-LIB 2.6 over truth values and bit-vectors, theories Core and FixedSizeBitVectors and logic
//! QF_BV, and this project's own over memories, grouped by how a term of one is written out in operations.

ghost use Rattle.std.specs.Prelude.{◌≡◌};
ghost use Rattle.term_text.specs.Operator.{left_operation, bitwise_operation, order_operation};

use bv_terms::Op;

/// What stands at the head of a list in a term's text.
#[derive(Clone, Copy, Debug, PartialEq, Eq)]
pub enum Operator {
    /// An operation, over as many arguments as it has.
    Operation(Op),
    /// The operation on the first two of two or more arguments, then on that and the third, and so on.
    Left(LeftAssociative),
    /// `=`, of two or more: each is equal to the next.
    Equal,
    /// Each of two or more differs from each later one.
    Distinct,
    /// `=>`, of two or more: the first implies that the others, from the second on, imply in turn.
    Implies,
    /// `bvnand`, `bvnor` and `bvxnor`: `bvnot` of the operation.
    Inverted(Bitwise),
    /// `bvugt`, `bvuge`, `bvsgt` and `bvsge`: the order with its arguments exchanged.
    Exchanged(Order),
    /// `bvcomp`: the bit that says whether two bit-vectors are equal.
    BvComp,
    /// `bvsdiv`, `bvsrem` and `bvsmod`: divisions of two's complement numbers.
    Signed(Division),
    /// The bits `high` down to `low`.
    Extract { high: u32, low: u32 },
    /// So many zeros in front.
    ZeroExtend { by: u32 },
    /// So many copies of the sign bit in front.
    SignExtend { by: u32 },
    /// The bits turned so many places to the left: those that leave the front come back at the end.
    RotateLeft { by: u32 },
    /// The same to the right.
    RotateRight { by: u32 },
    /// So many copies beside each other, one or more.
    Repeat { by: u32 },
}

/// The operators that join two or more arguments from the left; the standard calls them left-associative.
#[derive(Clone, Copy, Debug, PartialEq, Eq)]
pub enum LeftAssociative {
    And,
    Or,
    Xor,
    BvAnd,
    BvOr,
    BvXor,
    BvAdd,
    BvMul,
    Concat,
}

/// The operations on bits that have an inverted form.
#[derive(Clone, Copy, Debug, PartialEq, Eq)]
pub enum Bitwise {
    BvAnd,
    BvOr,
    BvXor,
}

/// The orders of bit-vectors that are operations.
#[derive(Clone, Copy, Debug, PartialEq, Eq)]
pub enum Order {
    BvUlt,
    BvUle,
    BvSlt,
    BvSle,
}

/// What a division of two's complement numbers gives.
#[derive(Clone, Copy, Debug, PartialEq, Eq)]
pub enum Division {
    /// `bvsdiv`: the quotient, rounded towards 0.
    Quotient,
    /// `bvsrem`: the remainder that has the sign of the dividend.
    Remainder,
    /// `bvsmod`: the remainder that has the sign of the divisor.
    Modulo,
}

impl LeftAssociative {
    /// The operation that joins two arguments.
    pub fn operation(self) -> Op
        ensures { result ≡ left_operation self }
    {
        match self {
            LeftAssociative::And => Op::And,
            LeftAssociative::Or => Op::Or,
            LeftAssociative::Xor => Op::Xor,
            LeftAssociative::BvAnd => Op::BvAnd,
            LeftAssociative::BvOr => Op::BvOr,
            LeftAssociative::BvXor => Op::BvXor,
            LeftAssociative::BvAdd => Op::BvAdd,
            LeftAssociative::BvMul => Op::BvMul,
            LeftAssociative::Concat => Op::Concat,
        }
    }
}

impl Bitwise {
    /// The operation of this name.
    pub fn operation(self) -> Op
        ensures { result ≡ bitwise_operation self }
    {
        match self {
            Bitwise::BvAnd => Op::BvAnd,
            Bitwise::BvOr => Op::BvOr,
            Bitwise::BvXor => Op::BvXor,
        }
    }
}

impl Order {
    /// The operation of this name.
    pub fn operation(self) -> Op
        ensures { result ≡ order_operation self }
    {
        match self {
            Order::BvUlt => Op::BvUlt,
            Order::BvUle => Op::BvUle,
            Order::BvSlt => Op::BvSlt,
            Order::BvSle => Op::BvSle,
        }
    }
}
