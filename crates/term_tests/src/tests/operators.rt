//! Tests: values of operators that change the width, over nodes that `make` makes.

use crate::tests::terms::{env_of, table_of, value_of};
use bv_terms::*;
use std::alloc::Global;
use std::test::Fail;

/// Operators on one argument of eight bits whose values have other widths, with the width.
const RESIZED: [(Op, u64, u8, u64); 8] = [
    (Op::Extract { high: 7, low: 0 }, 0xa5, 8, 0xa5),
    (Op::Extract { high: 7, low: 4 }, 0xa5, 4, 0x0a),
    (Op::Extract { high: 0, low: 0 }, 0xa5, 1, 1),
    (Op::ZeroExtend { by: 0 }, 0xa5, 8, 0xa5),
    (Op::ZeroExtend { by: 56 }, 0xa5, 64, 0xa5),
    (Op::SignExtend { by: 1 }, 0x7f, 9, 0x07f),
    (Op::SignExtend { by: 8 }, 0xa5, 16, 0xffa5),
    (Op::SignExtend { by: 56 }, 0xa5, 64, 0xffff_ffff_ffff_ffa5),
];

/// The number of a value, where it has the width or is a truth value.
pub(crate) fn number_of(value: Value, wanted: u8) -> Option<u64> {
    match value {
        Value::Bool(truth) => Some(u64::from(truth)),
        Value::Bits { width, number } => (width == wanted).then_some(number),
    }
}

/// The number that an operator gives at two inputs of a width, where its value has the other width.
fn value_at(
    alloc: Global,
    op: Op,
    width: u8,
    numbers: [u64; 2],
    wanted: u8,
) -> Result<Option<u64>, MakeFault> {
    let terms = table_of(alloc, op, width)?;
    let env = env_of(alloc, width, numbers).map_err(|_| MakeFault::NoMemory)?;
    Ok(value_of(&terms, TermId(2), &env).and_then(|value| number_of(value, wanted)))
}

#[test]
fn operators_that_change_the_width(rt: HostRuntime) -> Result<(), Fail> {
    for (op, number, width, value) in RESIZED {
        assert_eq!(rt;
            value_at(rt.alloc(), op, 8, [number, 0], width)?,
            Some(value)
        );
    }
    assert_eq!(rt;
        value_at(rt.alloc(), Op::Concat, 8, [0xa5, 0x3c], 16)?,
        Some(0xa53c)
    );
    assert_eq!(rt;
        value_at(rt.alloc(), Op::Concat, 32, [1, 2], 64)?,
        Some(0x1_0000_0002)
    );
    Ok(())
}
