//! Tests: the fault that `make` tells, and the nodes of subterms with their values.

ghost use Rattle.std.specs.Prelude.{◌<◌, length, IsTrue};
ghost use Rattle.bv_terms.specs.declared.op.TermId.{TermId};
ghost use Rattle.bv_terms.specs.Sorts.{HasSort};
ghost use Rattle.bv_terms.specs.WellSorted.{InputFits, InputsFit};
ghost use Rattle.bv_terms.specs.Table.{term_at};
ghost use Rattle.bv_terms.specs.Subterm.{IsTopological};

use bv_terms::*;
use collections::Seq;
use std::alloc::{AllocError, Global};
use std::test::Fail;

/// Makes a node where its arguments are in the table.
fn make(terms: &mut Terms, op: Op, args: &[TermId]) -> Option<Result<TermId, MakeFault>> {
    let len = terms.len();
    if args.iter().all(|arg| arg.0 < len) {
        Some(terms.make(op, args))
    } else {
        None
    }
}

fn input(number: u32, sort: Sort) -> Op {
    Op::Input { number, sort }
}

/// Whether the table's nodes are these operations, each over no arguments.
fn are_nodes(terms: &Terms, ops: &[Op]) -> bool {
    let len = terms.len();
    if len != ops.len() {
        return false;
    }
    for place in 0..len {
        let (op, args) = terms.node(TermId(place));
        if *op != ops[place] || args.len() != 0 {
            return false;
        }
    }
    true
}

/// Whether a node is refused for this fault, and the table is still that of these operations.
fn is_refused(terms: &mut Terms, op: Op, args: &[TermId], fault: MakeFault, ops: &[Op]) -> bool {
    make(terms, op, args) == Some(Err(fault)) && are_nodes(terms, ops)
}

const INPUTS: [Op; 5] = [
    Op::Input {
        number: 0,
        sort: Sort::Bits(8),
    },
    Op::Input {
        number: 1,
        sort: Sort::Bits(16),
    },
    Op::Input {
        number: 2,
        sort: Sort::Bool,
    },
    Op::Input {
        number: 3,
        sort: Sort::Mem,
    },
    Op::Input {
        number: 4,
        sort: Sort::Bits(64),
    },
];

const REFUSED: [(&str, Op, &[TermId], MakeFault); 17] = [
    (
        "two widths",
        Op::BvAdd,
        &[TermId(0), TermId(1)],
        MakeFault::Sorts { place: 1 },
    ),
    (
        "no bit-vector first",
        Op::BvAdd,
        &[TermId(2), TermId(1)],
        MakeFault::Sorts { place: 0 },
    ),
    (
        "no bit-vector second",
        Op::BvAnd,
        &[TermId(0), TermId(2)],
        MakeFault::Sorts { place: 1 },
    ),
    (
        "three arguments",
        Op::BvXor,
        &[TermId(0), TermId(1), TermId(2)],
        MakeFault::Arity,
    ),
    ("no argument", Op::BvNot, &[], MakeFault::Arity),
    (
        "input of width 0",
        Op::Input {
            number: 0,
            sort: Sort::Bits(0),
        },
        &[],
        MakeFault::Index,
    ),
    (
        "input of width 65",
        Op::Input {
            number: 0,
            sort: Sort::Bits(65),
        },
        &[],
        MakeFault::Index,
    ),
    (
        "equation of memories",
        Op::Eq,
        &[TermId(3), TermId(3)],
        MakeFault::Sorts { place: 0 },
    ),
    (
        "choice of two sorts",
        Op::Ite,
        &[TermId(2), TermId(0), TermId(1)],
        MakeFault::Sorts { place: 2 },
    ),
    (
        "pointer of another width",
        Op::MLoad { bytes: 3 },
        &[TermId(3), TermId(0)],
        MakeFault::Sorts { place: 1 },
    ),
    (
        "two bytes stored as one",
        Op::MStore { bytes: 1 },
        &[TermId(3), TermId(1), TermId(1)],
        MakeFault::Sorts { place: 2 },
    ),
    (
        "three bytes",
        Op::MMark { bytes: 3 },
        &[TermId(3), TermId(1)],
        MakeFault::Index,
    ),
    (
        "bits from above the width",
        Op::Extract { high: 8, low: 0 },
        &[TermId(0)],
        MakeFault::Index,
    ),
    (
        "bits upside down",
        Op::Extract { high: 1, low: 2 },
        &[TermId(0)],
        MakeFault::Index,
    ),
    (
        "72 bits joined",
        Op::Concat,
        &[TermId(0), TermId(4)],
        MakeFault::Width,
    ),
    (
        "65 bits extended",
        Op::SignExtend { by: 1 },
        &[TermId(4)],
        MakeFault::Width,
    ),
    (
        "constant 2^width",
        Op::Bits {
            width: 8,
            number: 256,
        },
        &[],
        MakeFault::Index,
    ),
];

#[test]
fn make_tells_the_first_fault(rt: HostRuntime) -> Result<(), Fail> {
    let mut terms = Terms::new(rt.alloc(), 16);
    for op in INPUTS {
        terms.make(op, &[])?;
    }
    for (case, op, args, fault) in REFUSED {
        assert!(rt; is_refused(&mut terms, op, args, fault, &INPUTS), "{case}");
    }
    Ok(())
}

#[test]
fn an_access_is_no_larger_than_the_memory(rt: HostRuntime) -> Result<(), Fail> {
    let mut terms = Terms::new(rt.alloc(), 2);
    let memory = terms.make(input(0, Sort::Mem), &[])?;
    let pointer = terms.make(input(1, Sort::Bits(2)), &[])?;
    let args = [memory, pointer];
    assert_eq!(rt;
        make(&mut terms, Op::MLoad { bytes: 8 }, &args),
        Some(Err(MakeFault::Index))
    );
    assert_eq!(rt;
        make(&mut terms, Op::MLoad { bytes: 4 }, &args),
        Some(Ok(TermId(2)))
    );
    Ok(())
}

/// Whether each input in the table has a value of its sort.
fn inputs_fit(terms: &Terms, env: &Env) -> bool
    ensures { IsTrue result → (at : TermId) → at.0 < length terms.now.nodes
        → InputsFit env.now.values (term_at terms.now at) }
{
    for place in 0..terms.len() {
        let (op, _) = terms.node(TermId(place));
        if !input_fits(op, env.values.as_slice()) {
            return false;
        }
    }
    true
}

fn input_fits(op: &Op, inputs: &[Value]) -> bool
    ensures { IsTrue result → InputFits inputs.now op.now }
{
    match *op {
        Op::Input { number, sort } => match inputs.get(number as usize) {
            Some(value) => has_sort(*value, sort),
            None => false,
        },
        _ => true,
    }
}

fn has_sort(value: Value, sort: Sort) -> bool
    ensures { IsTrue result → HasSort sort value }
{
    match (value, sort) {
        (Value::Bool(_), Sort::Bool) => true,
        (Value::Bits { width, number }, Sort::Bits(wanted)) => {
            width == wanted && (width == 64 || width < 64 && number < 1u64 << width)
        }
        _ => false,
    }
}

/// Values of width-bit inputs.
pub(crate) fn env_of(alloc: Global, width: u8, numbers: [u64; 2]) -> Result<Env, AllocError> {
    let values = vec![in alloc;
        Value::Bits {
            width,
            number: numbers[0]
        },
        Value::Bits {
            width,
            number: numbers[1]
        },
    ]?;
    Ok(Env {
        values: Seq::from_vec(values),
    })
}

/// A table of the inputs 0 and 1 and then an operation over as many of them as it takes.
pub(crate) fn table_of(alloc: Global, op: Op, width: u8) -> Result<Terms, MakeFault> {
    let sort = Sort::Bits(width);
    let mut terms = Terms::new(alloc, 32);
    let first = terms.make(input(0, sort), &[])?;
    let second = terms.make(input(1, sort), &[])?;
    let args = [first, second];
    make(&mut terms, op, &args[..op.arity().min(2)]).unwrap_or(Err(MakeFault::Arity))?;
    Ok(terms)
}

/// The most nodes of a table of these tests.
const MOST_NODES: usize = 64;

/// The value of a node's term, where the node is there and the inputs fit.
pub(crate) fn value_of(terms: &Terms, at: TermId, env: &Env) -> Option<Value> {
    let mut room = [Value::Bool(false); MOST_NODES];
    let len = terms.len();
    if len > MOST_NODES || at.0 >= len || !inputs_fit(terms, env) {
        return None;
    }
    Some(terms.eval(at, env, &mut room))
}

/// Nodes 0, 2 and 4 are those of the last one's subterms; 1 and 3 stand between and are none.
fn table_with_others(alloc: Global) -> Result<Terms, MakeFault> {
    let mut terms = table_of(alloc, Op::BvNot, 8)?;
    make(&mut terms, Op::BvOr, &[TermId(1), TermId(2)]).unwrap_or(Err(MakeFault::Arity))?;
    make(&mut terms, Op::BvSub, &[TermId(2), TermId(0)]).unwrap_or(Err(MakeFault::Arity))?;
    Ok(terms)
}

/// The room after the nodes' values were set, where it was true in all places.
fn room_after(terms: &Terms, nodes: &[TermId], env: &Env) -> Option<[Value; 5]>
    requires { IsTopological terms.now nodes.now }
{
    let mut room = [Value::Bool(true); 5];
    if terms.len() != 5 || !inputs_fit(terms, env) {
        return None;
    }
    terms.eval_nodes(nodes, env, &mut room);
    Some(room)
}

#[test]
fn only_nodes_of_subterms_are_evaluated(rt: HostRuntime) -> Result<(), Fail> {
    let terms = table_with_others(rt.alloc())?;
    let env = env_of(rt.alloc(), 8, [0x0f, 0])?;
    let last = TermId(4);
    assert!(rt; last.0 < terms.len());
    let nodes = terms.subterms(rt.alloc(), &[last])?;
    assert!(rt; nodes.as_slice() == [TermId(0), TermId(2), last].as_slice());
    let [first, second, third] = [0x0f, 0xf0, 0xe1].map(|number| Value::Bits { width: 8, number });
    let other = Value::Bool(true);
    assert!(rt; room_after(&terms, &nodes, &env) == Some([first, other, second, other, third]));
    Ok(())
}
