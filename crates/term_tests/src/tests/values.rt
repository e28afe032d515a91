//! Tests: the values of each operator of a term's text by the standard's formulas: at all arguments of one, two and
//! three bits, and at the edges of 8, 63 and 64 bits.

use crate::tests::reading::{inputs_in, read_first};
use crate::tests::terms::value_of;
use bv_terms::*;
use collections::Seq;
use std::alloc::{AllocError, Global};
use std::test::Fail;

/// The arguments at which wide bit-vectors are looked at: 0, 1, the greatest signed number, the sign alone, all ones.
const EDGES: &str = "01msf";

/// The number of so many bits that a letter stands for: a digit for itself, `m`, `s` and `f` as in `EDGES`, `k` and `q`
/// for these two halved, `r` for both upper bits, and the letters beside one of these for a number less or more.
fn number_of_letter(letter: u8, width: u8) -> u64 {
    if width == 0 || width > 64 {
        return 0;
    }
    let all = u64::MAX >> (64 - width);
    let most = all >> 1;
    let sign = all ^ most;
    match letter {
        b'k' => most >> 1,
        b'l' => most.wrapping_sub(1),
        b'm' => most,
        b's' => sign,
        b'n' => sign.wrapping_add(1),
        b'o' => sign.wrapping_add(2),
        b'q' => sign >> 1,
        b'p' => sign.wrapping_add(most >> 1),
        b'r' => sign.wrapping_add(sign >> 1),
        b'd' => all.wrapping_sub(2),
        b'e' => all.wrapping_sub(1),
        b'f' => all,
        digit => u64::from(digit.wrapping_sub(b'0')),
    }
}

/// The number that the letter in a place stands for.
fn number_at(letters: &str, place: usize, width: u8) -> u64 {
    match letters.as_bytes().get(place) {
        Some(letter) => number_of_letter(*letter, width),
        None => 0,
    }
}

/// The value of a sort under a number.
fn value_numbered(sort: Sort, number: u64) -> Value {
    match sort {
        Sort::Bits(width) => Value::Bits { width, number },
        _ => Value::Bool(number == 1),
    }
}

fn number_of(value: Value) -> u64 {
    match value {
        Value::Bool(truth) => u64::from(truth),
        Value::Bits { number, .. } => number,
    }
}

/// The number of a node's value, where the inputs 0 and 1 have these numbers.
fn number_given(
    alloc: Global,
    terms: &Terms,
    at: TermId,
    sort: Sort,
    numbers: [u64; 2],
) -> Result<Option<u64>, AllocError> {
    let [first, second] = numbers;
    let values = vec![in alloc; value_numbered(sort, first), value_numbered(sort, second)]?;
    let env = Env {
        values: Seq::from_vec(values),
    };
    match value_of(terms, at, &env) {
        Some(value) => Ok(Some(number_of(value))),
        None => Ok(None),
    }
}

/// How many bits the inputs of a sort have.
fn width_of(sort: Sort) -> u8 {
    match sort {
        Sort::Bits(width) => width,
        _ => 1,
    }
}

/// Whether a text over `a` and `b` of a sort gives these values of so many bits, a letter each, where `a` goes through
/// the first arguments and, for each of them, `b` through the second ones.
fn gives(
    alloc: Global,
    text: &str,
    sort: Sort,
    arguments: [&str; 2],
    width: u8,
    values: &str,
) -> Result<bool, Fail> {
    let [firsts, seconds] = arguments;
    let mut terms = Terms::new(alloc, 32);
    let names = inputs_in(alloc, &mut terms, &[("a", sort), ("b", sort)])?;
    let Ok(at) = read_first(alloc, text.as_bytes(), &names, &mut terms)? else {
        return Ok(false);
    };
    let count = seconds.len().max(1);
    for (place, letter) in values.as_bytes().iter().enumerate() {
        let first = number_at(firsts, place / count, width_of(sort));
        let second = number_at(seconds, place % count, width_of(sort));
        let number = number_given(alloc, &terms, at, sort, [first, second])?;
        if number != Some(number_of_letter(*letter, width)) {
            return Ok(false);
        }
    }
    Ok(true)
}

/// Whether a text over `a` and `b` gives values at all arguments of a narrow width.
fn gives_all(
    alloc: Global,
    text: &str,
    width: u8,
    arguments: &str,
    is_binary: bool,
    values: &str,
) -> Result<bool, Fail> {
    let seconds = if is_binary { arguments } else { "0" };
    gives(
        alloc,
        text,
        Sort::Bits(width),
        [arguments, seconds],
        width,
        values,
    )
}

/// Whether a text over `a` and `b` gives values at the edges of 8, 63 and 64 bits.
fn gives_at_edges(alloc: Global, text: &str, is_binary: bool, values: &str) -> Result<bool, Fail> {
    for width in [8, 63, 64] {
        if !gives_all(alloc, text, width, EDGES, is_binary, values)? {
            return Ok(false);
        }
    }
    Ok(true)
}

/// Whether a text over `a` and `b` gives values at all arguments of one, of two and of three bits, and at the edges.
fn gives_each(alloc: Global, text: &str, is_binary: bool, values: [&str; 4]) -> Result<bool, Fail> {
    let [one, two, three, edges] = values;
    let narrow = [(1, "01", one), (2, "0123", two), (3, "01234567", three)];
    for (width, arguments, values) in narrow {
        if !gives_all(alloc, text, width, arguments, is_binary, values)? {
            return Ok(false);
        }
    }
    gives_at_edges(alloc, text, is_binary, edges)
}

/// An operator over two bit-vectors and its values: at all pairs of one, of two and of three bits, and at those of the
/// edges.
const BINARY: [(&str, [&str; 4]); 29] = [
    (
        "(bvand a b)",
        [
            "0001",
            "0000010100220123",
            "0000000001010101002200220123012300004444010145450022446601234567",
            "000000110101m0m000ss01msf",
        ],
    ),
    (
        "(bvor a b)",
        [
            "0111",
            "0123113323233333",
            "0123456711335577232367673333777745674567557755776767676777777777",
            "01msf11mnfmmmffsnfsffffff",
        ],
    ),
    (
        "(bvxor a b)",
        [
            "0110",
            "0123103223013210",
            "0123456710325476230167453210765445670123547610326745230176543210",
            "01msf10lneml0fssnf0mfesm0",
        ],
    ),
    (
        "(bvnand a b)",
        [
            "1110",
            "3333323233113210",
            "7777777776767676775577557654765477773333767632327755331176543210",
            "ffffffeefefesfsfffmmfesm0",
        ],
    ),
    (
        "(bvnor a b)",
        [
            "1000",
            "3210220010100000",
            "7654321066442200545410104444000032103210220022001010101000000000",
            "fesm0eesl0sss00ml0m000000",
        ],
    ),
    (
        "(bvxnor a b)",
        [
            "1001",
            "3210230110320123",
            "7654321067452301547610324567012332107654230167451032547601234567",
            "fesm0efnl1snf0mml0fs01msf",
        ],
    ),
    (
        "(bvadd a b)",
        [
            "0110",
            "0123123023013012",
            "0123456712345670234567013456701245670123567012346701234570123456",
            "01msf12sn0mseflsnf0mf0lme",
        ],
    ),
    (
        "(bvsub a b)",
        [
            "0110",
            "0321103221033210",
            "0765432110765432210765433210765443210765543210766543210776543210",
            "0fns110on2ml0fssm10nfesm0",
        ],
    ),
    (
        "(bvmul a b)",
        [
            "0001",
            "0000012302020321",
            "0000000001234567024602460361472504040404052741630642064207654321",
            "0000001msf0m1sn0ss0s0fns1",
        ],
    ),
    (
        "(bvudiv a b)",
        [
            "1011",
            "3000310032103311",
            "7000000071000000721000007311000074211000752111007632111077321111",
            "f0000f1000fm100fs110ff211",
        ],
    ),
    (
        "(bvurem a b)",
        [
            "0010",
            "0000101120023010",
            "0000000010111111200222223010333340010444501210556000210670113210",
            "0000010111m00mms010sf01m0",
        ],
    ),
    (
        "(bvsdiv a b)",
        [
            "1011",
            "3000310312121301",
            "7000000071000007721000767311077514671124157701131670001217000001",
            "f0000f100ffm10n1sf1s1f001",
        ],
    ),
    (
        "(bvsrem a b)",
        [
            "0010",
            "0000101020003030",
            "0000000010111110200222003010301040070700507050706006660070777770",
            "0000010110m00m0s0f00f0ff0",
        ],
    ),
    (
        "(bvsmod a b)",
        [
            "0010",
            "0000103020003030",
            "0000000010115670200267003010707040020700501050706001660070127770",
            "00000101n0m00f0s0l00f0lf0",
        ],
    ),
    (
        "(bvshl a b)",
        [
            "0010",
            "0000120020003200",
            "0000000012400000240000003640000040000000524000006400000076400000",
            "0000012000me000s0000fe000",
        ],
    ),
    (
        "(bvlshr a b)",
        [
            "0010",
            "0000100021003100",
            "0000000010000000210000003100000042100000521000006310000073100000",
            "0000010000mk000sq000fm000",
        ],
    ),
    (
        "(bvashr a b)",
        [
            "0011",
            "0000100023333333",
            "0000000010000000210000003100000046777777567777776777777777777777",
            "0000010000mk000srffffffff",
        ],
    ),
    (
        "(bvult a b)",
        [
            "0100",
            "0111001100010000",
            "0111111100111111000111110000111100000111000000110000000100000000",
            "0111100111000110000100000",
        ],
    ),
    (
        "(bvule a b)",
        [
            "1101",
            "1111011100110001",
            "1111111101111111001111110001111100001111000001110000001100000001",
            "1111101111001110001100001",
        ],
    ),
    (
        "(bvugt a b)",
        [
            "0010",
            "0000100011001110",
            "0000000010000000110000001110000011110000111110001111110011111110",
            "0000010000110001110011110",
        ],
    ),
    (
        "(bvuge a b)",
        [
            "1011",
            "1000110011101111",
            "1000000011000000111000001111000011111000111111001111111011111111",
            "1000011000111001111011111",
        ],
    ),
    (
        "(bvslt a b)",
        [
            "0010",
            "0100000011011100",
            "0111000000110000000100000000000011110111111100111111000111110000",
            "0110000100000001110111100",
        ],
    ),
    (
        "(bvsle a b)",
        [
            "1011",
            "1100010011111101",
            "1111000001110000001100000001000011111111111101111111001111110001",
            "1110001100001001111111101",
        ],
    ),
    (
        "(bvsgt a b)",
        [
            "0100",
            "0011101100000010",
            "0000111110001111110011111110111100000000000010000000110000001110",
            "0001110011110110000000010",
        ],
    ),
    (
        "(bvsge a b)",
        [
            "1101",
            "1011111100100011",
            "1000111111001111111011111111111100001000000011000000111000001111",
            "1001111011111110001000011",
        ],
    ),
    (
        "(= a b)",
        [
            "1001",
            "1000010000100001",
            "1000000001000000001000000001000000001000000001000000001000000001",
            "1000001000001000001000001",
        ],
    ),
    (
        "(distinct a b)",
        [
            "0110",
            "0111101111011110",
            "0111111110111111110111111110111111110111111110111111110111111110",
            "0111110111110111110111110",
        ],
    ),
    (
        "(bvcomp a b)",
        [
            "1001",
            "1000010000100001",
            "1000000001000000001000000001000000001000000001000000001000000001",
            "1000001000001000001000001",
        ],
    ),
    (
        "(ite (bvult a b) a b)",
        [
            "0001",
            "0000011101220123",
            "0000000001111111012222220123333301234444012345550123456601234567",
            "000000111101mmm01mss01msf",
        ],
    ),
];

/// The same over one bit-vector.
const UNARY: [(&str, [&str; 4]); 8] = [
    ("(bvnot a)", ["10", "3210", "76543210", "fesm0"]),
    ("(bvneg a)", ["01", "0321", "07654321", "0fns1"]),
    ("((_ rotate_left 1) a)", ["01", "0213", "02461357", "02e1f"]),
    (
        "((_ rotate_right 1) a)",
        ["01", "0213", "04152637", "0spqf"],
    ),
    ("((_ extract 0 0) a)", ["01", "0101", "01010101", "01101"]),
    ("((_ zero_extend 0) a)", ["01", "0123", "01234567", "01msf"]),
    ("((_ sign_extend 0) a)", ["01", "0123", "01234567", "01msf"]),
    ("((_ repeat 1) a)", ["01", "0123", "01234567", "01msf"]),
];

/// An operator that makes a bit-vector one bit wider, and its values at the edges.
const WIDENED: [(&str, &str); 5] = [
    ("((_ zero_extend 1) a)", "01kqm"),
    ("((_ sign_extend 1) a)", "01krf"),
    ("(concat a #b0)", "02lse"),
    ("(concat a #b1)", "13mnf"),
    ("(concat #b0 a)", "01kqm"),
];

/// An operator over truth values, and its values at false and false, false and true, true and false, true and true.
const TRUTHS: [(&str, &str); 8] = [
    ("(not a)", "1100"),
    ("(and a b)", "0001"),
    ("(or a b)", "0111"),
    ("(xor a b)", "0110"),
    ("(=> a b)", "1101"),
    ("(= a b)", "1001"),
    ("(distinct a b)", "0110"),
    ("(ite a b true)", "1101"),
];

#[test]
fn operators_on_two_bit_vectors(rt: HostRuntime) -> Result<(), Fail> {
    for (text, values) in BINARY {
        assert!(rt; gives_each(rt.alloc(), text, true, values)?, "{text}");
    }
    Ok(())
}

#[test]
fn operators_on_one_bit_vector(rt: HostRuntime) -> Result<(), Fail> {
    for (text, values) in UNARY {
        assert!(rt; gives_each(rt.alloc(), text, false, values)?, "{text}");
    }
    Ok(())
}

#[test]
fn operators_that_make_one_bit_more(rt: HostRuntime) -> Result<(), Fail> {
    for (text, values) in WIDENED {
        let narrow = gives(rt.alloc(), text, Sort::Bits(8), [EDGES, "0"], 9, values)?;
        let wide = gives(rt.alloc(), text, Sort::Bits(63), [EDGES, "0"], 64, values)?;
        assert!(rt; narrow && wide, "{text}");
    }
    Ok(())
}

#[test]
fn operators_on_truth_values(rt: HostRuntime) -> Result<(), Fail> {
    for (text, values) in TRUTHS {
        let right = gives(rt.alloc(), text, Sort::Bool, ["01", "01"], 1, values)?;
        assert!(rt; right, "{text}");
    }
    Ok(())
}
