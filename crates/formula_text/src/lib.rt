//! Formulas over bit-vectors as text, in the form of SMT-LIB 2.6. They are over bit-vectors `x`, `y`, `z` and `r` of
//! one width and a truth value `b`, which are the inputs 0 to 4.
#![tactic(auto)]

ghost use Rattle.std.specs.Prelude.{◌<◌, length, IfOk};
ghost use Rattle.bv_terms.specs.Table.{term_at};
ghost use Rattle.bit_blast.specs.Clauses.{IsFormula};
ghost use Rattle.term_text.specs.Scope.{AreNamesIn};

use anyhow::{Result, bail, ensure};
use bit_blast::is_formula;
use bv_terms::{Op, Sort, TermId, Terms};
use collections::NameMap;
use std::alloc::Global;
use std::env;
use term_text::read_term;

/// The names of the inputs, in the order of their numbers. The last one is a truth value.
pub const NAMES: [&str; 5] = ["x", "y", "z", "r", "b"];

/// The width of the bit-vectors, which the program's first word names.
pub fn width(rt: &(impl env::Env + AllocGlobal)) -> Result<u8> {
    let Some(word) = env::args(rt)?.nth(1) else {
        bail!("no width");
    };
    let width = word.parse::<u8>()?;
    ensure!(width >= 1 && width <= 64, "a width is 1 to 64");
    Ok(width)
}

/// The inputs under their names.
fn names_of(alloc: Global, terms: &mut Terms, width: u8) -> Result<NameMap<TermId>>
    ensures { IfOk result (AreNamesIn terms.new) }
{
    let mut names = NameMap::new(alloc);
    let mut number = 0;
    for name in NAMES.as_slice() {
        let sort = if *name == "b" {
            Sort::Bool
        } else {
            Sort::Bits(width)
        };
        let Ok(node) = terms.make(Op::Input { number, sort }, &[]) else {
            bail!("out of memory");
        };
        if names.contains(name) || number == u32::MAX {
            bail!("two inputs of one name");
        }
        names.insert(String::from_str(alloc, name)?, node)?;
        number += 1;
    }
    Ok(names)
}

/// The formula that a text is, over bit-vectors of that width, in a table of terms.
pub fn read_formula(alloc: Global, bytes: &[u8], width: u8, terms: &mut Terms) -> Result<TermId>
    ensures there { IfOk result (λ at. at.0 < length terms.new.nodes) }
    ensures truth { IfOk result (λ at. IsFormula terms.new.pointer (term_at terms.new at)) }
{
    let Ok(forest) = sexp_read::read(alloc, bytes) else {
        bail!("no text of lists");
    };
    let names = names_of(alloc, terms, width)?;
    let len = forest.items.len();
    let item = match forest.top() {
        [item] if *item < len => *item,
        _ => bail!("not one formula"),
    };
    let formula = match read_term(alloc, bytes, &forest, item, &names, terms) {
        Ok(formula) => formula,
        Err(fault) => bail!("no term from byte {}", fault.from),
    };
    ensure!(is_formula(alloc, terms, formula)?, "no formula over values");
    Ok(formula)
}
