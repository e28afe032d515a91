//! The program `blast_file`: it reads a formula over bit-vectors from standard input, in the form of SMT-LIB 2.6, and
//! prints clauses in DIMACS form whose models are the values at which it is true. The formula is over bit-vectors `x`,
//! `y`, `z` and `r`, whose width is the program's first word, and over a truth value `b`. A comment `c bit NAME BIT
//! VARIABLE` says which variable a bit is, bit 0 the lowest.
#![tactic(auto)]

use anyhow::Result;
use bit_blast::{Blasted, blast};
use bv_terms::Terms;
use cnf_core::Clause;
use formula_text::{NAMES, read_formula, width};
use std::io;
use std::io::{BufWriter, Read, Write};

/// Writes the comments that name the variables of the inputs' bits.
fn put_bits(out: &mut impl Write, blasted: &Blasted) -> io::Result<()> {
    for (number, bit, variable) in blasted.bits.as_slice() {
        let name = NAMES.as_slice().get(*number as usize).unwrap_or(&"?");
        writeln!(out, "c bit {name} {bit} {}", variable.saturating_add(1))?;
    }
    Ok(())
}

/// Writes the line of a clause.
fn put_clause(out: &mut impl Write, clause: &Clause) -> io::Result<()> {
    for lit in clause.lits.as_slice() {
        let sign = if lit.positive { "" } else { "-" };
        write!(out, "{sign}{} ", lit.variable.saturating_add(1))?;
    }
    writeln!(out, "0")
}

fn main(rt: HostRuntime) -> Result<()> {
    let width = width(&rt)?;
    let mut bytes = Vec::new(rt.alloc());
    rt.reader().read_to_end(&mut bytes)?;
    let mut terms = Terms::new(rt.alloc(), 64);
    let formula = read_formula(rt.alloc(), &bytes, width, &mut terms)?;
    let blasted = blast(rt.alloc(), &terms, formula)?;
    let mut out = BufWriter::new(rt.alloc(), io::writer(&rt))?;
    put_bits(&mut out, &blasted)?;
    let clauses = blasted.cnf.clauses();
    writeln!(out, "p cnf {} {}", blasted.cnf.variables(), clauses.len())?;
    for clause in clauses {
        put_clause(&mut out, clause)?;
    }
    out.flush()?;
    Ok(())
}
