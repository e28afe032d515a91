//! The program `solve_file`: it reads a formula from standard input, and prints a model, or a log of resolution that
//! refutes the formula, in lines `r` as `dimacs` reads them. Its first word, if it has one, is the number of conflicts
//! after which it gives up. With `plain` as its second word it takes the solver that scans all clauses.
#![tactic(auto)]

use anyhow::Result;
use cdcl_core::{Answer, solve};
use cdcl_watch::Solver;
use cnf_core::{Chain, Cnf, Fuel};
use std::alloc::{AllocError, Global};
use std::io::{BufWriter, Write};
use std::{env, io};

/// The units of fuel: those that the first word names, and 2^40 where there is none.
fn units(rt: &(impl env::Env + AllocGlobal)) -> Result<u64> {
    match env::args(rt)?.nth(1) {
        Some(word) => Ok(word.parse::<u64>()?),
        None => Ok(1 << 40),
    }
}

/// Whether the second word asks for the plain solver.
fn is_plain(rt: &(impl env::Env + AllocGlobal)) -> Result<bool> {
    match env::args(rt)?.nth(2) {
        Some(word) => Ok(word.as_str() == "plain"),
        None => Ok(false),
    }
}

/// The answer of the plain solver, or of the one that watches.
fn answer_to(alloc: Global, cnf: Cnf, fuel: &mut Fuel, plain: bool) -> Result<Answer, AllocError> {
    if plain {
        return solve(alloc, &cnf, fuel);
    }
    Solver::new(alloc, cnf)?.solve(fuel)
}

/// Writes a literal as in DIMACS files.
fn put_lit(out: &mut impl Write, variable: usize, positive: bool) -> io::Result<()> {
    let sign = if positive { "" } else { "-" };
    write!(out, " {sign}{}", variable.saturating_add(1))
}

/// Writes the line of a model.
fn put_model(out: &mut impl Write, values: &[bool]) -> io::Result<()> {
    write!(out, "v")?;
    for variable in 0..values.len() {
        put_lit(out, variable, values[variable])?;
    }
    writeln!(out, " 0")
}

/// Writes the line of a chain.
fn put_chain(out: &mut impl Write, chain: &Chain) -> io::Result<()> {
    write!(out, "r {}", chain.first)?;
    for (lit, number) in chain.steps.as_slice() {
        put_lit(out, lit.variable, lit.positive)?;
        write!(out, " {number}")?;
    }
    writeln!(out)
}

/// Writes an answer, and how many conflicts it took.
fn put_answer(out: &mut impl Write, answer: &Answer, conflicts: u64) -> io::Result<()> {
    writeln!(out, "c conflicts {conflicts}")?;
    match answer {
        Answer::Model(values) => {
            writeln!(out, "s SATISFIABLE")?;
            put_model(out, values.as_slice())
        }
        Answer::Refuted(log) => {
            writeln!(out, "s UNSATISFIABLE")?;
            for chain in log.chains.as_slice() {
                put_chain(out, chain)?;
            }
            Ok(())
        }
        Answer::Spent(_) => writeln!(out, "s UNKNOWN"),
    }
}

fn main(rt: HostRuntime) -> Result<()> {
    let units = units(&rt)?;
    let input = dimacs::read(&rt)?;
    let mut fuel = Fuel::new(units);
    let answer = answer_to(rt.alloc(), input.cnf, &mut fuel, is_plain(&rt)?)?;
    let mut out = BufWriter::new(rt.alloc(), io::writer(&rt))?;
    put_answer(&mut out, &answer, units.saturating_sub(fuel.left()))?;
    out.flush()?;
    Ok(())
}
