//! The program `query_file`: it reads formulas over bit-vectors from standard input, one a line, and prints for each
//! the values that make it true, or that there are none. The formulas are over bit-vectors `x`, `y`, `z` and `r`, whose
//! width is the program's first word, and over a truth value `b`. With a second word it stops after a step of each
//! question, so that the steps' costs can be told apart: `terms`, `clauses` or `model`.
#![tactic(auto)]

ghost use Rattle.std.specs.Prelude.{◌<◌, length};
ghost use Rattle.bv_terms.specs.Table.{term_at};
ghost use Rattle.bit_blast.specs.Clauses.{IsFormula};

use anyhow::{Result, bail};
use bit_blast::blast;
use bv_query::{Decision, decide, have_one_sort};
use bv_terms::{TermId, Terms, Value};
use cdcl_watch::{Answer, Solver};
use cnf_core::Fuel;
use formula_text::{NAMES, read_formula, width};
use std::alloc::Global;
use std::io::{BufWriter, Read, Write};
use std::{env, io};

/// The step of each question after which the program stops.
#[derive(Clone, Copy)]
enum Step {
    Terms,
    Clauses,
    Model,
    Answer,
}

/// The step that the second word names; all steps where there is none.
fn last_step(rt: &(impl env::Env + AllocGlobal)) -> Result<Step> {
    let Some(word) = env::args(rt)?.nth(2) else {
        return Ok(Step::Answer);
    };
    match word.as_str() {
        "terms" => Ok(Step::Terms),
        "clauses" => Ok(Step::Clauses),
        "model" => Ok(Step::Model),
        _ => bail!("a step is terms, clauses or model"),
    }
}

/// Writes values under the names of their inputs. A place of no input has the value false.
fn put_values(out: &mut impl Write, values: &[Value]) -> io::Result<()> {
    write!(out, "sat")?;
    for (name, value) in NAMES.as_slice().iter().zip(values) {
        match value {
            Value::Bool(truth) => write!(out, " {name}={truth}")?,
            Value::Bits { number, .. } => write!(out, " {name}={number}")?,
        }
    }
    writeln!(out)
}

/// Writes what the solver alone says of the clauses.
fn put_model(out: &mut impl Write, alloc: Global, terms: &Terms, formula: TermId) -> Result<()>
    requires there { formula.0 < length terms.now.nodes }
    requires truth { IsFormula terms.now.pointer (term_at terms.now formula) }
{
    let blasted = blast(alloc, terms, formula)?;
    let mut fuel = Fuel::new(1 << 40);
    let answer = Solver::new(alloc, blasted.cnf)?.solve(&mut fuel)?;
    match answer {
        Answer::Model(_) => writeln!(out, "model")?,
        Answer::Refuted(log) => writeln!(out, "log {}", log.chains.len())?,
        Answer::Spent(_) => writeln!(out, "unknown")?,
    }
    Ok(())
}

/// Writes an answer.
fn put_decision(out: &mut impl Write, decision: &Decision) -> io::Result<()> {
    match decision {
        Decision::Yes(env) => put_values(out, env.values.as_slice()),
        Decision::No(refutation) => writeln!(out, "unsat {}", refutation.log().chains.len()),
        Decision::Spent { .. } => writeln!(out, "unknown"),
    }
}

/// Writes the answer to a question.
fn put_answer(out: &mut impl Write, alloc: Global, terms: &Terms, formula: TermId) -> Result<()>
    requires there { formula.0 < length terms.now.nodes }
    requires truth { IsFormula terms.now.pointer (term_at terms.now formula) }
{
    if !have_one_sort(alloc, terms, &[formula])? {
        bail!("an input of two sorts");
    }
    let mut fuel = Fuel::new(1 << 40);
    let decision = decide(alloc, terms, formula, &mut fuel)?;
    put_decision(out, &decision)?;
    Ok(())
}

/// Writes what is known after a step of a question.
fn put_step(
    out: &mut impl Write,
    alloc: Global,
    bytes: &[u8],
    width: u8,
    step: Step,
) -> Result<()> {
    let mut terms = Terms::new(alloc, 64);
    let formula = read_formula(alloc, bytes, width, &mut terms)?;
    match step {
        Step::Terms => writeln!(out, "terms {}", terms.len())?,
        Step::Clauses => {
            let blasted = blast(alloc, &terms, formula)?;
            writeln!(out, "clauses {}", blasted.cnf.clauses().len())?;
        }
        Step::Model => put_model(out, alloc, &terms, formula)?,
        Step::Answer => put_answer(out, alloc, &terms, formula)?,
    }
    Ok(())
}

fn main(rt: HostRuntime) -> Result<()> {
    let width = width(&rt)?;
    let step = last_step(&rt)?;
    let mut bytes = Vec::new(rt.alloc());
    rt.reader().read_to_end(&mut bytes)?;
    let mut out = BufWriter::new(rt.alloc(), io::writer(&rt))?;
    for line in bytes.split(|byte| *byte == b'\n') {
        if !line.is_empty() {
            put_step(&mut out, rt.alloc(), line, width, step)?;
        }
    }
    out.flush()?;
    Ok(())
}
