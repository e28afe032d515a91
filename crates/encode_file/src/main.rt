//! The program `encode_file`: it reads a file of operations and goals from standard input, makes the location formula
//! of each claim that is not hopeless, and prints how many claims there are, and how many variables and clauses their
//! formulas have together. Its first word is the bound. With a word `example` each formula has an example, and with a
//! word `terms` no clauses are made.
#![tactic(auto)]

ghost use Rattle.std.specs.Prelude.{◌≡◌, ◌<◌, IfOk, IsTrue, length};
ghost use Rattle.isel_spec.specs.File.{sorts_in};
ghost use Rattle.loc_encode.specs.Given.{IsGiven, IsExampleFor};

use anyhow::{Result, bail};
use bit_blast::{blast, is_formula};
use bv_terms::{Sort, TermId, Terms};
use collections::Seq;
use isel_spec::{Kind, Spec};
use loc_encode::{encode, extend};
use multiset_rank::{ClaimPlan, Multi};
use pattern_core::{Example, hopeless};
use plain_search::has_no_memory;
use spec_reader::read_spec;
use std::alloc::{AllocError, Global};
use std::env;
use std::io::Read;
use test_inputs::tests;

/// What is made of each claim: a formula with an example, and its clauses.
#[derive(Clone, Copy)]
struct Made {
    example: bool,
    clauses: bool,
}

/// How large the formulas of some claims are together.
#[derive(Clone, Copy)]
struct Sizes {
    claims: usize,
    variables: usize,
    clauses: usize,
}

/// The number of operations that the first word names.
fn bound(rt: &(impl env::Env + AllocGlobal)) -> Result<u8> {
    let Some(word) = env::args(rt)?.nth(1) else {
        bail!("no bound");
    };
    Ok(word.parse::<u8>()?)
}

/// What the words after the first ask for.
fn asked(rt: &(impl env::Env + AllocGlobal)) -> Result<Made> {
    let mut made = Made {
        example: false,
        clauses: true,
    };
    for word in env::args(rt)?.skip(2) {
        match word.as_str() {
            "terms" => made.clauses = false,
            "example" => made.example = true,
            _ => bail!("the words after the bound are terms and example"),
        }
    }
    Ok(made)
}

/// The sorts of a goal's inputs.
fn sorts_of(alloc: Global, args: &[(Kind, Sort)]) -> Result<Vec<Sort>, AllocError>
    ensures { IfOk result (λ sorts. sorts.items ≡ sorts_in args.now) }
{
    let mut sorts = Vec::with_capacity(alloc, args.len())?;
    for arg in args {
        sorts.push(arg.1)?;
    }
    Ok(sorts)
}

/// An example of a goal: its last test.
fn example_of(alloc: Global, spec: &Spec, goal: u32, multi: &Multi) -> Result<Example, AllocError>
    requires { IsGiven spec.now goal multi.now }
    ensures { IfOk result (IsExampleFor spec.now goal multi.now) }
{
    let sorts = sorts_of(alloc, spec.goal(goal).args.as_slice())?;
    let mut examples = tests(alloc, &sorts)?.into_vec();
    let Some(example) = examples.pop() else {
        return Err(AllocError);
    };
    let _ = multi;
    Ok(example)
}

/// The formula of a claim.
fn formula_of(
    alloc: Global,
    spec: &Spec,
    goal: u32,
    multi: &Multi,
    example: bool,
    terms: &mut Terms,
) -> Result<TermId, AllocError>
    requires given { IsGiven spec.now goal multi.now }
    requires pointer { terms.old.pointer ≡ spec.now.pointer }
    ensures { IfOk result (λ at. at.0 < length terms.new.nodes) }
{
    let first = encode(
        alloc,
        spec,
        goal,
        multi,
        Seq::new(alloc),
        Seq::new(alloc),
        terms,
    )?;
    if !example {
        return there(terms, first.formula);
    }
    let example = example_of(alloc, spec, goal, multi)?;
    let (more, _) = extend(alloc, spec, first, example, terms)?;
    there(terms, more.formula)
}

/// A node that is in the table.
fn there(terms: &Terms, at: TermId) -> Result<TermId, AllocError>
    ensures { IfOk result (λ at. at.0 < length terms.now.nodes) }
{
    if at.0 < terms.len() {
        Ok(at)
    } else {
        Err(AllocError)
    }
}

/// Whether a claim has a formula: no memory, and its operations are in the file.
fn is_given(spec: &Spec, goal: u32, multi: &Multi) -> bool
    requires { goal < length spec.now.goals }
    ensures { IsTrue result → IsGiven spec.now goal multi.now }
{
    let count = spec.ops.len();
    has_no_memory(spec, goal) && multi.ops().iter().all(|op| usize::from(*op) < count)
}

/// The sizes with those of a claim besides.
fn with_claim(
    alloc: Global,
    spec: &Spec,
    goal: u32,
    multi: &Multi,
    made: Made,
    sizes: Sizes,
) -> Result<Sizes> {
    if goal as usize >= spec.goals.len() || !is_given(spec, goal, multi) {
        bail!("a claim with a memory");
    }
    if hopeless(spec, goal, multi) {
        return Ok(sizes);
    }
    if spec.pointer == 0 || spec.pointer > 64 {
        bail!("no width of a pointer");
    }
    let mut terms = Terms::new(alloc, spec.pointer);
    let formula = formula_of(alloc, spec, goal, multi, made.example, &mut terms)?;
    let mut more = sizes;
    more.claims = sizes.claims.saturating_add(1);
    if !made.clauses || !is_formula(alloc, &terms, formula)? {
        return Ok(more);
    }
    let blasted = blast(alloc, &terms, formula)?;
    more.variables = sizes.variables.saturating_add(blasted.cnf.variables());
    more.clauses = sizes.clauses.saturating_add(blasted.cnf.clauses().len());
    Ok(more)
}

/// The sizes of all claims of a file.
fn sizes_of(alloc: Global, bytes: &[u8], bound: u8, made: Made) -> Result<Sizes> {
    let Ok(spec) = read_spec(alloc, bytes) else {
        bail!("no file");
    };
    let (goals, kinds) = (spec.goals.len(), spec.ops.len());
    if goals == 0 || goals > 256 || kinds == 0 || kinds > 64 || bound > 6 {
        bail!("no claims");
    }
    let Ok(plan) = ClaimPlan::new(goals as u32, kinds as u32, bound) else {
        bail!("too many claims");
    };
    let mut sizes = Sizes {
        claims: 0,
        variables: 0,
        clauses: 0,
    };
    for number in 0..plan.claims() {
        let (goal, multi) = plan.claim(number);
        sizes = with_claim(alloc, &spec, goal, &multi, made, sizes)?;
    }
    Ok(sizes)
}

fn main(rt: HostRuntime) -> Result<()> {
    let bound = bound(&rt)?;
    let made = asked(&rt)?;
    let mut bytes = Vec::new(rt.alloc());
    rt.reader().read_to_end(&mut bytes)?;
    let sizes = sizes_of(rt.alloc(), &bytes, bound, made)?;
    println!(rt; "claims {}", sizes.claims)?;
    println!(rt; "variables {}", sizes.variables)?;
    println!(rt; "clauses {}", sizes.clauses)?;
    Ok(())
}
