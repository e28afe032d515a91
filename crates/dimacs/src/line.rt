//! What the words of a line say: a head, a clause or a chain.

ghost use Rattle.std.specs.Prelude.{◌≡◌, ◌<◌, map, IfOk, IfSome};
ghost use Rattle.cnf_core.specs.Clause.{IsOver};
ghost use Rattle.dimacs.specs.Line.{number, head, signed, literal, literals, steps, chain};

use crate::text::is_word;
use cnf_core::{Chain, Lit};
use collections::Seq;
use sexp_read::numeral_between;
use std::alloc::{AllocError, Global};

/// The number of a numeral.
fn number(word: &[u8]) -> Option<usize>
    ensures { result ≡ number word.now }
{
    let number = numeral_between(0, u64::MAX, word)?;
    Some(number as usize)
}

/// The numbers of variables and of clauses that a head says, from its words after the `p`.
pub(crate) fn head(words: &[&[u8]]) -> Option<(usize, usize)>
    ensures { result ≡ head (map (λ word. word.now) words.now) }
{
    let [form, variables, clauses] = words else {
        return None;
    };
    if !is_word(form, b"cnf") {
        return None;
    }
    let variables = numeral_between(0, 1 << 40, variables)?;
    let clauses = number(clauses)?;
    Some((variables as usize, clauses))
}

/// The literal of a sign and a numeral, over that many variables.
fn signed(variables: usize, positive: bool, digits: &[u8]) -> Option<Lit>
    ensures value { result ≡ signed variables positive digits.now }
    ensures over { IfSome result (λ lit. lit.variable < variables) }
{
    let number = numeral_between(1, variables as u64, digits)?;
    Some(Lit {
        variable: number as usize - 1,
        positive,
    })
}

/// The literal of a word, over that many variables.
fn literal(variables: usize, word: &[u8]) -> Option<Lit>
    ensures value { result ≡ literal variables word.now }
    ensures over { IfSome result (λ lit. lit.variable < variables) }
{
    let [sign, digits @ ..] = word else {
        return None;
    };
    if *sign == b'-' {
        return signed(variables, false, digits);
    }
    signed(variables, true, word)
}

/// The literals of a clause, over that many variables. The last word is a 0, and no other.
pub(crate) fn literals(
    alloc: Global,
    variables: usize,
    words: &[&[u8]],
) -> Result<Option<Seq<Lit>>, AllocError>
    ensures value { IfOk result (λ found. found ≡ literals variables (map (λ word. word.now) words.now)) }
    ensures over { IfOk result (λ found. IfSome found (IsOver variables)) }
{
    let mut lits = Seq::new(alloc);
    for place in 0..words.len() {
        if is_word(words[place], b"0") {
            if place + 1 < words.len() {
                return Ok(None);
            }
            return Ok(Some(lits));
        }
        let Some(lit) = literal(variables, words[place]) else {
            return Ok(None);
        };
        lits.push(lit)?;
    }
    Ok(None)
}

/// The steps of a chain, over that many variables.
fn steps(
    alloc: Global,
    variables: usize,
    words: &[&[u8]],
) -> Result<Option<Seq<(Lit, usize)>>, AllocError>
    ensures { IfOk result (λ found. found ≡ steps variables (map (λ word. word.now) words.now)) }
{
    let mut steps = Seq::new(alloc);
    let mut place = 0;
    while place < words.len() {
        if place + 1 == words.len() {
            return Ok(None);
        }
        let Some(lit) = literal(variables, words[place]) else {
            return Ok(None);
        };
        let Some(clause) = number(words[place + 1]) else {
            return Ok(None);
        };
        steps.push((lit, clause))?;
        place += 2;
    }
    Ok(Some(steps))
}

/// The chain of a line, from its words after the `r`, over that many variables.
pub(crate) fn chain(
    alloc: Global,
    variables: usize,
    words: &[&[u8]],
) -> Result<Option<Chain>, AllocError>
    ensures { IfOk result (λ found. found ≡ chain variables (map (λ word. word.now) words.now)) }
{
    let [first, rest @ ..] = words else {
        return Ok(None);
    };
    let Some(first) = number(first) else {
        return Ok(None);
    };
    let Some(steps) = steps(alloc, variables, rest)? else {
        return Ok(None);
    };
    Ok(Some(Chain { first, steps }))
}
