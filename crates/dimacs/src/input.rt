//! What the lines of a text say, one after another.

ghost use Rattle.std.specs.Prelude.{◌≡◌, ℕ, [], ◌+◌, map, IfOk, IfSome, Ok};
ghost use Rattle.dimacs.specs.Text.{words};
ghost use Rattle.dimacs.specs.Input.{start, after_head, after_clause, after_chain, after_words, at_end, input_of};
ghost use Rattle.dimacs.specs.Input.{IsButForMemory};

use crate::error::{Fault, ParseError};
use crate::line::{chain, head, literals};
use crate::text::{is_comment, is_word, lines, words};
use cnf_core::{Clause, Cnf, Log};
use collections::Seq;
use std::alloc::Global;
use std::io;
use std::io::Read;

/// A formula, and a log over it.
#[derive(Debug, Drop)]
pub struct Input {
    pub cnf: Cnf,
    pub log: Log,
}

/// What the lines so far say: the number of clauses that the head names, where there was a head, and the input.
#[derive(Drop)]
struct Reader {
    clauses: Option<usize>,
    input: Input,
}

impl Reader {
    fn new(alloc: Global) -> Reader
        ensures { result ≡ start }
    {
        Reader {
            clauses: None,
            input: empty(alloc, 0),
        }
    }

    /// Takes the line of a head. Its words are those after the `p`.
    fn after_head(self, alloc: Global, line: usize, words: &[&[u8]]) -> Result<Reader, ParseError>
        ensures { IsButForMemory (after_head self line (map (λ word. word.now) words.now)) result }
    {
        if self.clauses.is_some() {
            return Err(ParseError::Line(line, Fault::LateHead));
        }
        let Some((variables, clauses)) = head(words) else {
            return Err(ParseError::Line(line, Fault::BadHead));
        };
        Ok(Reader {
            clauses: Some(clauses),
            input: empty(alloc, variables),
        })
    }

    /// Takes the line of a clause.
    fn after_clause(self, alloc: Global, line: usize, words: &[&[u8]]) -> Result<Reader, ParseError>
        ensures { IsButForMemory (after_clause self line (map (λ word. word.now) words.now)) result }
    {
        if self.clauses.is_none() {
            return Err(ParseError::Line(line, Fault::NoHead));
        }
        let Reader { clauses, input } = self;
        let Input { mut cnf, log } = input;
        if log.chains.len() > 0 {
            return Err(ParseError::Line(line, Fault::LateClause));
        }
        let Some(lits) = literals(alloc, cnf.variables(), words)? else {
            return Err(ParseError::Line(line, Fault::BadClause));
        };
        cnf.push(Clause { lits })?;
        Ok(Reader {
            clauses,
            input: Input { cnf, log },
        })
    }

    /// Takes the line of a chain. Its words are those after the `r`.
    fn after_chain(self, alloc: Global, line: usize, words: &[&[u8]]) -> Result<Reader, ParseError>
        ensures { IsButForMemory (after_chain self line (map (λ word. word.now) words.now)) result }
    {
        if self.clauses.is_none() {
            return Err(ParseError::Line(line, Fault::NoHead));
        }
        let Reader { clauses, input } = self;
        let Input { cnf, mut log } = input;
        let Some(chain) = chain(alloc, cnf.variables(), words)? else {
            return Err(ParseError::Line(line, Fault::BadChain));
        };
        log.chains.push(chain)?;
        Ok(Reader {
            clauses,
            input: Input { cnf, log },
        })
    }

    /// Takes the line of that number with those words.
    fn after_words(self, alloc: Global, line: usize, words: &[&[u8]]) -> Result<Reader, ParseError>
        ensures { IsButForMemory (after_words self line (map (λ word. word.now) words.now)) result }
    {
        let [first, rest @ ..] = words else {
            return Ok(self);
        };
        if is_comment(first) {
            return Ok(self);
        }
        if is_word(first, b"p") {
            return self.after_head(alloc, line, rest);
        }
        if is_word(first, b"r") {
            return self.after_chain(alloc, line, rest);
        }
        self.after_clause(alloc, line, words)
    }

    /// Takes the line of that number.
    fn after_line(self, alloc: Global, line: usize, text: &[u8]) -> Result<Reader, ParseError>
        ensures { IsButForMemory (after_words self line (words text.now)) result }
    {
        let words = words(alloc, text)?;
        self.after_words(alloc, line, words.as_slice())
    }

    /// What was read, where the text ends with the line of that number.
    fn at_end(self, line: usize) -> Result<Input, ParseError>
        ensures { result ≡ at_end line self }
    {
        let Reader { clauses, input } = self;
        let Some(clauses) = clauses else {
            return Err(ParseError::Line(line, Fault::NoHead));
        };
        if input.cnf.clauses().len() != clauses {
            return Err(ParseError::Line(line, Fault::WrongCount));
        }
        Ok(input)
    }
}

/// The formula over that many variables without a clause, and the log without a chain.
fn empty(alloc: Global, variables: usize) -> Input
    ensures { result ≡ record { cnf = record { variables = variables; clauses = [] }; log = record { chains = [] } } }
{
    Input {
        cnf: Cnf::new(alloc, variables),
        log: Log {
            chains: Seq::new(alloc),
        },
    }
}

/// The formula and the log that a text says, or the first line that is not of the form.
pub fn parse(alloc: Global, bytes: &[u8]) -> Result<Input, ParseError>
    ensures { IsButForMemory (input_of bytes.now) result }
{
    let lines = lines(alloc, bytes)?;
    let mut reader = Reader::new(alloc);
    for place in 0..lines.len() {
        reader = reader.after_line(alloc, place + 1, lines[place])?;
    }
    reader.at_end(lines.len())
}

/// Reads a reader to its end, and parses what it gave.
fn read_all<R: Read + Drop>(alloc: Global, mut reader: R) -> anyhow::Result<Input>
    ensures { IfOk result (λ input. IfSome (R.remaining reader) (λ bytes. input_of bytes ≡ Ok input)) }
{
    let mut bytes = Vec::new(alloc);
    reader.read_to_end(&mut bytes)?;
    let input = parse(alloc, bytes.as_slice())?;
    Ok(input)
}

/// Reads standard input to its end, and parses it. An error is that of [`parse`], or a fault of reading.
pub fn read(rt: &(impl io::Input + AllocGlobal)) -> anyhow::Result<Input> {
    read_all(rt.alloc(), rt.reader())
}
