//! The words of terms. Each node of the table of terms is visited once, over all formulas.

ghost use Rattle.std.specs.Prelude.{◌≡◌, ◌<◌, ◌==◌, [], length, slice_get, true, All, Contains, Some, OnOk, IfOk};
ghost use Rattle.indexmap.specs.IndexMap.{insert_entry};
ghost use Rattle.bv_terms.specs.Table.{Entry, IsTable, term_at};
ghost use Rattle.bv_terms.specs.Subterm.{keys_with};
ghost use Rattle.bit_blast.specs.Bits.{IsBitOf};
ghost use Rattle.bit_blast.specs.Clauses.{HasNoMemory};
ghost use Rattle.bit_blast.specs.Words.{wiring, HasWord, AreWords, AreUnvisited, IsTermWord, Moves, Widens};

use crate::word::{constant_word, input_word, of_one, of_three, of_two};
use bv_terms::{Op, TermId, Terms};
use circuit::{Circuit, Signal};
use collections::Seq;
use indexmap::IndexMap;
use std::alloc::{AllocError, Global};
use std::collections::BTreeSet;
use std::marker::Model;

/// The words of the nodes that were visited.
#[derive(Debug, Drop)]
pub(crate) struct Nodes {
    words: IndexMap<TermId, Seq<Signal>>,
}

impl Model for Nodes {
    ghost use Rattle.std.specs.Prelude.{List};
    ghost use Rattle.bv_terms.specs.declared.op.TermId.{TermId};
    ghost use Rattle.circuit.specs.declared.signal.Signal.{Signal};

    ghost Value = { List (TermId × List Signal) };

    ghost view = { λ n. n.words.entries };
}

impl Nodes {
    /// None.
    pub(crate) fn new(alloc: Global) -> Nodes
        ensures { result ≡ [] }
    {
        Nodes {
            words: IndexMap::new(alloc),
        }
    }

    /// The word of a node.
    pub(crate) fn word(&self, at: TermId) -> &[Signal]
        requires { HasWord self.now at }
        ensures { Contains self.now (at, result.now) }
    {
        self.words.get(&at).unwrap().as_slice()
    }

    /// The nodes below one that have no word, rising by number.
    fn unvisited(
        &self,
        alloc: Global,
        terms: &Terms,
        root: TermId,
    ) -> Result<Vec<TermId>, AllocError>
        requires table { IsTable terms.now }
        requires there { root.0 < length terms.now.nodes }
        ensures { IfOk result (λ nodes. AreUnvisited terms.now self.now root nodes.items) }
    {
        let mut pending = BTreeSet::new(alloc);
        pending.insert(root)?;
        let mut found = Vec::new(alloc);
        // The arguments of a node are smaller than it is, so the greatest comes once.
        while let Some(next) = pending.pop_last() {
            if self.words.contains_key(&next) {
                continue;
            }
            let (_, args) = terms.node(next);
            put_all(&mut pending, args)?;
            found.push(next)?;
        }
        found.reverse();
        Ok(found)
    }

    /// The word of a node over nodes that have words.
    fn word_of(
        &self,
        alloc: Global,
        terms: &Terms,
        circuit: &mut Circuit,
        at: TermId,
    ) -> Result<Seq<Signal>, AllocError>
        requires table { IsTable terms.now }
        requires words { AreWords terms.now (wiring circuit.old self.now) }
        requires there { at.0 < length terms.now.nodes }
        requires arguments { (e : Entry) → slice_get terms.now.nodes at.0 ≡ Some e → All (HasWord self.now) e.args }
        requires memory { HasNoMemory (term_at terms.now at) }
        ensures widens { OnOk result (Widens (IsBitOf (term_at terms.now at)) circuit.old circuit.new) }
        ensures word { IfOk result (IsTermWord terms.now.pointer circuit.new (term_at terms.now at)) }
    {
        let (op, args) = terms.node(at);
        if let Op::Input { number, sort } = *op {
            return input_word(alloc, circuit, number, sort.width());
        }
        if args.len() == 0 {
            return constant_word(alloc, *op);
        }
        if args.len() == 1 {
            return of_one(alloc, circuit, *op, self.word(args[0]));
        }
        if args.len() == 2 {
            return of_two(alloc, circuit, *op, self.word(args[0]), self.word(args[1]));
        }
        of_three(
            alloc,
            circuit,
            *op,
            self.word(args[0]),
            self.word(args[1]),
            self.word(args[2]),
        )
    }

    /// Visits a node and those below it.
    pub(crate) fn visit(
        &mut self,
        alloc: Global,
        terms: &Terms,
        circuit: &mut Circuit,
        root: TermId,
    ) -> Result<(), AllocError>
        requires table { IsTable terms.now }
        requires words { AreWords terms.now (wiring circuit.old self.old) }
        requires there { root.0 < length terms.now.nodes }
        requires memory { HasNoMemory (term_at terms.now root) }
        ensures moves { OnOk result (Moves terms.now (term_at terms.now root) (λ env. true)
            (wiring circuit.old self.old) (wiring circuit.new self.new)) }
        ensures visited { OnOk result (HasWord self.new root) }
    {
        let nodes = self.unvisited(alloc, terms, root)?;
        for next in nodes.iter() {
            let word = self.word_of(alloc, terms, circuit, *next)?;
            self.put(*next, word)?;
        }
        Ok(())
    }

    /// Puts in the word of a node.
    fn put(&mut self, at: TermId, word: Seq<Signal>) -> Result<(), AllocError>
        ensures { OnOk result (self.new ≡ insert_entry (λ a b. a.0 == b.0) self.old at word) }
    {
        self.words.insert(at, word)?;
        Ok(())
    }
}

/// Adds nodes to a set.
fn put_all(set: &mut BTreeSet<TermId>, nodes: &[TermId]) -> Result<(), AllocError>
    ensures { OnOk result (set.new.keys ≡ keys_with set.old.keys nodes.now) }
{
    for node in nodes {
        set.insert(*node)?;
    }
    Ok(())
}
