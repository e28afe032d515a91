//! The table of terms. Each node stands over earlier ones, is well-sorted and stands there once; so nodes denote
//! terms one to one.

ghost use Rattle.std.specs.Prelude.{◌≡◌, ◌<◌, ◌≤◌, [], length, map, slice_get, All, Contains};
ghost use Rattle.std.specs.Prelude.{None, Some, IfOk, IfErr, OnOk, OnErr, MatchOption, MatchResult};
ghost use Rattle.bv_terms.specs.declared.value.Sort.{Sort};
ghost use Rattle.bv_terms.specs.Term.{Apply, value};
ghost use Rattle.bv_terms.specs.Sorts.{HasSort};
ghost use Rattle.bv_terms.specs.WellSorted.{sort_of, InputsFit};
ghost use Rattle.bv_terms.specs.Table.{Entry, operands, terms_of, term_at, make_refusal, table_with};
ghost use Rattle.bv_terms.specs.Table.{Extends, IsTable, Makes};
ghost use Rattle.bv_terms.specs.Subterm.{AreSubterms, IsTopological, keys_with};
ghost use Rattle.bv_terms.specs.Eval.{IsValued};
ghost use Rattle.bv_terms.specs.Memory.{thing, Plain};
ghost use Rattle.bv_terms.specs.declared.op.TermId.{TermId};
ghost use Rattle.bv_terms.specs.Node.{entry_of, node_of};

use crate::eval::apply;
use crate::node::Node;
use crate::op::{MakeFault, Op, TermId};
use crate::value::{Env, Sort, Value};
use indexmap::IndexMap;
use std::alloc::{AllocError, Global};
use std::collections::BTreeSet;
use std::marker::Model;

/// The most nodes of a table.
const MOST_NODES: usize = 1 << 22;

/// A table of nodes. Each node is an operation over earlier nodes, and no two nodes are equal.
/// Contracts see it as the width of a pointer in bits and the list of the nodes.
#[derive(Debug, Drop)]
pub struct Terms {
    pointer: u8,
    /// The nodes, each with its sort.
    nodes: IndexMap<Node, Sort>,
}

impl Model for Terms {
    ghost use Rattle.bv_terms.specs.Table.{Table};
    ghost use Rattle.bv_terms.specs.Node.{table_of, IsTermTable};

    ghost Value = { Table };

    ghost view = { λ t. table_of t.pointer t.nodes.entries };

    ghost invariant = { λ t. IsTermTable t.pointer t.nodes.entries };
}

impl Terms {
    /// The empty table, for pointers of so many bits.
    pub fn new(alloc: Global, pointer: u8) -> Terms
        requires wide { 1 ≤ pointer }
        requires narrow { pointer ≤ 64 }
        ensures { result ≡ record { pointer = pointer; nodes = [] } }
    {
        Terms {
            pointer,
            nodes: IndexMap::new(alloc),
        }
    }

    /// The width of a pointer in bits.
    pub fn pointer(&self) -> u8
        ensures { result ≡ self.now.pointer }
    {
        self.pointer
    }

    /// The number of nodes.
    pub fn len(&self) -> usize
        ensures len { result ≡ length self.now.nodes }
        ensures table { IsTable self.now }
    {
        self.nodes.len()
    }

    /// The sort of a node's term.
    pub fn sort(&self, at: TermId) -> Sort
        requires { at.0 < length self.now.nodes }
        ensures { sort_of self.now.pointer (term_at self.now at) ≡ Some result }
    {
        let (_, sort) = self.nodes.get_index(at.0).unwrap();
        *sort
    }

    /// The operation of a node and its arguments, which are earlier nodes.
    pub fn node(&self, at: TermId) -> (&Op, &[TermId])
        requires { at.0 < length self.now.nodes }
        ensures { slice_get self.now.nodes at.0 ≡ Some (record { op = result.0.now; args = result.1.now }) }
    {
        let (node, _) = self.nodes.get_index(at.0).unwrap();
        (&node.op, node.args())
    }

    /// The node of an operation over nodes: the one that is there, or else one added at the end.
    ///
    /// The first fault counts: `Arity`, `Sorts`, `Index`, `Width`. After a fault the table is as it was. A table that
    /// would have more than 2^22 nodes is out of memory.
    pub fn make(&mut self, op: Op, args: &[TermId]) -> Result<TermId, MakeFault>
        requires { All (λ a. a.0 < length self.old.nodes) args.now }
        ensures refused { MatchOption (make_refusal self.old op args.now)
            (IfErr result (λ f. f ≡ MakeFault.NoMemory)) (λ f. result ≡ Err f) }
        ensures made { IfOk result (Makes self.old (record { op = op; args = args.now }) self.new) }
        ensures err { OnErr result (self.new ≡ self.old) }

        // What callers use of it.
        ensures table { IsTable self.new }
        ensures extends { Extends self.old self.new }
        ensures longer { length self.old.nodes ≤ length self.new.nodes }
        ensures within { IfOk result (λ id. id.0 < length self.new.nodes) }
        ensures kept { (at : TermId) → at.0 < length self.old.nodes → term_at self.new at ≡ term_at self.old at }
        ensures term { IfOk result (λ id. term_at self.new id ≡ Apply op (operands (terms_of self.old) args.now)) }
        ensures sort { IfOk result
            (λ id. sort_of self.old.pointer (term_at self.new id)
            ≡ sort_of self.old.pointer (Apply op (operands (terms_of self.old) args.now))) }
    {
        let sort = self.sort_over(op, args)?;
        let node = Node::new(op, args);
        match self.nodes.get_index_of(&node) {
            Some(place) => Ok(TermId(place)),
            None => self.add(node, sort),
        }
    }

    /// The value of a node's term, where the inputs have the environment's values. It takes no
    /// memory: `room` is filled from the front with the values of the nodes up to this one.
    pub fn eval(&self, at: TermId, env: &Env, room: &mut [Value]) -> Value
        requires there { at.0 < length self.now.nodes }
        requires inputs { InputsFit env.now.values (term_at self.now at) }
        requires room { length self.now.nodes ≤ length room.old }
        ensures value { result ≡ value env.now.values (term_at self.now at) }
        ensures sorted { (s : Sort) → sort_of self.now.pointer (term_at self.now at) ≡ Some s → HasSort s result }
        ensures thing { thing self.now.pointer (map Plain env.now.values) (term_at self.now at) ≡ Plain result }
    {
        let _ = &self.nodes;
        let inputs = env.values.as_slice();
        for place in 0..at.0 + 1 {
            let value = self.step(TermId(place), inputs, room);
            room[place] = value;
        }
        room[at.0]
    }

    /// The nodes of the subterms of these nodes' terms, each once, rising by number. It costs these
    /// nodes and no others of the table. An `Err` is out of memory.
    pub fn subterms(&self, alloc: Global, results: &[TermId]) -> Result<Vec<TermId>, AllocError>
        requires { All (λ at. at.0 < length self.now.nodes) results.now }
        ensures exact { IfOk result (λ nodes. AreSubterms self.now results.now nodes.items) }

        // What callers use of it.
        ensures order { IfOk result (λ nodes. IsTopological self.now nodes.items) }
        ensures results { IfOk result (λ nodes. All (Contains nodes.items) results.now) }
    {
        let _ = &self.nodes;
        let mut pending = BTreeSet::new(alloc);
        put_all(&mut pending, results)?;
        let mut found = Vec::new(alloc);
        // The arguments of a node are smaller than it is, so the greatest comes once.
        while let Some(at) = pending.pop_last() {
            let (_, args) = self.node(at);
            put_all(&mut pending, args)?;
            found.push(at)?;
        }
        found.reverse();
        Ok(found)
    }

    /// Sets the places of these nodes to the values of their terms, where the inputs have the
    /// environment's values. Each node stands after its arguments. It takes no memory, and costs
    /// these nodes and no others of the table.
    pub fn eval_nodes(&self, nodes: &[TermId], env: &Env, room: &mut [Value])
        requires order { IsTopological self.now nodes.now }
        requires inputs { All (λ at. InputsFit env.now.values (term_at self.now at)) nodes.now }
        requires room { length self.now.nodes ≤ length room.old }
        ensures values { All (IsValued self.now env.now.values room.new) nodes.now }
        ensures others { (at : TermId) → ¬ Contains nodes.now at → slice_get room.new at.0 ≡ slice_get room.old at.0 }
    {
        let inputs = env.values.as_slice();
        for at in nodes {
            let value = self.step(*at, inputs, room);
            room[at.0] = value;
        }
    }

    /// The value of a node's term, where the values of its arguments stand in their places.
    fn step(&self, at: TermId, inputs: &[Value], room: &[Value]) -> Value
        requires there { at.0 < length self.now.nodes }
        requires room { length self.now.nodes ≤ length room.now }
        ensures value { (e : Entry) → slice_get self.now.nodes at.0 ≡ Some e
            → All (IsValued self.now inputs.now room.now) e.args
            → InputsFit inputs.now (term_at self.now at) → result ≡ value inputs.now (term_at self.now at) }
        ensures table { IsTable self.now }
    {
        let (node, _) = self.nodes.get_index(at.0).unwrap();
        apply(&node.op, &node.args, inputs, room)
    }

    /// The sort of an operation over nodes, or why it cannot stand over them.
    fn sort_over(&self, op: Op, args: &[TermId]) -> Result<Sort, MakeFault>
        requires table { IsTable self.now }
        requires args { All (λ a. a.0 < length self.now.nodes) args.now }
        ensures fault { MatchResult result
            (λ _. make_refusal self.now op args.now ≡ None) (λ f. make_refusal self.now op args.now ≡ Some f) }
        ensures sort { IfOk result
            (λ s. sort_of self.now.pointer (Apply op (operands (terms_of self.now) args.now)) ≡ Some s) }
    {
        match *args {
            [] => op.sort_over(self.pointer, &[]),
            [only] => op.sort_over(self.pointer, &[self.sort(only)]),
            [first, second] => op.sort_over(self.pointer, &[self.sort(first), self.sort(second)]),
            [first, second, third] => {
                op.sort_over(
                    self.pointer,
                    &[self.sort(first), self.sort(second), self.sort(third)],
                )
            }
            _ => Err(MakeFault::Arity),
        }
    }

    /// Adds a node that is not there. An `Err` is out of memory; it leaves the table as it was.
    fn add(&mut self, node: Node, sort: Sort) -> Result<TermId, MakeFault>
        requires padded { node ≡ node_of (entry_of node) }
        requires earlier { All (λ a. a.0 < length self.old.nodes) (entry_of node).args }
        requires sorted { sort_of self.old.pointer (Apply node.op (operands (terms_of self.old) (entry_of node).args))
            ≡ Some sort }
        requires new { ¬ Contains self.old.nodes (entry_of node) }
        ensures place { IfOk result (λ id. id.0 ≡ length self.old.nodes) }
        ensures added { OnOk result (self.new ≡ table_with self.old (entry_of node)) }
        ensures err { OnErr result (self.new ≡ self.old) }
        ensures memory { IfErr result (λ f. f ≡ MakeFault.NoMemory) }
        ensures table { IsTable self.new }
    {
        let place = self.len();
        if place >= MOST_NODES {
            return Err(MakeFault::NoMemory);
        }
        self.nodes.insert(node, sort)?;
        Ok(TermId(place))
    }
}

/// Adds nodes to a set.
fn put_all(set: &mut BTreeSet<TermId>, nodes: &[TermId]) -> Result<(), AllocError>
    ensures { OnOk result (set.new.keys ≡ keys_with set.old.keys nodes.now) }
{
    for node in nodes {
        set.insert(*node)?;
    }
    Ok(())
}
