//! The walk over the items of a term's text, from left to right.

ghost use Rattle.std.specs.Prelude.{◌≡◌, ◌<◌, ◌++◌, length, map, OnOk, IfOk, None, Some, Ok, Err, MatchResult};
ghost use Rattle.std.specs.List.{All};
ghost use Rattle.bv_terms.specs.Table.{Extends};
ghost use Rattle.sexp_read.specs.Forest.{IsReading, tree_at, trees_by};
ghost use Rattle.term_text.specs.Build.{AreNodes, terms_at, sorts_at};
ghost use Rattle.term_text.specs.Head.{fault_at, span_of};
ghost use Rattle.term_text.specs.Reading.{constant_term, begins_with_hash, word_read, over, span_at, operator_fault};
ghost use Rattle.term_text.specs.Reading.{let_fault, accessed, term_read, terms_read, later_read, let_read};
ghost use Rattle.term_text.specs.Reading.{bindings_read, and_then, two_of};
ghost use Rattle.sexp_read.specs.Tree.{word_of, members_of};
ghost use Rattle.term_text.specs.Scope.{terms_under, scope_of, KeepsNames, AreNamesIn, AreIn};
ghost use Rattle.term_text.specs.Scope.{IsRead, AreRead, NamesAreRead};

use crate::bindings::{binding, let_fault};
use crate::fault::{TermFault, TermKind, fault_at};
use crate::head::{Access, Head, access_size, head_of};
use crate::judge::OperatorFault;
use crate::literal::{literal, truth_value};
use crate::operator::Operator;
use crate::scope::Scope;
use bv_terms::{Op, Sort, TermId, Terms};
use collections::NameMap;
use sexp_read::{Forest, name};
use std::alloc::{AllocError, Global};

/// A text and its items.
#[derive(Drop)]
pub(crate) struct Walk<'a> {
    pub(crate) bytes: &'a [u8],
    pub(crate) forest: &'a Forest,
}

/// The node of a constant.
fn constant(terms: &mut Terms, op: Op) -> Result<TermId, TermFault>
    ensures read { IsRead terms.new (Ok (constant_term op)) result }
    ensures extends { Extends terms.old terms.new }
{
    match terms.make(op, &[]) {
        Ok(made) => Ok(made),
        Err(_) => Err(TermFault::from(AllocError)),
    }
}

fn begins_with_hash(word: &[u8]) -> bool
    ensures { result ≡ begins_with_hash word.now }
{
    matches!(word, [b'#', ..])
}

/// The term of a word of this span.
fn word_term(
    span: (usize, usize),
    word: &[u8],
    scope: &Scope<'_>,
    terms: &mut Terms,
) -> Result<TermId, TermFault>
    requires names { AreIn terms.old scope.now }
    ensures read { IsRead terms.new (word_read (scope_of terms.old scope.now) span word.now) result }
    ensures extends { Extends terms.old terms.new }
{
    if begins_with_hash(word) {
        let Some(op) = literal(word) else {
            return Err(fault_at(TermKind::Literal, span));
        };
        return constant(terms, op);
    }
    if let Some(op) = truth_value(word) {
        return constant(terms, op);
    }
    match scope.find(word) {
        Some(at) => Ok(at),
        None => Err(fault_at(TermKind::Unknown, span)),
    }
}

/// The sorts of nodes.
fn sorts(alloc: Global, terms: &Terms, nodes: &[TermId]) -> Result<Vec<Sort>, AllocError>
    requires { AreNodes terms.now nodes.now }
    ensures { IfOk result (λ sorts. sorts.items ≡ sorts_at terms.now nodes.now) }
{
    let mut sorts = Vec::new(alloc);
    for node in nodes {
        sorts.push(terms.sort(*node))?;
    }
    Ok(sorts)
}

/// A node, or out of memory.
fn made(made: Result<TermId, AllocError>) -> Result<TermId, TermFault>
    ensures { MatchResult made (λ at. result ≡ Ok at) (λ _. result ≡ Err (fault_at TermKind.NoMemory (0, 0))) }
{
    match made {
        Ok(at) => Ok(at),
        Err(error) => Err(TermFault::from(error)),
    }
}

/// Two items, where there are two.
fn two_of(items: &[usize]) -> Option<(usize, usize)>
    ensures { result ≡ two_of items.now }
{
    match items {
        [first, second] => Some((*first, *second)),
        _ => None,
    }
}

impl Walk<'_> {
    fn span(&self, item: usize) -> (usize, usize)
        requires reading { IsReading self.now.bytes.now self.now.forest.now }
        requires item_in { item < length self.now.forest.now.items }
        ensures { result ≡ span_of (tree_at self.now.bytes.now self.now.forest.now.items item) }
    {
        self.forest.span(item)
    }

    /// The items of the list that an item is.
    fn members(&self, item: usize) -> &[usize]
        requires reading { IsReading self.now.bytes.now self.now.forest.now }
        requires item_in { item < length self.now.forest.now.items }
        requires list { word_of (tree_at self.now.bytes.now self.now.forest.now.items item) ≡ None }
        ensures members { members_of (tree_at self.now.bytes.now self.now.forest.now.items item)
            ≡ Some (map (tree_at self.now.bytes.now self.now.forest.now.items) result.now) }
        ensures later { All (λ child. (item < child) × (child < length self.now.forest.now.items)) result.now }
    {
        self.forest.children(item).unwrap()
    }

    fn span_at(&self, items: &[usize], place: usize) -> (usize, usize)
        requires reading { IsReading self.now.bytes.now self.now.forest.now }
        requires items_in { All (λ item. item < length self.now.forest.now.items) items.now }
        ensures { result ≡ span_at (map (tree_at self.now.bytes.now self.now.forest.now.items) items.now) place }
    {
        match items.get(place) {
            Some(item) => self.span(*item),
            None => (0, 0),
        }
    }

    /// Where a list of this span with these arguments has the fault.
    fn operator_fault(
        &self,
        span: (usize, usize),
        items: &[usize],
        fault: OperatorFault,
    ) -> TermFault
        requires reading { IsReading self.now.bytes.now self.now.forest.now }
        requires items_in { All (λ item. item < length self.now.forest.now.items) items.now }
        ensures { result ≡ operator_fault span
            (map (tree_at self.now.bytes.now self.now.forest.now.items) items.now) fault }
    {
        match fault {
            OperatorFault::Arity => fault_at(TermKind::Arity, span),
            OperatorFault::Sorts { place } => fault_at(TermKind::Sorts, self.span_at(items, place)),
            OperatorFault::Index => fault_at(TermKind::Index, span),
            OperatorFault::Width => fault_at(TermKind::Width, span),
        }
    }

    /// An operator over the nodes of these items' terms.
    fn over(
        &self,
        alloc: Global,
        span: (usize, usize),
        operator: Operator,
        items: &[usize],
        args: &[TermId],
        terms: &mut Terms,
    ) -> Result<TermId, TermFault>
        requires reading { IsReading self.now.bytes.now self.now.forest.now }
        requires items_in { All (λ item. item < length self.now.forest.now.items) items.now }
        requires nodes { AreNodes terms.old args.now }
        ensures read { IsRead terms.new (over terms.old.pointer span
            (map (tree_at self.now.bytes.now self.now.forest.now.items) items.now) operator
            (terms_at terms.old args.now)) result }
        ensures extends { Extends terms.old terms.new }
    {
        let sorts = sorts(alloc, terms, args)?;
        match operator.judge(terms.pointer(), sorts.as_slice()) {
            Ok(_) => made(operator.write_out(terms, args)),
            Err(fault) => Err(self.operator_fault(span, items, fault)),
        }
    }

    /// The term of an item.
    #[cycle(term)]
    pub(crate) fn term(
        &self,
        alloc: Global,
        item: usize,
        scope: &mut Scope<'_>,
        terms: &mut Terms,
    ) -> Result<TermId, TermFault>
        requires reading { IsReading self.now.bytes.now self.now.forest.now }
        requires item_in { item < length self.now.forest.now.items }
        requires names { AreIn terms.old scope.old }
        ensures read { IsRead terms.new (term_read terms.old.pointer (scope_of terms.old scope.old)
            (tree_at self.now.bytes.now self.now.forest.now.items item)) result }
        ensures extends { Extends terms.old terms.new }
        ensures scope { OnOk result (KeepsNames scope.old scope.new) }
    {
        let span = self.span(item);
        if let Some(word) = self.forest.atom(self.bytes, item) {
            return word_term(span, word, scope, terms);
        }
        let children = self.members(item);
        let [head, rest @ ..] = children else {
            return Err(fault_at(TermKind::Unknown, span));
        };
        match head_of(self.bytes, self.forest, span, *head, rest)? {
            Head::Constant(op) => constant(terms, op),
            Head::Applied(operator) => self.application(alloc, item, operator, rest, scope, terms),
            Head::Accessing(access) => self.access(alloc, item, access, rest, scope, terms),
            Head::Binding => self.binding(alloc, item, rest, scope, terms),
        }
    }

    /// The terms of items in the list that an item is, from left to right.
    #[cycle(term)]
    fn terms(
        &self,
        alloc: Global,
        list: usize,
        items: &[usize],
        scope: &mut Scope<'_>,
        terms: &mut Terms,
    ) -> Result<Vec<TermId>, TermFault>
        requires reading { IsReading self.now.bytes.now self.now.forest.now }
        requires list_in { list < length self.now.forest.now.items }
        requires later { All (λ item. (list < item) × (item < length self.now.forest.now.items)) items.now }
        requires names { AreIn terms.old scope.old }
        ensures read { AreRead terms.new (terms_read terms.old.pointer (scope_of terms.old scope.old)
            (trees_by (tree_at self.now.bytes.now self.now.forest.now.items) items.now)) result }
        ensures extends { Extends terms.old terms.new }
        ensures scope { OnOk result (KeepsNames scope.old scope.new) }
    {
        let mut args = Vec::new(alloc);
        for item in items {
            let arg = self.term(alloc, *item, scope, terms)?;
            args.push(arg)?;
        }
        Ok(args)
    }

    /// An operator over the terms of items in the list that an item is.
    #[cycle(term)]
    fn application(
        &self,
        alloc: Global,
        list: usize,
        operator: Operator,
        items: &[usize],
        scope: &mut Scope<'_>,
        terms: &mut Terms,
    ) -> Result<TermId, TermFault>
        requires reading { IsReading self.now.bytes.now self.now.forest.now }
        requires list_in { list < length self.now.forest.now.items }
        requires later { All (λ item. (list < item) × (item < length self.now.forest.now.items)) items.now }
        requires names { AreIn terms.old scope.old }
        ensures read { IsRead terms.new (and_then (terms_read terms.old.pointer (scope_of terms.old scope.old)
            (trees_by (tree_at self.now.bytes.now self.now.forest.now.items) items.now))
            (over terms.old.pointer (span_of (tree_at self.now.bytes.now self.now.forest.now.items list))
            (map (tree_at self.now.bytes.now self.now.forest.now.items) items.now) operator)) result }
        ensures extends { Extends terms.old terms.new }
        ensures scope { OnOk result (KeepsNames scope.old scope.new) }
    {
        let args = self.terms(alloc, list, items, scope, terms)?;
        let span = self.span(list);
        self.over(alloc, span, operator, items, args.as_slice(), terms)
    }

    /// An access to a memory, in the list that an item is: its number of bytes, and then its arguments.
    #[cycle(term)]
    fn access(
        &self,
        alloc: Global,
        list: usize,
        access: Access,
        items: &[usize],
        scope: &mut Scope<'_>,
        terms: &mut Terms,
    ) -> Result<TermId, TermFault>
        requires reading { IsReading self.now.bytes.now self.now.forest.now }
        requires list_in { list < length self.now.forest.now.items }
        requires later { All (λ item. (list < item) × (item < length self.now.forest.now.items)) items.now }
        requires names { AreIn terms.old scope.old }
        ensures read { IsRead terms.new (accessed terms.old.pointer
            (span_of (tree_at self.now.bytes.now self.now.forest.now.items list)) access
            (map (tree_at self.now.bytes.now self.now.forest.now.items) items.now)
            (later_read terms.old.pointer (scope_of terms.old scope.old)
            (trees_by (tree_at self.now.bytes.now self.now.forest.now.items) items.now))) result }
        ensures extends { Extends terms.old terms.new }
        ensures scope { OnOk result (KeepsNames scope.old scope.new) }
    {
        let [size, rest @ ..] = items else {
            return Err(fault_at(TermKind::Arity, self.span(list)));
        };
        let Some(bytes) = access_size(terms.pointer(), self.bytes, self.forest, *size) else {
            return Err(fault_at(TermKind::Index, self.span(*size)));
        };
        let operator = Operator::Operation(access.operation(bytes));
        self.application(alloc, list, operator, rest, scope, terms)
    }

    /// A `let`, which is the list that an item is: its bindings, and then its body.
    #[cycle(term)]
    fn binding(
        &self,
        alloc: Global,
        list: usize,
        items: &[usize],
        scope: &mut Scope<'_>,
        terms: &mut Terms,
    ) -> Result<TermId, TermFault>
        requires reading { IsReading self.now.bytes.now self.now.forest.now }
        requires list_in { list < length self.now.forest.now.items }
        requires later { All (λ item. (list < item) × (item < length self.now.forest.now.items)) items.now }
        requires names { AreIn terms.old scope.old }
        ensures read { IsRead terms.new (let_read terms.old.pointer (scope_of terms.old scope.old)
            (span_of (tree_at self.now.bytes.now self.now.forest.now.items list))
            (trees_by (tree_at self.now.bytes.now self.now.forest.now.items) items.now)) result }
        ensures extends { Extends terms.old terms.new }
        ensures scope { OnOk result (KeepsNames scope.old scope.new) }
    {
        let span = self.span(list);
        let Some((form, body)) = two_of(items) else {
            return Err(fault_at(TermKind::Arity, span));
        };
        let Some(bindings) = self.forest.children(form) else {
            return Err(fault_at(TermKind::Arity, span));
        };
        if let Some(fault) = let_fault(alloc, self.bytes, self.forest, span, bindings)? {
            return Err(fault);
        }
        let bound = self.bound_terms(alloc, list, bindings, scope, terms)?;
        self.body(alloc, body, bound, scope, terms)
    }

    /// The term of an item under names that are bound around it.
    #[cycle(term)]
    fn body(
        &self,
        alloc: Global,
        item: usize,
        bound: NameMap<TermId>,
        scope: &mut Scope<'_>,
        terms: &mut Terms,
    ) -> Result<TermId, TermFault>
        requires reading { IsReading self.now.bytes.now self.now.forest.now }
        requires item_in { item < length self.now.forest.now.items }
        requires bound { AreNamesIn terms.old bound }
        requires names { AreIn terms.old scope.old }
        ensures read { IsRead terms.new (term_read terms.old.pointer
            (terms_under terms.old bound ++ scope_of terms.old scope.old)
            (tree_at self.now.bytes.now self.now.forest.now.items item)) result }
        ensures extends { Extends terms.old terms.new }
        ensures scope { OnOk result (KeepsNames scope.old scope.new) }
    {
        scope.bound.push(bound)?;
        let term = self.term(alloc, item, scope, terms)?;
        let _ = scope.bound.pop();
        Ok(term)
    }

    /// The terms that names are bound to, in the list that an item is.
    #[cycle(term)]
    fn bound_terms(
        &self,
        alloc: Global,
        list: usize,
        bindings: &[usize],
        scope: &mut Scope<'_>,
        terms: &mut Terms,
    ) -> Result<NameMap<TermId>, TermFault>
        requires reading { IsReading self.now.bytes.now self.now.forest.now }
        requires list_in { list < length self.now.forest.now.items }
        requires later { All (λ item. (list < item) × (item < length self.now.forest.now.items)) bindings.now }
        requires fit { let_fault (span_of (tree_at self.now.bytes.now self.now.forest.now.items list))
            (map (tree_at self.now.bytes.now self.now.forest.now.items) bindings.now) ≡ None }
        requires names { AreIn terms.old scope.old }
        ensures read { NamesAreRead terms.new (bindings_read terms.old.pointer (scope_of terms.old scope.old)
            (trees_by (tree_at self.now.bytes.now self.now.forest.now.items) bindings.now)) result }
        ensures extends { Extends terms.old terms.new }
        ensures scope { OnOk result (KeepsNames scope.old scope.new) }
    {
        let mut bound = NameMap::new(alloc);
        for item in bindings {
            let (word, term) = binding(self.bytes, self.forest, *item).unwrap();
            let name = name(word).unwrap();
            let at = self.term(alloc, term, scope, terms)?;
            bound.insert(String::from_str(alloc, name)?, at)?;
        }
        Ok(bound)
    }
}
