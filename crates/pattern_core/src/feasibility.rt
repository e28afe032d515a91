//! Whether counts and sorts alone tell that a goal has no pattern with a multiset of operations. No call takes memory.

ghost use Rattle.std.specs.Prelude.{◌≡◌, ◌+◌, ◌<◌, ◌≤◌, length, sum_by, slice_get, Some, not, ◌||◌, ◌&&◌, nat_lt};
ghost use Rattle.std.specs.List.{list_any};
ghost use Rattle.bv_terms.specs.Table.{term_at};
ghost use Rattle.isel_spec.specs.File.{Goal, sorts_in};
ghost use Rattle.isel_spec.specs.Spec.{file};
ghost use Rattle.multiset_rank.specs.Multisets.{AreBelow};
ghost use Rattle.pattern_core.specs.declared.pattern.Pattern.{Pattern};
ghost use Rattle.pattern_core.specs.Claim.{Claim, IsClaim, IsPatternOf};
ghost use Rattle.pattern_core.specs.Symbolic.{AreIn};
ghost use Rattle.pattern_core.specs.Hopeless.{args_at, results_at, is_among, has_sort, has_source, lacks_result};
ghost use Rattle.pattern_core.specs.Hopeless.{is_hopeless, IsHopeless};

use bv_terms::{Sort, TermId};
use isel_spec::{Kind, Spec};
use multiset_rank::Multi;

/// Whether one of the sorts is this one.
fn is_among(sorts: &[Sort], sort: Sort) -> bool
    ensures { result ≡ is_among sorts.now sort }
{
    for other in sorts {
        if other.is_same(sort) {
            return true;
        }
    }
    false
}

/// Whether an input of a goal is of the sort.
fn is_input(args: &[(Kind, Sort)], sort: Sort) -> bool
    ensures { result ≡ is_among (sorts_in args.now) sort }
{
    for arg in args {
        if arg.1.is_same(sort) {
            return true;
        }
    }
    false
}

/// The sorts of an operation's arguments.
fn args_of(spec: &Spec, op: usize) -> &[Sort]
    requires { op < length spec.now.ops }
    ensures { result.now ≡ args_at (file spec.now) op }
{
    spec.op(op).args.as_slice()
}

/// Whether a node's term is of the sort.
fn has_sort(spec: &Spec, at: TermId, sort: Sort) -> bool
    requires { at.0 < length spec.now.terms.nodes }
    ensures { result ≡ has_sort (file spec.now) sort (term_at spec.now.terms at) }
{
    spec.terms.sort(at).is_same(sort)
}

/// Whether one of the nodes' terms is of the sort.
fn is_result(spec: &Spec, results: &[TermId], sort: Sort) -> bool
    requires { AreIn spec.now.terms results.now }
    ensures { result ≡ list_any (λ at. has_sort (file spec.now) sort (term_at spec.now.terms at)) results.now }
{
    for at in results {
        if has_sort(spec, *at, sort) {
            return true;
        }
    }
    false
}

/// Whether a result of an operation is of the sort.
fn gives(spec: &Spec, op: usize, sort: Sort) -> bool
    requires { op < length spec.now.ops }
    ensures { result ≡ list_any (has_sort (file spec.now) sort) (results_at (file spec.now) op) }
{
    let results = spec.op(op).results.as_slice();
    is_result(spec, results, sort)
}

/// Whether a result of one of the operations is of the sort.
fn some_gives(spec: &Spec, ops: &[u16], sort: Sort) -> bool
    requires { AreBelow (length spec.now.ops) ops.now }
    ensures { result
        ≡ list_any (λ k. list_any (has_sort (file spec.now) sort) (results_at (file spec.now) k)) ops.now }
{
    for op in ops {
        if gives(spec, usize::from(*op), sort) {
            return true;
        }
    }
    false
}

/// Whether an input of the goal, whose arguments are these, or a result of one of the operations is of the sort.
fn has_source(spec: &Spec, args: &[(Kind, Sort)], ops: &[u16], sort: Sort) -> bool
    requires { AreBelow (length spec.now.ops) ops.now }
    ensures { result ≡ has_source (file spec.now) (sorts_in args.now) ops.now sort }
{
    is_input(args, sort) || some_gives(spec, ops, sort)
}

/// Whether there is no source of one of the sorts.
fn some_lacks(spec: &Spec, args: &[(Kind, Sort)], ops: &[u16], sorts: &[Sort]) -> bool
    requires { AreBelow (length spec.now.ops) ops.now }
    ensures { result ≡ list_any (λ s. not (has_source (file spec.now) (sorts_in args.now) ops.now s)) sorts.now }
{
    for sort in sorts {
        if !has_source(spec, args, ops, *sort) {
            return true;
        }
    }
    false
}

/// Whether there is no source of the sort of an argument of one of the operations.
fn lacks_argument(spec: &Spec, args: &[(Kind, Sort)], ops: &[u16]) -> bool
    requires { AreBelow (length spec.now.ops) ops.now }
    ensures { result ≡ list_any (λ k. list_any (λ s. not (has_source (file spec.now) (sorts_in args.now) ops.now s))
        (args_at (file spec.now) k)) ops.now }
{
    for op in ops {
        if some_lacks(spec, args, ops, args_of(spec, usize::from(*op))) {
            return true;
        }
    }
    false
}

/// Whether there is no source of the sort of a node's term.
fn lacks_source_of(spec: &Spec, args: &[(Kind, Sort)], ops: &[u16], at: TermId) -> bool
    requires below { AreBelow (length spec.now.ops) ops.now }
    requires there { at.0 < length spec.now.terms.nodes }
    ensures { result ≡ lacks_result (file spec.now) (sorts_in args.now) ops.now (term_at spec.now.terms at) }
{
    let sort = spec.terms.sort(at);
    !has_source(spec, args, ops, sort)
}

/// Whether there is no source of the sort of one of the nodes' terms.
fn lacks_result(spec: &Spec, args: &[(Kind, Sort)], ops: &[u16], results: &[TermId]) -> bool
    requires below { AreBelow (length spec.now.ops) ops.now }
    requires there { AreIn spec.now.terms results.now }
    ensures { result ≡ list_any
        (λ at. lacks_result (file spec.now) (sorts_in args.now) ops.now (term_at spec.now.terms at)) results.now }
{
    for at in results {
        if lacks_source_of(spec, args, ops, *at) {
            return true;
        }
    }
    false
}

/// Whether there is no source of the sort of an argument of one of the operations, or of one of the nodes' terms.
fn lacks_source(spec: &Spec, args: &[(Kind, Sort)], ops: &[u16], results: &[TermId]) -> bool
    requires below { AreBelow (length spec.now.ops) ops.now }
    requires there { AreIn spec.now.terms results.now }
    ensures { result
        ≡ (list_any (λ k. list_any (λ s. not (has_source (file spec.now) (sorts_in args.now) ops.now s))
        (args_at (file spec.now) k)) ops.now
        || list_any (λ at. lacks_result (file spec.now) (sorts_in args.now) ops.now (term_at spec.now.terms at))
        results.now) }
{
    lacks_argument(spec, args, ops) || lacks_result(spec, args, ops, results)
}

/// Whether one of the operations takes a memory.
fn takes_memory(spec: &Spec, ops: &[u16]) -> bool
    requires { AreBelow (length spec.now.ops) ops.now }
    ensures { result ≡ list_any (λ k. is_among (args_at (file spec.now) k) Sort.Mem) ops.now }
{
    for op in ops {
        if is_among(args_of(spec, usize::from(*op)), Sort::Mem) {
            return true;
        }
    }
    false
}

/// Whether one of the operations takes a memory, and the goal, whose arguments are these, takes none.
fn adds_memory(spec: &Spec, args: &[(Kind, Sort)], ops: &[u16]) -> bool
    requires { AreBelow (length spec.now.ops) ops.now }
    ensures { result ≡ (not (is_among (sorts_in args.now) Sort.Mem)
        && list_any (λ k. is_among (args_at (file spec.now) k) Sort.Mem) ops.now) }
{
    !is_input(args, Sort::Mem) && takes_memory(spec, ops)
}

/// How many arguments an operation has.
fn arity(spec: &Spec, op: usize) -> usize
    requires { op < length spec.now.ops }
    ensures value { result ≡ length (args_at (file spec.now) op) }
    ensures small { result ≤ 4 }
{
    spec.op(op).args.len()
}

/// How many arguments the operations have together.
fn argument_count(spec: &Spec, ops: &[u16]) -> usize
    requires below { AreBelow (length spec.now.ops) ops.now }
    requires few { length ops.now ≤ 6 }
    ensures value { result ≡ sum_by (λ k. length (args_at (file spec.now) k)) ops.now }
    ensures small { result ≤ 24 }
{
    let mut total = 0;
    for op in ops {
        total += arity(spec, usize::from(*op));
    }
    total
}

/// Whether the operations' arguments and the results are together fewer than the operations.
fn has_spare_nodes(spec: &Spec, ops: &[u16], results: &[TermId]) -> bool
    requires below { AreBelow (length spec.now.ops) ops.now }
    requires few { length ops.now ≤ 6 }
    requires few_results { length results.now ≤ 3 }
    ensures { result ≡ nat_lt (sum_by (λ k. length (args_at (file spec.now) k)) ops.now + length results.now)
        (length ops.now) }
{
    argument_count(spec, ops) + results.len() < ops.len()
}

/// Whether one of three is so.
fn one_of(first: bool, second: bool, third: bool) -> bool
    ensures { result ≡ (first || second || third) }
{
    first || second || third
}

/// Whether counts and sorts alone tell that the goal has no pattern with these operations: there is no source of a sort
/// that an argument or a result of the goal needs, or an operation takes a memory and the goal takes none, or there are
/// fewer arguments and results of the goal than operations, so that one is never named. It takes no memory.
pub fn hopeless(spec: &Spec, goal: u32, multi: &Multi) -> bool
    requires there { goal < length spec.now.goals }
    requires ops { AreBelow (length spec.now.ops) multi.now }
    ensures { (g : Goal) → slice_get (file spec.now).goals goal ≡ Some g
        → result ≡ is_hopeless (file spec.now) g multi.now }
{
    let definition = spec.goal(goal);
    let args = definition.args.as_slice();
    let results = definition.results.as_slice();
    let ops = multi.ops();
    let lacks = lacks_source(spec, args, ops, results);
    let adds = adds_memory(spec, args, ops);
    let spare = has_spare_nodes(spec, ops, results);
    one_of(lacks, adds, spare)
}

/// Where that is so, the goal has no well-formed pattern with these operations, in any order of its nodes.
pub fn hopeless_has_no_pattern(spec: &Spec, goal: u32)
    ensures { (c : Claim) (p : Pattern) → IsClaim spec.now goal c.ops c → IsHopeless c.file c.goal c.ops
        → ¬ IsPatternOf c p }
{
    // That the terms make a table, and so are well-sorted, is known from a call alone.
    spec.terms.len();
}
