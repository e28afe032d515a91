//! The state of the search for a claim's rules, and its steps: a candidate is refuted by an example, or it is a rule.

ghost use Rattle.std.specs.Prelude.{◌≡◌, ◌≤◌, ◌<◌, ◌+◌, [], List, length, slice_get, Some, All, IfOk};
ghost use Rattle.isel_spec.specs.File.{Goal};
ghost use Rattle.isel_spec.specs.Spec.{file};
ghost use Rattle.loc_encode.specs.Given.{IsGiven, IsPatternFor};
ghost use Rattle.pattern_core.specs.Claim.{Claim, IsClaim};
ghost use Rattle.pattern_core.specs.declared.pattern.Example.{Example};
ghost use Rattle.pattern_core.specs.declared.pattern.Pattern.{Pattern};
ghost use Rattle.pattern_core.specs.Pattern.{IsWellFormed};
ghost use Rattle.pattern_core.specs.Rule.{IsRule};
ghost use Rattle.cegis_loop.specs.Answer.{IsAnswer};
ghost use Rattle.cegis_loop.specs.Listing.{IsListedBesides};
ghost use Rattle.cegis_loop.specs.Search.{IsSearching, IsCandidate, IsCounterexample};
ghost use Rattle.cegis_loop.specs.Trial.{AreCasesOf};

use crate::answer::Confirm;
use crate::confirmation::confirm;
use crate::copies::copied_pattern;
use crate::finder::{Finder, start_finder, with_example, without_pattern};
use crate::listing::with_pattern;
use crate::miter::sorts_of;
use crate::trial::{TestCases, first_difference, test_cases};
use cnf_core::Fuel;
use collections::Seq;
use isel_spec::Spec;
use loc_encode::has_one_claim;
use multiset_rank::Multi;
use pattern_core::{
    Example, Pattern, canonical, order_is_total, rules_are_plain, well_formed_is_forward,
};
use std::alloc::{AllocError, Global};
use test_inputs::tests;

/// The state of the search for a claim's rules. `IsSearching` of `specs/Search` says what holds between its steps.
#[derive(Drop)]
pub(crate) struct Search {
    pub(crate) finder: Finder,
    pub(crate) tests: TestCases,
    /// The patterns that were tried.
    pub(crate) candidates: Seq<Pattern>,
    /// The canonical renamings of those that are rules, in order.
    pub(crate) found: Seq<Pattern>,
}

/// The inputs of a goal without memory at which every pattern is tried first, with the goal's results.
fn first_tests(
    alloc: Global,
    spec: &Spec,
    goal: u32,
    multi: &Multi,
) -> Result<TestCases, AllocError>
    requires given { IsGiven spec.now goal multi.now }
    ensures { IfOk result (λ tests. (xs : List Example) × AreCasesOf spec.now goal xs tests) }
{
    has_one_claim(spec, goal, multi);
    let definition = spec.goal(goal);
    let sorts = sorts_of(alloc, definition.args.as_slice())?;
    let examples = tests(alloc, &sorts)?;
    test_cases(alloc, spec, goal, examples.as_slice())
}

/// The search before its first step. An `Err`, here and below, is out of memory.
pub(crate) fn start_search(
    alloc: Global,
    spec: &Spec,
    goal: u32,
    multi: &Multi,
) -> Result<Search, AllocError>
    requires given { IsGiven spec.now goal multi.now }
    ensures searching { IfOk result (IsSearching spec.now goal multi.now) }
    ensures none { IfOk result (λ t. t.candidates ≡ []) }
{
    let tests = first_tests(alloc, spec, goal, multi)?;
    let finder = start_finder(alloc, spec, goal, multi)?;
    Ok(Search {
        finder,
        tests,
        candidates: Seq::new(alloc),
        found: Seq::new(alloc),
    })
}

/// Whether a candidate is a rule: it is tried at the first inputs, and then a solver is asked, with so many units.
pub(crate) fn judged(
    alloc: Global,
    spec: &Spec,
    goal: u32,
    multi: &Multi,
    tests: &mut TestCases,
    pattern: &Pattern,
    units: u64,
) -> Result<Confirm, AllocError>
    requires given { IsGiven spec.now goal multi.now }
    requires pattern { IsPatternFor spec.now goal multi.now pattern.now }
    requires cases { (xs : List Example) × AreCasesOf spec.now goal xs tests.old }
    ensures cases { (xs : List Example) × AreCasesOf spec.now goal xs tests.new }
    ensures answer { IfOk result (λ answer. (c : Claim) → IsClaim spec.now goal multi.now c
        → IsAnswer c pattern.now units 0 answer) }
{
    has_one_claim(spec, goal, multi);
    if let Some(example) = first_difference(alloc, spec, goal, tests, pattern)? {
        return Ok(Confirm::Differs(example));
    }
    let mut fuel = Fuel::new(units);
    confirm(alloc, spec, goal, pattern, &mut fuel)
}

/// The search after a candidate that differs from the goal at this example.
pub(crate) fn refuted(
    alloc: Global,
    spec: &Spec,
    search: Search,
    pattern: Pattern,
    example: Example,
) -> Result<Search, AllocError>
    requires given { IsGiven spec.now search.finder.encoded.goal search.finder.encoded.multi }
    requires searching { IsSearching spec.now search.finder.encoded.goal search.finder.encoded.multi search }
    requires candidate { IsCandidate spec.now search.finder.encoded.goal search.finder.encoded.multi search pattern }
    requires differs { (c : Claim) → IsClaim spec.now search.finder.encoded.goal search.finder.encoded.multi c
        → IsCounterexample c pattern example }
    ensures searching { IfOk result (IsSearching spec.now search.finder.encoded.goal search.finder.encoded.multi) }
    ensures more { IfOk result (λ t. length t.candidates ≡ length search.candidates + 1) }
{
    let Search {
        finder,
        tests,
        mut candidates,
        found,
    } = search;
    candidates.push(pattern)?;
    let finder = with_example(alloc, spec, finder, example)?;
    Ok(Search {
        finder,
        tests,
        candidates,
        found,
    })
}

/// Rising patterns with the canonical renaming of one more.
fn with_renaming(
    alloc: Global,
    spec: &Spec,
    goal: u32,
    listed: Seq<Pattern>,
    pattern: &Pattern,
) -> Result<Seq<Pattern>, AllocError>
    requires there { goal < length spec.now.goals }
    requires pattern { (g : Goal) → slice_get (file spec.now).goals goal ≡ Some g
        → IsWellFormed (file spec.now) g pattern.now }
    requires small { All (λ (p : Pattern). length p.nodes ≤ 6) listed }
    ensures { IfOk result (λ more. (g : Goal) → slice_get (file spec.now).goals goal ≡ Some g
        → IsListedBesides (file spec.now) g pattern.now listed more) }
{
    well_formed_is_forward(spec, goal);
    let copy = copied_pattern(alloc, pattern)?;
    let renaming = canonical(alloc, copy)?;
    with_pattern(listed, renaming)
}

/// The search after a candidate that is a rule.
pub(crate) fn confirmed(
    alloc: Global,
    spec: &Spec,
    search: Search,
    pattern: Pattern,
) -> Result<Search, AllocError>
    requires given { IsGiven spec.now search.finder.encoded.goal search.finder.encoded.multi }
    requires searching { IsSearching spec.now search.finder.encoded.goal search.finder.encoded.multi search }
    requires candidate { IsCandidate spec.now search.finder.encoded.goal search.finder.encoded.multi search pattern }
    requires rule { (c : Claim) → IsClaim spec.now search.finder.encoded.goal search.finder.encoded.multi c
        → IsRule c.file c.goal pattern }
    ensures searching { IfOk result (IsSearching spec.now search.finder.encoded.goal search.finder.encoded.multi) }
    ensures more { IfOk result (λ t. length t.candidates ≡ length search.candidates + 1) }
{
    let goal = search.finder.encoded.goal;
    rules_are_plain(spec, goal);
    order_is_total(spec, goal);
    let Search {
        finder,
        tests,
        mut candidates,
        found,
    } = search;
    let copy = copied_pattern(alloc, &pattern)?;
    candidates.push(pattern)?;
    let found = with_renaming(alloc, spec, goal, found, &copy)?;
    let finder = without_pattern(alloc, spec, finder, copy)?;
    Ok(Search {
        finder,
        tests,
        candidates,
        found,
    })
}
