//! One search: propagation, decisions, and a clause learnt from each conflict. Every clause is watched before each
//! decision on the trail, so that nothing is repaired as decisions are cancelled.

ghost use Rattle.std.specs.Prelude.{◌≡◌, ◌≢◌, ℕ, List, ◌+◌, ◌-◌, ◌^◌, ◌<◌, ◌≤◌, ◌++◌, ◌∷◌, [], true, length, slice_get};
ghost use Rattle.std.specs.Prelude.{Some, None, All, Contains, IfOk, OnOk, IfSome, IfNone};
ghost use Rattle.cnf_core.specs.declared.clause.Clause.{Clause};
ghost use Rattle.cnf_core.specs.declared.log.Chain.{Chain};
ghost use Rattle.cnf_core.specs.Clause.{contains, assigned, is_model, IsOver, HasNoModel};
ghost use Rattle.cnf_core.specs.Resolution.{clause, IsAccepted, AreNewClauses};
ghost use Rattle.cdcl_base.specs.Trail.{IsTrail, ArePropagated, AreReasons, AreAllAssigned, IsConflict};
ghost use Rattle.cdcl_base.specs.Analysis.{IsAsserting, IsLastFalse};
ghost use Rattle.cdcl_base.specs.Log.{IsLogOf};
ghost use Rattle.cdcl_base.specs.Answer.{OnModel, OnRefuted, OnSpent, OnLog};
ghost use Rattle.cdcl_watch.specs.Watches.{IsWatching};
ghost use Rattle.cdcl_watch.specs.Attach.{IsRootConflict};
ghost use Rattle.cdcl_watch.specs.Search.{AreSizes, IsReady};
ghost use Rattle.cdcl_watch.specs.Answer.{IsAnswer, IsAnswerTo};
ghost use Rattle.cnf_core.specs.Formula.{IsFormula};

use crate::attach::{attach, attach_learnt};
use crate::lists::Lists;
use crate::order::Order;
use crate::propagation::{Pair, propagate};
use cdcl_base::{Analyzer, Answer, Clauses, PackedLit, Scores, Trail, refute};
use cnf_core::{Clause, Cnf, Fuel, Lit, Log};
use collections::Seq;
use std::alloc::{AllocError, Global};

/// The state of a search: the clauses, those of the formula and then the learnt ones, with the two literals that each
/// watches. The scores and the phases stay for the next search, and the memory of the rest.
#[derive(Drop)]
pub(crate) struct Search {
    clauses: Clauses,
    pairs: Vec<Pair>,
    lists: Lists,
    trail: Trail,
    /// The number of literals at the front of the trail that are propagated.
    head: usize,
    scores: Scores,
    order: Order,
    analyzer: Analyzer,
}

/// Adds clauses at the end.
fn add_all(clauses: &mut Clauses, added: &[Clause]) -> Result<(), AllocError>
    requires { All (λ c. IsOver (2 ^ 31) c.lits) added.now }
    ensures { OnOk result (clauses.new ≡ clauses.old ++ added.now) }
{
    for clause in added {
        clauses.push_unpacked(clause.lits.as_slice())?;
    }
    Ok(())
}

/// The values that a trail gives the variables.
fn values_of(alloc: Global, trail: &Trail) -> Result<Vec<bool>, AllocError>
    ensures trail { IsTrail trail.now }
    ensures length { IfOk result (λ values. length values.items ≡ trail.now.variables) }
    ensures values { IfOk result (λ values. (x : ℕ) → x < trail.now.variables →
        assigned values.items x ≡ contains trail.now.lits (record { variable = x; positive = true })) }
{
    let mut values = Vec::with_capacity(alloc, trail.variables())?;
    for variable in 0..trail.variables() {
        let lit = PackedLit::new(Lit {
            variable,
            positive: true,
        });
        values.push(trail.is_true(lit))?;
    }
    Ok(values)
}

/// Backjumps: cancels the decisions at or after place `keep`, adds the learnt clause, which watches the literal that it
/// forces and the one that became false last, and makes that literal true.
fn backjump(
    trail: &mut Trail,
    head: &mut usize,
    clauses: &mut Clauses,
    pairs: &mut Vec<Pair>,
    lists: &mut Lists,
    learnt: &[PackedLit],
    lit: PackedLit,
    last_false: PackedLit,
    keep: usize,
) -> Result<(), AllocError>
    requires trail { IsTrail trail.old }
    requires watching { IsWatching clauses.old pairs.old.items lists.old trail.old head.old }
    requires over { IsOver trail.old.variables learnt.now }
    requires asserting { (s : ℕ) × (slice_get trail.old.level_starts (length trail.old.level_starts - 1) ≡ Some s)
        × IsAsserting trail.old.lits learnt.now lit s keep }
    requires last_false { 0 < keep → IsLastFalse trail.old.lits learnt.now lit keep last_false }
    ensures trail { IsTrail trail.new }
    ensures variables { OnOk result (trail.new.variables ≡ trail.old.variables) }
    ensures clauses { OnOk result (clauses.new ≡ clauses.old ++ clause learnt.now ∷ []) }
    ensures watching { OnOk result (IsWatching clauses.new pairs.new.items lists.new trail.new head.new) }
{
    trail.cancel_until(keep);
    *head = trail.lits().len();
    let number = clauses.len();
    clauses.push(learnt)?;
    attach_learnt(pairs, lists, learnt, lit, last_false, keep)?;
    trail.assign(lit, number)
}

/// Rates the variables that had a part in a conflict higher, and puts those of the literals from a place on, which are
/// to be cancelled, back into the order.
fn rate(
    scores: &mut Scores,
    order: &mut Order,
    marked: &[usize],
    lits: &[PackedLit],
    keep: usize,
) -> Result<(), AllocError>
    requires scored { length scores.old.scores ≡ order.old }
    requires marked { All (λ x. x < order.old) marked.now }
    requires over { IsOver order.old lits.now }
    ensures scores { length scores.new.scores ≡ length scores.old.scores }
    ensures order { order.new ≡ order.old }
{
    scores.bump_all(marked);
    scores.decay();
    order.raise_all(scores, marked);
    order.insert_all(scores, lits, keep)
}

/// The answer at a conflict at decision level 0, at the falsified clause of a number.
fn refuted(
    alloc: Global,
    clauses: &Clauses,
    trail: &Trail,
    mut log: Log,
    conflict: usize,
    fuel: &mut Fuel,
) -> Result<Answer, AllocError>
    requires over { All (λ c. IsOver trail.now.variables c.lits) clauses.now }
    requires reasons { AreReasons clauses.now trail.now }
    requires level_start { slice_get trail.now.level_starts (length trail.now.level_starts - 1) ≡ None }
    requires conflict { IsConflict trail.now.lits clauses.now conflict }
    requires filled { All (λ c. c.lits ≢ []) clauses.now }
    ensures answer { IfOk result (IsAnswerTo trail.now.variables log.chains clauses.now fuel.old fuel.new) }
    ensures fuel { fuel.new ≤ fuel.old }
{
    if fuel.left() == 0 {
        return Ok(Answer::Spent(log));
    }
    fuel.spend();
    let chain = refute(alloc, clauses, trail, conflict)?;
    log.chains.push(chain)?;
    Ok(Answer::Refuted(log))
}

impl Search {
    /// A search over so many variables. There is no memory for more than 2^31.
    pub fn new(alloc: Global, variables: usize) -> Result<Search, AllocError> {
        let trail = Trail::new(alloc, variables)?;
        let scores = Scores::new(alloc, variables)?;
        let analyzer = Analyzer::new(alloc, variables)?;
        Ok(Search {
            clauses: Clauses::new(alloc),
            pairs: Vec::new(alloc),
            lists: Lists::new(alloc),
            trail,
            head: 0,
            scores,
            order: Order::new(alloc),
            analyzer,
        })
    }

    /// Makes the value that a variable takes first when it is decided, where the search is over that variable.
    pub fn set_phase(&mut self, variable: usize, value: bool) {
        if variable < self.trail.variables() {
            self.trail.set_phase(variable, value);
        }
    }

    /// Makes room for so many variables. There is no memory for more than 2^31.
    pub fn reserve(&mut self, variables: usize) -> Result<(), AllocError>
        ensures { OnOk result (variables ≤ self.new.trail.variables) }
    {
        if self.trail.variables() < variables {
            self.trail.grow(variables)?;
        }
        Ok(())
    }

    /// Empties the trail, and makes everything of the size for so many variables. What there was for more variables is
    /// made anew.
    fn resize(&mut self, alloc: Global, variables: usize) -> Result<(), AllocError>
        ensures trail { OnOk result (self.new.trail ≡
            record { variables = variables; lits = []; reasons = []; level_starts = [] }) }
        ensures sizes { OnOk result (AreSizes self.new) }
    {
        resize_trail(alloc, &mut self.trail, variables)?;
        resize_scores(alloc, &mut self.scores, variables)?;
        resize_analyzer(alloc, &mut self.analyzer, variables)?;
        self.order.reset(&self.scores, variables)
    }

    /// Begins with the clauses of a formula, none of which is empty. The number of a clause of one literal that is
    /// false, where the clauses of one literal contradict each other.
    fn begin(&mut self, alloc: Global, cnf: &Cnf) -> Result<Option<usize>, AllocError>
        requires { All (λ c. c.lits ≢ []) cnf.now.clauses }
        ensures clauses { OnOk result (self.new.clauses ≡ cnf.now.clauses) }
        ensures variables { OnOk result (self.new.trail.variables ≡ cnf.now.variables) }
        ensures ready { IfOk result (λ found. IfNone found (IsReady self.new)) }
        ensures conflict { IfOk result (λ found. IfSome found (IsRootConflict self.new.clauses self.new.trail)) }
        ensures formula { IsFormula cnf.now }
    {
        let clauses = cnf.clauses();
        self.resize(alloc, cnf.variables())?;
        self.head = 0;
        self.pairs.clear();
        self.lists.reset(alloc, self.trail.variables())?;
        self.clauses.clear();
        add_all(&mut self.clauses, clauses)?;
        attach(
            &mut self.trail,
            &self.clauses,
            &mut self.pairs,
            &mut self.lists,
        )
    }

    /// The number of a clause that is falsified after propagation and decisions; none where each variable has a value
    /// and no clause is falsified.
    fn next_conflict(&mut self, alloc: Global) -> Result<Option<usize>, AllocError>
        requires { IsReady self.old }
        ensures ready { OnOk result (IsReady self.new) }
        ensures variables { OnOk result (self.new.trail.variables ≡ self.old.trail.variables) }
        ensures clauses { self.new.clauses ≡ self.old.clauses }
        ensures conflict { IfOk result (λ found. IfSome found (λ k.
            IsConflict self.new.trail.lits self.new.clauses k)) }
        ensures propagated { IfOk result (λ found. IfNone found (
            ArePropagated self.new.trail.lits self.new.clauses)) }
        ensures assigned { IfOk result (λ found. IfNone found (AreAllAssigned self.new.trail)) }
    {
        loop {
            let conflict = propagate(
                alloc,
                &mut self.trail,
                &self.clauses,
                &mut self.pairs,
                &mut self.lists,
                &mut self.head,
            )?;
            if conflict.is_some() {
                return Ok(conflict);
            }
            let Some(lit) = self.order.pick(&self.scores, &self.trail) else {
                return Ok(None);
            };
            self.trail.decide(lit)?;
        }
    }

    /// Learns a clause from the conflict at the falsified clause of a number, and backjumps. The last level begins at
    /// `level_start`.
    fn learn(
        &mut self,
        alloc: Global,
        log: &mut Log,
        conflict: usize,
        level_start: usize,
    ) -> Result<(), AllocError>
        requires ready { IsReady self.old }
        requires conflict { IsConflict self.old.trail.lits self.old.clauses conflict }
        requires level_start { slice_get self.old.trail.level_starts (length self.old.trail.level_starts - 1)
            ≡ Some level_start }
        ensures ready { OnOk result (IsReady self.new) }
        ensures variables { OnOk result (self.new.trail.variables ≡ self.old.trail.variables) }
        ensures log { OnOk result ((given : List Clause) →
            IsLogOf given log.old.chains self.old.clauses → IsLogOf given log.new.chains self.new.clauses) }
        ensures count { OnOk result (length log.new.chains ≡ length log.old.chains + 1) }
    {
        let learnt = self
            .analyzer
            .analyze(alloc, &self.clauses, &self.trail, conflict, level_start)?;
        rate(
            &mut self.scores,
            &mut self.order,
            self.analyzer.marked(),
            self.trail.lits(),
            learnt.keep,
        )?;
        log.chains.push(learnt.chain)?;
        backjump(
            &mut self.trail,
            &mut self.head,
            &mut self.clauses,
            &mut self.pairs,
            &mut self.lists,
            learnt.clause.as_slice(),
            learnt.lit,
            learnt.last_false,
            learnt.keep,
        )
    }

    /// A model of a formula without an empty clause, or an accepted log that refutes it, or the log of the conflicts on
    /// which the fuel was spent.
    pub fn run(&mut self, alloc: Global, cnf: &Cnf, fuel: &mut Fuel) -> Result<Answer, AllocError>
        requires { All (λ c. c.lits ≢ []) cnf.now.clauses }
        ensures answer { IfOk result (IsAnswer cnf.now fuel.old fuel.new) }
        ensures fuel { fuel.new ≤ fuel.old }
    {
        let mut log = Log {
            chains: Seq::new(alloc),
        };
        let root = self.begin(alloc, cnf)?;
        if let Some(conflict) = root {
            return refuted(alloc, &self.clauses, &self.trail, log, conflict, fuel);
        }
        loop {
            let found = self.next_conflict(alloc)?;
            let Some(conflict) = found else {
                let values = values_of(alloc, &self.trail)?;
                return Ok(Answer::Model(Seq::from_vec(values)));
            };
            let Some(level_start) = self.trail.last_decision() else {
                return refuted(alloc, &self.clauses, &self.trail, log, conflict, fuel);
            };
            if fuel.left() == 0 {
                return Ok(Answer::Spent(log));
            }
            fuel.spend();
            self.learn(alloc, &mut log, conflict, level_start)?;
        }
    }
}

/// Makes the trail an empty one over so many variables.
fn resize_trail(alloc: Global, trail: &mut Trail, variables: usize) -> Result<(), AllocError>
    ensures empty { OnOk result (trail.new ≡
        record { variables = variables; lits = []; reasons = []; level_starts = [] }) }
{
    if trail.variables() > variables {
        *trail = Trail::new(alloc, variables)?;
        return Ok(());
    }
    trail.clear();
    trail.grow(variables)
}

/// Makes the scores those of so many variables.
fn resize_scores(alloc: Global, scores: &mut Scores, variables: usize) -> Result<(), AllocError>
    ensures { OnOk result (length scores.new.scores ≡ variables) }
{
    if scores.variables() > variables {
        *scores = Scores::new(alloc, variables)?;
        return Ok(());
    }
    scores.grow(variables)
}

/// Makes analysis one over so many variables.
fn resize_analyzer(
    alloc: Global,
    analyzer: &mut Analyzer,
    variables: usize,
) -> Result<(), AllocError>
    ensures { OnOk result (analyzer.new ≡ variables) }
{
    if analyzer.variables() > variables {
        *analyzer = Analyzer::new(alloc, variables)?;
        return Ok(());
    }
    analyzer.grow(variables)
}
