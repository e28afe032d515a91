//! The search: propagation, decisions, and a clause learnt from each conflict. Before each decision on the trail every
//! clause was propagated, and each true literal but the decisions has its reason.

ghost use Rattle.std.specs.Prelude.{◌≡◌, ◌≢◌, ℕ, List, ◌+◌, ◌-◌, ◌^◌, ◌<◌, ◌≤◌, ◌++◌, ◌∷◌, [], true};
ghost use Rattle.std.specs.Prelude.{length, slice_get, Some, None, All, Contains, IfOk, OnOk, IfSome, IfNone};
ghost use Rattle.cnf_core.specs.declared.clause.Clause.{Clause};
ghost use Rattle.cnf_core.specs.Clause.{contains, assigned, is_model, IsOver, HasNoModel};
ghost use Rattle.cnf_core.specs.Resolution.{clause, IsAccepted, AreNewClauses};
ghost use Rattle.cdcl_base.specs.Trail.{IsTrail, IsUnassigned, ArePropagated, AreReasons, ArePropagatedBefore};
ghost use Rattle.cdcl_base.specs.Trail.{AreAllAssigned, IsConflict};
ghost use Rattle.cdcl_base.specs.Analysis.{IsAsserting};
ghost use Rattle.cdcl_core.specs.Propagation.{AreBlockers};
ghost use Rattle.cdcl_core.specs.Search.{IsReady};
ghost use Rattle.cdcl_base.specs.Log.{IsLogOf};
ghost use Rattle.cdcl_base.specs.Answer.{OnModel, OnRefuted, OnSpent, OnLog};

use crate::propagation::propagate;
use cdcl_base::{Analyzer, Answer, Clauses, PackedLit, Scores, Trail, refute};
use cnf_core::{Clause, Cnf, Fuel, Lit, Log};
use collections::Seq;
use std::alloc::{AllocError, Global};

/// The state of a search: the clauses, those of the formula and then the learnt ones, a blocker for each, and the
/// chains of the learnt ones.
#[derive(Drop)]
pub(crate) struct Search {
    clauses: Clauses,
    blockers: Vec<PackedLit>,
    trail: Trail,
    scores: Scores,
    analyzer: Analyzer,
    log: Log,
}

/// Whether some clause is empty.
fn has_empty(clauses: &[Clause]) -> bool
    ensures yes { result ≡ true → Contains clauses.now (clause []) }
    ensures no { (result ≡ true → ⊥) → All (λ c. c.lits ≢ []) clauses.now }
{
    for clause in clauses {
        if clause.lits.is_empty() {
            return true;
        }
    }
    false
}

/// The clauses in one array.
fn packed(alloc: Global, clauses: &[Clause]) -> Result<Clauses, AllocError>
    requires { All (λ c. IsOver (2 ^ 31) c.lits) clauses.now }
    ensures { IfOk result (λ packed. packed ≡ clauses.now) }
{
    let mut packed = Clauses::new(alloc);
    for clause in clauses {
        packed.push_unpacked(clause.lits.as_slice())?;
    }
    Ok(packed)
}

/// The first literal of each clause.
fn first_lits(alloc: Global, clauses: &Clauses) -> Result<Vec<PackedLit>, AllocError>
    requires { All (λ c. c.lits ≢ []) clauses.now }
    ensures { IfOk result (λ blockers. AreBlockers clauses.now blockers.items) }
{
    let mut blockers = Vec::with_capacity(alloc, clauses.len())?;
    for number in 0..clauses.len() {
        blockers.push(clauses.lits(number)[0])?;
    }
    Ok(blockers)
}

/// The number of a clause that is falsified after propagation and decisions; none where each variable has a value and
/// no clause is falsified.
fn next_conflict(
    trail: &mut Trail,
    clauses: &Clauses,
    blockers: &mut Vec<PackedLit>,
    scores: &Scores,
) -> Result<Option<usize>, AllocError>
    requires trail { IsTrail trail.old }
    requires scored { length scores.now.scores ≡ trail.old.variables }
    requires over { All (λ c. IsOver trail.old.variables c.lits) clauses.now }
    requires reasons { AreReasons clauses.now trail.old }
    requires before { ArePropagatedBefore clauses.now trail.old }
    requires blockers { AreBlockers clauses.now blockers.old.items }
    ensures blockers { OnOk result (AreBlockers clauses.now blockers.new.items) }
    ensures variables { OnOk result (trail.new.variables ≡ trail.old.variables) }
    ensures reasons { OnOk result (AreReasons clauses.now trail.new) }
    ensures before { OnOk result (ArePropagatedBefore clauses.now trail.new) }
    ensures conflict { IfOk result (λ found. IfSome found (λ k. IsConflict trail.new.lits clauses.now k)) }
    ensures propagated { IfOk result (λ found. IfNone found (ArePropagated trail.new.lits clauses.now)) }
    ensures assigned { IfOk result (λ found. IfNone found (AreAllAssigned trail.new)) }
{
    loop {
        let conflict = propagate(trail, clauses, blockers)?;
        if conflict.is_some() {
            return Ok(conflict);
        }
        let Some(lit) = scores.pick(trail) else {
            return Ok(None);
        };
        trail.decide(lit)?;
    }
}

/// The values that a trail gives the variables.
fn values_of(alloc: Global, trail: &Trail) -> Result<Vec<bool>, AllocError>
    ensures trail { IsTrail trail.now }
    ensures length { IfOk result (λ values. length values.items ≡ trail.now.variables) }
    ensures values { IfOk result (λ values. (x : ℕ) → x < trail.now.variables →
        assigned values.items x ≡ contains trail.now.lits (record { variable = x; positive = true })) }
{
    let mut values = Vec::with_capacity(alloc, trail.variables())?;
    for variable in 0..trail.variables() {
        values.push(trail.is_true(PackedLit::new(Lit {
            variable,
            positive: true,
        })))?;
    }
    Ok(values)
}

/// Backjumps: cancels the decisions at or after place `keep`, and makes the literal true that the last clause then
/// forces.
fn backjump(
    trail: &mut Trail,
    clauses: &Clauses,
    keep: usize,
    lit: PackedLit,
    level_start: usize,
) -> Result<(), AllocError>
    requires level_start { slice_get trail.old.level_starts (length trail.old.level_starts - 1) ≡ Some level_start }
    requires there { lit.variable < trail.old.variables }
    requires asserting { (older : List Clause) × (c : Clause) × (clauses.now ≡ older ++ c ∷ [])
        × AreReasons older trail.old × ArePropagatedBefore older trail.old
        × IsAsserting trail.old.lits c.lits lit level_start keep }
    ensures trail { IsTrail trail.new }
    ensures variables { OnOk result (trail.new.variables ≡ trail.old.variables) }
    ensures reasons { OnOk result (AreReasons clauses.now trail.new) }
    ensures before { OnOk result (ArePropagatedBefore clauses.now trail.new) }
{
    trail.cancel_until(keep);
    trail.assign(lit, clauses.len() - 1)
}

impl Search {
    /// A search over the clauses of a formula, none of which is empty.
    fn new(alloc: Global, cnf: &Cnf) -> Result<Search, AllocError>
        requires { All (λ c. c.lits ≢ []) cnf.now.clauses }
        ensures ready { IfOk result IsReady }
        ensures trail { IfOk result (λ s. IsTrail s.trail) }
        ensures variables { IfOk result (λ s. s.trail.variables ≡ cnf.now.variables) }
        ensures log { IfOk result (λ s. IsLogOf cnf.now.clauses s.log.chains s.clauses) }
        ensures empty { IfOk result (λ s. s.log.chains ≡ []) }
    {
        let trail = Trail::new(alloc, cnf.variables())?;
        let variables = trail.variables();
        let clauses = packed(alloc, cnf.clauses())?;
        let blockers = first_lits(alloc, &clauses)?;
        let scores = Scores::new(alloc, variables)?;
        let analyzer = Analyzer::new(alloc, variables)?;
        let log = Log {
            chains: Seq::new(alloc),
        };
        Ok(Search {
            clauses,
            blockers,
            trail,
            scores,
            analyzer,
            log,
        })
    }

    /// Learns a clause from the conflict at the falsified clause of a number, and backjumps. The last level begins at
    /// `level_start`.
    fn learn(
        &mut self,
        alloc: Global,
        conflict: usize,
        level_start: usize,
    ) -> Result<(), AllocError>
        requires ready { IsReady self.old }
        requires conflict { IsConflict self.old.trail.lits self.old.clauses conflict }
        requires level_start { slice_get self.old.trail.level_starts (length self.old.trail.level_starts - 1)
            ≡ Some level_start }
        ensures ready { OnOk result (IsReady self.new) }
        ensures trail { OnOk result (IsTrail self.new.trail) }
        ensures variables { OnOk result (self.new.trail.variables ≡ self.old.trail.variables) }
        ensures log { OnOk result ((given : List Clause) →
            IsLogOf given self.old.log.chains self.old.clauses →
            IsLogOf given self.new.log.chains self.new.clauses) }
        ensures count { OnOk result (length self.new.log.chains ≡ length self.old.log.chains + 1) }
    {
        let learnt = self
            .analyzer
            .analyze(alloc, &self.clauses, &self.trail, conflict, level_start)?;
        self.scores.bump_all(self.analyzer.marked());
        self.clauses.push(learnt.clause.as_slice())?;
        self.blockers.push(learnt.lit)?;
        self.log.chains.push(learnt.chain)?;
        backjump(
            &mut self.trail,
            &self.clauses,
            learnt.keep,
            learnt.lit,
            level_start,
        )
    }

    /// Derives the empty clause from the conflict at the falsified clause of a number, at decision level 0.
    fn refute(&mut self, alloc: Global, conflict: usize) -> Result<(), AllocError>
        requires ready { IsReady self.old }
        requires conflict { IsConflict self.old.trail.lits self.old.clauses conflict }
        requires level_start { slice_get self.old.trail.level_starts (length self.old.trail.level_starts - 1) ≡ None }
        ensures accepted { OnOk result ((given : List Clause) →
            IsLogOf given self.old.log.chains self.old.clauses →
            IsAccepted given self.new.log.chains) }
        ensures new_clauses { OnOk result ((given : List Clause) →
            IsLogOf given self.old.log.chains self.old.clauses →
            AreNewClauses given self.new.log.chains) }
        ensures count { OnOk result (length self.new.log.chains ≡ length self.old.log.chains + 1) }
    {
        let chain = refute(alloc, &self.clauses, &self.trail, conflict)?;
        self.log.chains.push(chain)?;
        Ok(())
    }
}

/// A model of a formula, or an accepted log that refutes it, or the log of the conflicts on which the fuel was spent.
///
/// Each conflict costs one unit of fuel and adds one chain to the log, whose clause says something new; so over v
/// variables 3^v units always suffice. `Spent` comes at a conflict with no fuel left. A formula with an empty clause is
/// refuted by the empty log. The only error is out of memory.
pub fn solve(alloc: Global, cnf: &Cnf, fuel: &mut Fuel) -> Result<Answer, AllocError>
    // A model makes every clause true; a refutation is accepted, and then there is none.
    ensures model { IfOk result (λ a. OnModel a (λ values.
        (length values ≡ cnf.now.variables) × (is_model (assigned values) cnf.now.clauses ≡ true))) }
    ensures refuted { IfOk result (λ a. OnRefuted a (λ chains. IsAccepted cnf.now.clauses chains)) }
    ensures no_model { IfOk result (λ a. OnRefuted a (λ chains. HasNoModel cnf.now.clauses)) }
    ensures empty { Contains cnf.now.clauses (clause []) →
        IfOk result (λ a. a ≡ Answer.Refuted (record { chains = [] })) }

    // There is one chain for each unit that was spent, and each says something new.
    ensures new_clauses { IfOk result (λ a. OnLog a (AreNewClauses cnf.now.clauses)) }
    ensures count { IfOk result (λ a. OnLog a (λ chains. length chains + fuel.new ≡ fuel.old)) }
    ensures spent { IfOk result (λ a. OnSpent a (λ chains. fuel.new ≡ 0)) }
    ensures decided { 3 ^ cnf.now.variables ≤ fuel.old → IfOk result (λ a. OnSpent a (λ chains. ⊥)) }
    ensures fuel { fuel.new ≤ fuel.old }
{
    if has_empty(cnf.clauses()) {
        return Ok(Answer::Refuted(Log {
            chains: Seq::new(alloc),
        }));
    }
    let mut search = Search::new(alloc, cnf)?;
    loop {
        let found = next_conflict(
            &mut search.trail,
            &search.clauses,
            &mut search.blockers,
            &search.scores,
        )?;
        let Some(conflict) = found else {
            let values = values_of(alloc, &search.trail)?;
            return Ok(Answer::Model(Seq::from_vec(values)));
        };
        if fuel.left() == 0 {
            return Ok(Answer::Spent(search.log));
        }
        fuel.spend();
        let Some(level_start) = search.trail.last_decision() else {
            search.refute(alloc, conflict)?;
            return Ok(Answer::Refuted(search.log));
        };
        search.learn(alloc, conflict, level_start)?;
        search.scores.decay();
    }
}
