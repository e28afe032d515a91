//! Laws of what answers promise.

ghost use Rattle.rule_library.specs.Promise.{EnoughBudgetDecides};

/// Where a budget is at least the trials of each claim of a goal, the answer is the goal's library: no claim is open.
pub fn enough_budget_decides()
    ensures { EnoughBudgetDecides }
{}
