//! A mark for each literal over n variables. No literal of another variable is ever marked.

ghost use Rattle.std.specs.Prelude.{◌≡◌, ◌<◌, ℕ, length, false, if◌then◌else◌, IfOk};
ghost use Rattle.cnf_core.specs.declared.clause.Lit.{Lit};
ghost use Rattle.cnf_core.specs.Clause.{same_lit};
ghost use Rattle.proof_check.specs.Marks.{is_marked};

use cnf_core::Lit;
use std::alloc::{AllocError, Global};

/// Which literals are marked, by their variables and signs.
#[derive(Drop)]
pub(crate) struct Marks {
    positive: Vec<bool>,
    negative: Vec<bool>,
}

impl Marks {
    /// Marks over n variables, with no literal marked.
    pub(crate) fn new(alloc: Global, variables: usize) -> Result<Marks, AllocError>
        ensures positive { IfOk result (λ marks. length marks.positive.items ≡ variables) }
        ensures negative { IfOk result (λ marks. length marks.negative.items ≡ variables) }
        ensures unmarked { IfOk result (λ marks. (l : Lit) → is_marked marks l ≡ false) }
    {
        let positive = vec![in alloc; false; variables]?;
        let negative = vec![in alloc; false; variables]?;
        Ok(Marks { positive, negative })
    }

    /// Whether the literal is marked.
    pub(crate) fn is_marked(&self, lit: Lit) -> bool
        ensures { result ≡ is_marked self.now lit }
    {
        let marks = if lit.positive {
            self.positive.as_slice()
        } else {
            self.negative.as_slice()
        };
        lit.variable < marks.len() && marks[lit.variable]
    }

    /// Sets or clears the literal's mark.
    pub(crate) fn set(&mut self, lit: Lit, marked: bool)
        requires positive { lit.variable < length self.old.positive.items }
        requires negative { lit.variable < length self.old.negative.items }
        ensures positive { length self.new.positive.items ≡ length self.old.positive.items }
        ensures negative { length self.new.negative.items ≡ length self.old.negative.items }
        ensures marks { (l : Lit) → is_marked self.new l ≡ (if same_lit lit l then marked else is_marked self.old l) }
    {
        if lit.positive {
            self.positive[lit.variable] = marked;
        } else {
            self.negative[lit.variable] = marked;
        }
    }
}
