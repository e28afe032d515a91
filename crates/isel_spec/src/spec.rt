//! A file: one that was read, or one that is built from definitions. A `Spec` keeps the limits of a file:
//! its definitions have short names that differ, and results of their own inputs, so that each of them can
//! be evaluated, with few different terms and with memory on one chain.

ghost use Rattle.std.specs.Prelude.{◌≡◌, ℕ, ◌<◌, ◌≤◌, List, [], ◌∷◌, ◌++◌, length, Some, slice_get, IsTrue, OnOk};
ghost use Rattle.std.specs.Prelude.{OnErr};
ghost use Rattle.std.specs.String.{string_bytes};
ghost use Rattle.isel_spec.specs.File.{is_sound};

use crate::definitions::{GoalDef, OpDef};
use bv_terms::Terms;
use collections::NameMap;
use std::alloc::{AllocError, Global};

/// The operations and goals of a file under their names, in its order, over one table of terms.
/// Contracts speak of the file that it stands for, `file` of `specs/Spec`.
#[derive(Debug, Drop)]
pub struct Spec {
    /// The width of a pointer in bits, 1 to 64.
    pub pointer: u8,
    pub terms: Terms,
    pub ops: NameMap<OpDef>,
    pub goals: NameMap<GoalDef>,
    ghost sound: { IsTrue (is_sound pointer terms ops goals) },
}

impl Spec {
    /// A file without operations and goals, for pointers of so many bits.
    pub fn new(alloc: Global, pointer: u8) -> Spec
        requires wide { 1 ≤ pointer }
        requires narrow { pointer ≤ 64 }
        ensures pointer { result.pointer ≡ pointer }
        ensures terms { result.terms ≡ record { pointer = pointer; nodes = [] } }
        ensures ops { result.ops ≡ [] }
        ensures goals { result.goals ≡ [] }
    {
        Spec {
            pointer,
            terms: Terms::new(alloc, pointer),
            ops: NameMap::new(alloc),
            goals: NameMap::new(alloc),
        }
    }

    /// Adds an operation under a new name. An `Err` is out of memory; it leaves the file as it was.
    pub fn add_op(&mut self, name: String, def: OpDef) -> Result<(), AllocError>
        requires sound { IsTrue (is_sound self.old.pointer self.old.terms
            (self.old.ops ++ (string_bytes name, def) ∷ []) self.old.goals) }
        ensures ok { OnOk result ((h : _) × (self.new ≡ record self.old {
          ops = self.old.ops ++ (string_bytes name, def) ∷ [];
          sound = h;
        })) }
        ensures err { OnErr result (self.new ≡ self.old) }
    {
        self.ops.insert(name, def)?;
        Ok(())
    }

    /// Adds a goal under a new name. An `Err` is out of memory; it leaves the file as it was.
    pub fn add_goal(&mut self, name: String, def: GoalDef) -> Result<(), AllocError>
        requires sound { IsTrue (is_sound self.old.pointer self.old.terms self.old.ops
            (self.old.goals ++ (string_bytes name, def) ∷ [])) }
        ensures ok { OnOk result ((h : _) × (self.new ≡ record self.old {
          goals = self.old.goals ++ (string_bytes name, def) ∷ [];
          sound = h;
        })) }
        ensures err { OnErr result (self.new ≡ self.old) }
    {
        self.goals.insert(name, def)?;
        Ok(())
    }

    /// The goal of that number, counted from 0 in the order of the file.
    pub fn goal(&self, number: u32) -> &GoalDef
        requires { number < length self.now.goals }
        ensures { (name : List ℕ) × (slice_get self.now.goals number ≡ Some (name, result.now)) }
    {
        let (_, definition) = self.goals.get(number as usize).unwrap();
        definition
    }

    /// The operation of that number, counted from 0 in the order of the file.
    pub fn op(&self, number: usize) -> &OpDef
        requires { number < length self.now.ops }
        ensures { (name : List ℕ) × (slice_get self.now.ops number ≡ Some (name, result.now)) }
    {
        let (_, definition) = self.ops.get(number).unwrap();
        definition
    }
}
