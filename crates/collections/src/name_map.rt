//! A table of values under names. No two names are equal, and the order is that in which they were added.

ghost use Rattle.std.specs.Prelude.{◌≡◌, ◌↔◌, [], ◌∷◌, ◌++◌, length, map, slice_get, option_map, Contains};
ghost use Rattle.std.specs.Prelude.{IsTrue, OnOk, OnErr};
ghost use Rattle.std.specs.String.{string_bytes};
ghost use Rattle.collections.specs.Named.{named};

use indexmap::IndexMap;
use std::alloc::{AllocError, Global};
use std::marker::Model;

/// A table of values under names that differ, in the order in which they were added. Contracts see
/// it as the list of pairs of a name's bytes and the value.
#[derive(Debug, Drop)]
pub struct NameMap<T> {
    entries: IndexMap<String, T>,
}

impl<T> Model for NameMap<T> {
    ghost use Rattle.std.specs.Prelude.{List, ℕ, map};
    ghost use Rattle.std.specs.String.{string_bytes};
    ghost use Rattle.std.specs.Coded.{coded_list, coded×, coded_ℕ};

    ghost Value = { List (List ℕ × T) };

    ghost coded = { coded_list (coded× (coded_list coded_ℕ) T.code) };

    ghost view = { λ n. map (λ e. (string_bytes e.0, e.1)) n.entries.entries };
}

impl<T> NameMap<T> {
    /// The empty table.
    pub fn new(alloc: Global) -> NameMap<T>
        ensures { result ≡ [] }
    {
        NameMap {
            entries: IndexMap::new(alloc),
        }
    }

    /// The number of names.
    pub fn len(&self) -> usize
        ensures { result ≡ length self.now }
    {
        self.entries.len()
    }

    /// The name and the value at a place.
    pub fn get(&self, place: usize) -> Option<(&str, &T)>
        ensures { option_map (λ e. (e.0.now, e.1.now)) result ≡ slice_get self.now place }
    {
        match self.entries.get_index(place) {
            Some((name, value)) => Some((name.as_str(), value)),
            None => None,
        }
    }

    /// The value under a name.
    pub fn find(&self, name: &str) -> Option<&T>
        ensures { option_map (λ value. value.now) result ≡ named self.now name.now }
    {
        self.entries.get(name)
    }

    /// Whether a name stands in the table.
    pub fn contains(&self, name: &str) -> bool
        ensures { IsTrue result ↔ Contains (map (λ e. e.0) self.now) name.now }
    {
        self.entries.contains_key(name)
    }
}

impl<T: Drop> NameMap<T> {
    /// Adds a value under a new name. An `Err` is out of memory; it leaves the table as it was.
    pub fn insert(&mut self, name: String, value: T) -> Result<(), AllocError>
        requires { ¬ Contains (map (λ e. e.0) self.old) (string_bytes name) }
        ensures ok { OnOk result (self.new ≡ self.old ++ (string_bytes name, value) ∷ []) }
        ensures err { OnErr result (self.new ≡ self.old) }
    {
        self.entries.insert(name, value)?;
        Ok(())
    }
}
