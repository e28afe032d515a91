//! The sources that may be named in a row of a claim: at a line, or in the results.

ghost use Rattle.std.specs.Prelude.{◌≡◌, ◌≤◌, ◌++◌, ◌∷◌, [], map, IfOk, OnOk, if◌then◌else◌};
ghost use Rattle.loc_encode.specs.Layout.{is_result_sort, may_have, may_have_wanted, may_name, slot_at, choices};
ghost use Rattle.loc_encode.specs.Layout.{kinds, arg_sort};
ghost use Rattle.loc_encode.specs.Claimed.{claim_in};
ghost use Rattle.std.specs.List.{list_any};

use crate::layout::Layout;
use crate::slots::{Slot, source_at};
use crate::sorts::is_sort;
use bv_terms::Sort;
use pattern_core::Src;
use std::alloc::{AllocError, Global};

/// Adds a source to a list, where it is one of those that are sought.
fn push_if(found: &mut Vec<Src>, is_sought: bool, source: Src) -> Result<(), AllocError>
    ensures { OnOk result (found.new.items ≡ found.old.items ++ (if is_sought then source ∷ [] else [])) }
{
    if is_sought {
        found.push(source)?;
    }
    Ok(())
}

impl Layout<'_> {
    /// Whether some operation has such a result of the sort.
    fn is_result_sort(&self, place: u8, sort: Sort) -> bool
        ensures { result ≡ is_result_sort (claim_in self.now) place sort }
    {
        for op in self.kinds() {
            if is_sort(self.out_sort(*op, place), sort) {
                return true;
            }
        }
        false
    }

    /// Whether a source stands before the line and may have the sort.
    fn may_have(&self, line: u8, source: Src, sort: Sort) -> bool
        ensures { result ≡ may_have (claim_in self.now) line source sort }
    {
        match source {
            Src::Input(input) => is_sort(self.input_sort(input), sort),
            Src::Out { node, result } => node < line && self.is_result_sort(result, sort),
        }
    }

    /// Whether a sort is wanted, and the source may have it.
    fn may_have_wanted(&self, line: u8, source: Src, wanted: Option<Sort>) -> bool
        ensures { result ≡ may_have_wanted (claim_in self.now) line source wanted }
    {
        match wanted {
            Some(sort) => self.may_have(line, source, sort),
            None => false,
        }
    }

    /// Whether the argument in that place of some operation may come from the source.
    fn may_be_argument(&self, line: u8, place: u8, source: Src) -> bool
        ensures { result ≡ list_any (λ op. may_have_wanted (claim_in self.now) line source
            (arg_sort (claim_in self.now) op place)) (kinds (claim_in self.now)) }
    {
        for op in self.kinds() {
            if self.may_have_wanted(line, source, self.arg_sort(*op, place)) {
                return true;
            }
        }
        false
    }

    /// Whether the source in that place of the row may be this.
    pub(crate) fn may_name(&self, row: u8, place: u8, source: Src) -> bool
        ensures { result ≡ may_name (claim_in self.now) row place source }
    {
        if row < self.size() {
            self.may_be_argument(row, place, source)
        } else {
            self.may_have_wanted(row, source, self.wanted_sort(place))
        }
    }

    /// The slot that says that the source in that place of the row is this.
    pub(crate) fn slot_at(&self, row: u8, place: u8, source: Src) -> Slot
        ensures { result ≡ slot_at (claim_in self.now) row place source }
    {
        if row < self.size() {
            Slot::Arg {
                line: row,
                place,
                source,
            }
        } else {
            Slot::Result { place, source }
        }
    }

    /// What the source in that place of the row may be.
    pub(crate) fn choices(&self, alloc: Global, row: u8, place: u8) -> Result<Vec<Src>, AllocError>
        requires { row ≤ 6 }
        ensures { IfOk result (λ found. found.items ≡ choices (claim_in self.now) row place) }
    {
        let mut found = Vec::new(alloc);
        for number in 0..4 + 3 * u32::from(row) {
            let source = source_at(number);
            push_if(&mut found, self.may_name(row, place, source), source)?;
        }
        Ok(found)
    }

    /// The slots that say so of these sources.
    pub(crate) fn slots_at(
        &self,
        alloc: Global,
        row: u8,
        place: u8,
        sources: &[Src],
    ) -> Result<Vec<Slot>, AllocError>
        ensures { IfOk result (λ found. found.items ≡ map (slot_at (claim_in self.now) row place) sources.now) }
    {
        let mut found = Vec::with_capacity(alloc, sources.len())?;
        for source in sources {
            found.push(self.slot_at(row, place, *source))?;
        }
        Ok(found)
    }
}
