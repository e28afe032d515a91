//! The sorts of what stands at the lines of a claim.

#![tactic(auto, unfolding(crate::specs::Claimed::claim_in, crate::specs::Layout::claim_of))]

ghost use Rattle.std.specs.Prelude.{◌≡◌, ◌≤◌, slice_get};
ghost use Rattle.loc_encode.specs.Layout.{size, kinds, arg_sort, attr_width, out_sort, wanted_sort, is_sort};
ghost use Rattle.loc_encode.specs.Claimed.{claim_in};

use crate::layout::Layout;
use bv_terms::Sort;

/// Whether there is a sort, and it is this.
pub(crate) fn is_sort(found: Option<Sort>, sort: Sort) -> bool
    ensures { result ≡ is_sort found sort }
{
    match found {
        Some(found) => found == sort,
        None => false,
    }
}

impl Layout<'_> {
    /// The number of lines.
    pub(crate) fn size(&self) -> u8
        ensures size { result ≡ size (claim_in self.now) }
        ensures few { result ≤ 6 }
    {
        self.ops.len() as u8
    }

    /// The operations, each once.
    pub(crate) fn kinds(&self) -> &[u16]
        ensures { result.now ≡ kinds (claim_in self.now) }
    {
        self.kinds
    }

    /// The sort of an argument of an operation.
    pub(crate) fn arg_sort(&self, op: u16, place: u8) -> Option<Sort>
        ensures { result ≡ arg_sort (claim_in self.now) op place }
    {
        let op = usize::from(op);
        if op >= self.spec.ops.len() {
            return None;
        }
        let args = self.spec.op(op).args.as_slice();
        let place = usize::from(place);
        if place >= args.len() {
            return None;
        }
        Some(args[place])
    }

    /// The width of an attribute of an operation.
    pub(crate) fn attr_width(&self, op: u16, place: u8) -> Option<u8>
        ensures { result ≡ attr_width (claim_in self.now) op place }
    {
        let op = usize::from(op);
        if op >= self.spec.ops.len() {
            return None;
        }
        let attrs = self.spec.op(op).attrs.as_slice();
        let place = usize::from(place);
        if place >= attrs.len() {
            return None;
        }
        Some(attrs[place])
    }

    /// The sort of a result of an operation.
    pub(crate) fn out_sort(&self, op: u16, place: u8) -> Option<Sort>
        ensures { result ≡ out_sort (claim_in self.now) op place }
    {
        let op = usize::from(op);
        if op >= self.spec.ops.len() {
            return None;
        }
        let results = self.spec.op(op).results.as_slice();
        let place = usize::from(place);
        if place >= results.len() {
            return None;
        }
        Some(self.spec.terms.sort(results[place]))
    }

    /// The sort of an input of the goal.
    pub(crate) fn input_sort(&self, input: u8) -> Option<Sort>
        ensures { result ≡ slice_get (claim_in self.now).goal.args input }
    {
        let args = self.spec.goal(self.goal).args.as_slice();
        let input = usize::from(input);
        if input >= args.len() {
            return None;
        }
        let (_, sort) = args[input];
        Some(sort)
    }

    /// The sort of a result of the goal.
    pub(crate) fn wanted_sort(&self, place: u8) -> Option<Sort>
        ensures { result ≡ wanted_sort (claim_in self.now) place }
    {
        let results = self.spec.goal(self.goal).results.as_slice();
        let place = usize::from(place);
        if place >= results.len() {
            return None;
        }
        Some(self.spec.terms.sort(results[place]))
    }
}
