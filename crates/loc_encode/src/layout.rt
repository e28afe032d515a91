//! What may stand at the lines of a claim, and what may be named there.

ghost use Rattle.std.specs.Prelude.{◌≡◌, ◌<◌, ◌≤◌, length};
ghost use Rattle.loc_encode.specs.Layout.{different};

use isel_spec::Spec;

/// A claim with each of its operations once. Lines are numbered from 0, one for each operation; a row of sources is the
/// arguments at a line, and the row after all lines is the results.
#[derive(Drop)]
pub(crate) struct Layout<'a> {
    pub spec: &'a Spec,
    pub goal: u32,
    pub ops: &'a [u16],
    pub kinds: &'a [u16],
    ghost place: { goal < length spec.now.goals },
    ghost few: { length ops.now ≤ 6 },
    ghost each: { kinds.now ≡ different ops.now },
}
