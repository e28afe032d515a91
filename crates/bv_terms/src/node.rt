//! A node as the table looks it up. The places of arguments that its operation doesn't use have node 0, so that
//! equal nodes are equal values.

ghost use Rattle.std.specs.Prelude.{◌≡◌, ◌<◌, ◌≤◌, length, take, slice_get, Some};
ghost use Rattle.bv_terms.specs.Signature.{arity};
ghost use Rattle.bv_terms.specs.Node.{node_of};

use crate::op::{Op, TermId};

/// The most arguments that an operation has.
pub(crate) const MOST_ARGS: usize = 3;

/// A node as it is looked up: an operation and its arguments. It owns no memory, so a look-up takes none.
#[derive(Clone, Copy, Debug, PartialEq, Eq, Hash)]
pub(crate) struct Node {
    pub(crate) op: Op,
    /// The arguments, and then `TermId(0)` in each place that the operation doesn't use.
    pub(crate) args: [TermId; MOST_ARGS],
}

impl Node {
    /// The node of an operation over these arguments.
    pub(crate) fn new(op: Op, args: &[TermId]) -> Node
        requires { length args.now ≡ arity op }
        ensures { result ≡ node_of (record { op = op; args = args.now }) }
    {
        let mut padded = [TermId(0); MOST_ARGS];
        padded[..args.len()].copy_from_slice(args);
        Node { op, args: padded }
    }

    /// The arguments of the operation.
    pub(crate) fn args(&self) -> &[TermId]
        ensures { result.now ≡ take (arity self.now.op) self.now.args }
    {
        &self.args[..self.op.arity()]
    }
}
