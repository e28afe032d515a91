//! Which board its parts are of.

use std::marker::Brand;

/// Which table of words a board is on, and what its workers work on. A program that has a blank calls a function that
/// is generic in a name, and picks the blank's there, for [`Brand`].
pub trait Name {
    ghost use Rattle.claim_board.specs.Names.{BoardName};

    ghost board: { BoardName };
}

impl Name for Brand {
    ghost use Rattle.claim_board.specs.Names.{no_board};

    ghost board = { no_board };
}
