//! What the seats at a board's table know. No value of these types is made.

use std::collections::LinkedList;

/// The claims of a book, each with the size that its entry told, in the order in which they were entered.
pub type Claims = LinkedList<(u64, Option<u8>)>;

/// What the library's seat knows.
pub struct Ledger {
    /// The claims in the library.
    pub book: Claims,
    /// How many passes may still be handed out.
    pub free: u64,
    /// How many workers that are over were given in.
    pub ended: u64,
    /// What the seat that was given in last had seen.
    pub last: Claims,
}

/// What a seat knows. A worker's has the claims of the book that it saw last.
pub enum View {
    /// A worker that may look or draw.
    Idle(Claims),
    /// A worker with the claim of this number.
    Claim(u64, Claims),
    /// A worker that read this number, and there is no claim with it.
    Over(u64, Claims),
    /// A seat that was given in.
    Joined,
    /// The library's.
    Book(Ledger),
}
