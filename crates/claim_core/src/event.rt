//! What workers do, and what they have.

/// A step of a worker, which is named by its number from 0.
#[derive(Debug, Drop)]
pub enum Event<E> {
    /// An idle worker looks at what the book tells.
    Look(u32),
    /// An idle worker draws the next claim. It is over where there is none left.
    Draw(u32),
    /// A worker that holds a claim puts it at the end of the book, with this entry, and is idle.
    Publish(u32, E),
}

/// What a worker has.
#[derive(Clone, Copy, Debug, PartialEq, Eq)]
pub enum Held {
    /// Nothing: it may look or draw.
    Idle,
    /// The claim with this number, which it may publish.
    Claim(u64),
    /// Nothing any more: it drew when all claims were drawn.
    Over,
}
