//! What became of a verdict that was to be kept.

/// What became of a question with its verdict.
#[derive(Clone, Copy, Debug, PartialEq, Eq)]
pub enum Kept {
    /// It is the most recent entry.
    Done,
    /// The question has more nodes than are kept, and nothing changed.
    TooLarge,
    /// There was no memory, and nothing changed.
    Memory,
}
