//! What a seat gets.

/// What a seat gets that asks for a path.
#[derive(Clone, Copy, Debug, PartialEq, Eq)]
pub enum Taken {
    /// The path of this number.
    Number(u64),
    /// No path is left. The seat has ended.
    Finished,
    /// Nothing waits now, and this many paths are out, any of which may still be split.
    NotNow { out: u64 },
}
