//! How many paths stand where.

/// How many of a pool's paths wait, are out to a seat, and are done.
#[derive(Clone, Copy, Debug, PartialEq, Eq)]
pub struct Counts {
    pub waiting: u64,
    pub out: u64,
    pub done: u64,
}
