//! What a step shows.
use crate::touch::Touch;

/// What a step shows to an observer: where it was, which memory it touched and where it goes.
#[derive(Clone, Copy, Debug, PartialEq, Eq)]
pub struct Record {
    pub pc: u32,
    pub touch: Touch,
    /// The next pc; none where the access was refused.
    pub next: Option<u32>,
}
