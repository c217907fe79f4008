//! What a run gave.
use crate::end::End;

/// What a run gave: the number of its records, and its ending where it has come to one.
#[derive(Clone, Copy, Debug, PartialEq, Eq)]
pub struct Ran {
    pub steps: u32,
    pub end: Option<End>,
}
