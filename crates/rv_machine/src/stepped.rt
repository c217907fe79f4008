//! What a step gave.
use crate::end::End;
use crate::record::Record;

/// What one step gave: its record, if there is one, and the ending of the run after it.
#[derive(Clone, Copy, Debug, PartialEq, Eq)]
pub struct Stepped {
    pub seen: Option<Record>,
    pub end: Option<End>,
}
