//! The first step at which two runs differ.
use rv_machine::Record;

/// The first step, counted from 1, at which two runs show different records, with the two records.
#[derive(Clone, Copy, Debug, PartialEq, Eq)]
pub struct Split {
    pub step: u32,
    pub left: Record,
    pub right: Record,
}
