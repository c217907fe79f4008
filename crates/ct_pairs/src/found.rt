//! A leak that was found, with the pair that shows it.
use crate::pair::Pair;

/// A leak: a pair of starts that first split at the instruction at `site`, in step `step` counted
/// from 1.
#[derive(Debug, Drop, PartialEq, Eq)]
pub struct Found {
    pub site: u32,
    pub step: u32,
    pub pair: Pair,
}
