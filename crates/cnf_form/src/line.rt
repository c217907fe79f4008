//! Lines of a log.
use crate::clause::Clause;
use ct_rows::Row;

/// A clause and what it was resolved from: numbers of the formula's clauses, and from the number of
/// these on of earlier lines, in one count from 0.
#[derive(Debug, Drop)]
pub struct Line {
    pub clause: Clause,
    pub chain: Row<u64>,
}
