//! A control path.

use ct_rows::Row;

/// A control path, and what need not be asked along it.
#[derive(Debug, Drop, PartialEq, Eq)]
pub struct Path {
    /// The next addresses, in order.
    pub nexts: Row<u32>,
    /// The sites that were found to leak before: a split there isn't looked for again.
    pub leaked: Row<u32>,
}
