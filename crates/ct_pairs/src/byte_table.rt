//! What the check of all pairs found.
use crate::found::Found;
use ct_rows::Row;

/// What the check of all pairs found: the leak sites in ascending address, and the number of control
/// paths.
#[derive(Debug, Drop)]
pub struct ByteTable {
    pub sites: Row<Found>,
    pub paths: u64,
}
