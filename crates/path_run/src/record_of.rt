//! What a control path came to.

use ct_entries::Listed;
use ct_pairs::Found;
use ct_rows::Row;
use path_tree::Path;

/// What a control path came to: what was found and listed along it, how often it ended, and where it goes on.
#[derive(Debug, Drop)]
pub struct RecordOf {
    pub path: Path,
    pub found: Row<Found>,
    pub listed: Row<Listed>,
    /// How many questions of feasibility were left open.
    pub doubts: u64,
    /// How many ways there are along which it ends.
    pub ends: u64,
    /// Where it goes on, in ascending order of the next address.
    pub kids: Row<Path>,
}
