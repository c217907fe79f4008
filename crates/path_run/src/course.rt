//! What a walk has gathered.

use ct_entries::Listed;
use ct_pairs::Found;
use path_tree::Path;

/// What a walk has gathered on its way.
#[derive(Debug, Drop)]
pub(crate) struct Course {
    /// Where the walk began.
    pub path: Path,
    /// Where it stands: the next addresses, from the entry on.
    pub at: Vec<u32>,
    pub found: Vec<Found>,
    pub listed: Vec<Listed>,
    pub ends: u64,
    pub doubts: u64,
}
