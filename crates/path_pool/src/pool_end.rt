//! What is left of a pool.

use path_tree::Bag;

/// What is left of a pool once nobody shares it.
#[derive(Debug, Drop)]
pub struct PoolEnd {
    /// The paths, and the history of what the seats did.
    pub bag: Bag,
}
