//! How many gates a node may take.

/// The most gates of a node, the inputs of a variable among them.
pub const NODE_GATES: usize = 32_768;
