//! What the next step does in both runs.

use crate::stride::Stride;
use rel_memory::Written;
use rel_store::RelValue;

/// What a step that goes on changes beside the pc.
#[derive(Debug, Drop)]
pub(crate) enum Moved {
    Nothing,
    Register { rd: u32, given: RelValue },
    /// Bytes that are stored one after another.
    Bytes(Vec<Written>),
}

/// The next step and what it changes.
#[derive(Debug, Drop)]
pub(crate) struct Planned {
    pub stride: Stride,
    pub moved: Moved,
}
