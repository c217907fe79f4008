//! Why a pool leaves a path where it is.
use crate::path::Path;

/// The path isn't out to the seat that speaks of it.
#[derive(Clone, Copy, Debug, PartialEq, Eq)]
pub struct NotYours {
    /// The seat that has it, if any.
    pub holder: Option<u32>,
}

/// Why a path wasn't split. The kids are those that were handed in.
#[derive(Debug, Drop)]
pub enum SplitRefusal {
    /// There was no memory.
    Memory {
        kids: Vec<Path>,
    },
    /// The path isn't out to the seat; `holder` is the one that has it, if any.
    NotYours {
        holder: Option<u32>,
        kids: Vec<Path>,
    },
}
