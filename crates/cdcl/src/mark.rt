//! Marks of assigned variables.

/// The sign with which a variable is assigned, and the level at which it was.
#[derive(Debug, Clone, Copy)]
pub(crate) struct Mark {
    pub negated: bool,
    pub level: usize,
}
