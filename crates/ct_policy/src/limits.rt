//! The limits of a policy beside those of its job.

/// The most items of a list.
pub(crate) const MOST_ITEMS: usize = 64;
