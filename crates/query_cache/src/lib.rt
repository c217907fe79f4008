//! Settled questions, kept with their verdicts so that none is asked twice.
#![tactic(auto)]

mod cache;
mod copying;
mod kept;
mod shared_cache;

pub use cache::{Cache, MOST_ENTRIES, MOST_NODES};
pub use copying::copy_of_verdict;
pub use kept::Kept;
pub use shared_cache::SharedCache;

#[cfg(test)]
mod tests;
