//! The memory of two runs at once, where addresses and bytes are expressions.
#![tactic(auto)]

mod contents;
mod entry;
mod rel_memory;
mod replacing;
mod selecting;
mod spanning;

pub use contents::{Kept, Written};
pub use rel_memory::{READ_NODES, RelMemory};

#[cfg(test)]
mod tests;
