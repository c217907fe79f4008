//! Texts that several outputs share: addresses, words, bytes, and what a step shows.
#![tactic(auto)]

mod bytes;
mod records;
mod words;

pub use bytes::push_bytes;
pub use records::{push_next, push_record, push_touch};
pub use words::{push_address, push_word};

#[cfg(test)]
mod tests;
