//! Executables of any size that have symbols, secrets and paths, each made from a number.
#![tactic(auto)]

mod block;
mod building;
mod bytes;
mod code;
mod file;
mod generator;
mod headers;
mod policy;
mod summary;

pub use building::{Built, build};
pub use file::small_elf;
pub use summary::summary_text;

#[cfg(test)]
mod tests;
