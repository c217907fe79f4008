//! Expressions as gates.
#![tactic(auto)]

mod blasted;
mod blaster;
mod inputs;
mod limits;
mod node_word;
mod parts;
mod word_map;

pub use blasted::{Blasted, blast, blast_nodes};
pub use limits::NODE_GATES;

#[cfg(test)]
mod tests;
