//! One step of two runs at once.
#![tactic(auto)]

mod addresses;
mod apart;
mod asking;
mod branches;
mod building;
mod following;
mod here;
mod instruction;
mod jumps;
mod keeping;
mod last;
mod laws;
mod loads;
mod nexts;
mod node;
mod placing;
mod plan;
mod planned;
mod root;
mod settling;
mod simplifying;
mod stores;
mod stride;
mod words;

pub use laws::{bridge_law, node_law};
pub use node::Node;
pub use simplifying::MOST_PASSES;
pub use stride::{Ahead, NextIf, Stride};

#[cfg(test)]
mod tests;
