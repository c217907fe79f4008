//! Expressions over input bytes, each kept once as a node of a list.
#![tactic(auto)]

mod arena;
mod bytes;
mod expr_id;
mod q_node;
mod values;
mod width;

pub use arena::Arena;
pub use expr_id::ExprId;
pub use q_node::QNode;
pub use values::Values;
pub use width::{BIT, BYTE, WORD};

#[cfg(test)]
mod tests;
