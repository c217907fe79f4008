//! Values and registers of two runs at once.
#![tactic(auto)]

mod both_runs;
mod rel_registers;
mod rel_value;

pub use both_runs::{choose, compare, operate};
pub use rel_registers::{REGISTERS, RelRegisters};
pub use rel_value::RelValue;

#[cfg(test)]
mod tests;
