//! And-gates: a list of gates that grows, with four local rules and with equal gates shared.
#![tactic(auto)]

mod gates;
mod rules;
mod wire;

pub use gates::Gates;
pub use wire::{FALSE, Gate, TRUE, Wire};

#[cfg(test)]
mod tests;
