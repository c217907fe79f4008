//! Expressions that are known to be equal.
#![tactic(auto)]

mod equalities;
mod equality;
mod keeping;
mod outermost;
mod peeling;

pub use equalities::Equalities;
pub use equality::Equality;

#[cfg(test)]
mod tests;
