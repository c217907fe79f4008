//! A check of derivations by resolution: what it accepts has no solution.
#![tactic(auto)]

mod acceptance;
mod chain;
mod refutation;
mod rejected;

pub use acceptance::accept;
pub use refutation::Refutation;
pub use rejected::Rejected;
