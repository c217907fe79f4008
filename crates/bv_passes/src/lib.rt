//! Passes that replace expressions by simpler ones of the same value.
#![tactic(auto)]

mod algebra;
mod body;
mod changes;
mod constants;
mod known_bits;
mod making;
mod merge_bytes;
mod pass;
mod rewrite;
mod shifts;
mod summand;
mod sums;
mod terms;
pub mod trial;

pub use algebra::Algebra;
pub use body::Body;
pub use known_bits::{KnownBits, MOST_LOOKED};
pub use merge_bytes::MergeBytes;
pub use pass::{Kit, MOST_NEW, Pass};
pub use rewrite::{Operand, Rewrite};
pub use shifts::Shifts;
pub use summand::Summand;
pub use sums::Sums;

#[cfg(test)]
mod tests;
