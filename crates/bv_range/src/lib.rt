//! Known bits and intervals of expressions.
#![tactic(auto)]

mod bits;
mod bitwise;
mod bytes;
mod choices;
mod comparisons;
mod ends;
mod laws;
mod quotients;
mod range;
mod ranges;
mod settling;
mod shifts;
mod sums;
mod words;

pub use laws::fixed_law;
pub use range::Range;
pub use ranges::Ranges;

#[cfg(test)]
mod tests;
