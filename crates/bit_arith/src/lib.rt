//! Word operations and conditions as and-gates.
#![tactic(auto)]

mod adder;
mod arithmetic;
mod bits;
mod comparison;
mod divider;
mod limits;
mod multiplier;
mod order;
mod product;
mod quotient;
mod shift;
mod shifter;
mod signs;
mod sum;
mod words;

pub use arithmetic::arith;
pub use comparison::compare;
pub use limits::{PRODUCT_GATES, QUOTIENT_GATES, SHIFT_BITS, SHIFT_GATES, SUM_GATES, WORD_BITS};
pub use words::{Word, pick_word};

#[cfg(test)]
mod tests;
