//! Formulas and derivations as texts: the DIMACS format in, the form of SAT competitions and LRAT out.
#![tactic(auto)]

mod answer;
mod fault;
mod formula;
mod reader;

pub use answer::answer_text;
pub use fault::{Fault, TextError};
pub use formula::Formula;
pub use reader::read_formula;

#[cfg(test)]
mod tests;
