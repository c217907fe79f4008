//! Clauses over boolean variables, formulas of them, assignments, and logs of derived clauses.
#![tactic(auto)]

mod assignment;
mod clause;
mod clauses;
mod cnf;
mod encoding;
mod inputs;
mod line;
mod lists;
mod lit;
mod log;
mod resolvent;

pub use assignment::{Assignment, meets};
pub use clause::{Clause, is_clause};
pub use clauses::Clauses;
pub use cnf::Cnf;
pub use encoding::encode;
pub use inputs::read_inputs;
pub use line::Line;
pub use lit::Lit;
pub use log::Log;
pub use resolvent::resolve;

#[cfg(test)]
mod tests;
