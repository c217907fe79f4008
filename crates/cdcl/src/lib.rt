//! A search for solutions of formulas that learns clauses. Each learnt clause carries its derivation,
//! so that the answer that there is no solution can be checked.
#![tactic(auto)]

mod analysis;
mod derived;
mod entering;
mod entry;
pub mod laws;
mod learning;
mod mark;
mod numbers;
mod order;
mod pace;
mod propagation;
mod run;
mod searched;
mod solver;
mod status;
mod step;
mod trail;
mod watched;
mod watched_propagation;
mod watches;

pub use searched::Searched;
pub use solver::search;
