//! Small formulas on which the search, both ways, and the check of derivations are tried.
//!
//! It has no code but its tests.
#![tactic(auto)]

#[cfg(test)]
mod formulas;
#[cfg(test)]
mod news;
#[cfg(test)]
mod tests;
