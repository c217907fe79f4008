//! The report of a check: what it found, as a text of lines.
#![tactic(auto)]

mod ascending;
mod finding;
mod kind;
mod laws;
mod lines;
mod outcome;
mod place;
mod report;
mod site;
mod turns;

pub use finding::Finding;
pub use kind::Kind;
pub use laws::{site_law, sites_law};
pub use outcome::Outcome;
pub use report::{can_report, report_text};

#[cfg(test)]
mod tests;
