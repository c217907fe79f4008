//! How far a check is, shown on a terminal.
#![tactic(auto)]

mod progress;

pub use progress::Progress;
