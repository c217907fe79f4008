//! Pairs of starts as texts, and how their runs compare.
#![tactic(auto)]

mod reading;
mod refusal;
mod replayed;
mod replaying;
mod telling;
mod values;
mod writing;

pub use reading::{bad_line_law, pair_text_law, read_pair};
pub use refusal::PairRefusal;
pub use replayed::Replayed;
pub use replaying::replay;
pub use telling::replay_text;
pub use writing::pair_text;

#[cfg(test)]
mod tests;
