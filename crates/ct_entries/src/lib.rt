//! What a check lists beside the sites that it found: questions that it could not settle.
#![tactic(auto)]

mod listed;

pub use listed::{Cause, Listed, Seen};
