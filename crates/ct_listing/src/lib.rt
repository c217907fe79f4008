//! The trace of a run and the words of an image, as texts of lines.
#![tactic(auto)]

mod list;
mod trace;

pub use list::list_text;
pub use trace::{start_trace_text, trace_text};

#[cfg(test)]
mod tests;
