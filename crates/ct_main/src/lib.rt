//! The program as one call: words, files and an output in, a text and a status out; and what it says of that on standard error.
#![tactic(auto)]

mod errors;
mod files;
mod finished;
mod generated;
mod laws;
mod made;
mod output;
mod preparation;
mod process;
mod program;
mod refusal;
mod task;

pub use errors::{Printer, tell};
pub use finished::Finished;
pub use generated::Generated;
pub use laws::leak_sites_law;
pub use output::write_made;
pub use preparation::prepare;
pub use process::{finish, run, run_with, words_of};
pub use program::{ASKED_BEFORE, ctrel};
pub use refusal::Refusal;
pub use task::Task;

#[cfg(test)]
mod tests;
