//! The program `ctrace` as one call: words, files and an output in, the trace of one run and a status out; and what it says of that on standard error.
#![tactic(auto)]

mod errors;
mod finished;
mod process;
mod program;
mod reading;
mod showing;
mod usage;

pub use errors::tell;
pub use finished::Finished;
pub use process::{finish, run};
pub use program::ctrace;

#[cfg(test)]
mod decode_memory;
#[cfg(test)]
mod tests;
