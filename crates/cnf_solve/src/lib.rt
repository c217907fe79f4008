//! A formula in a file, searched, and the answer written.
#![tactic(auto)]

mod failure;
mod process;
mod solving;
mod task;

pub use failure::Failure;
pub use process::{finish, run};
pub use solving::solve;
pub use task::{Task, read_task};
