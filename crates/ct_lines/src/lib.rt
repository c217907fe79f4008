//! The words of the command line, read into a command.
#![tactic(auto)]

mod check_words;
mod command;
mod run;
mod usage;
mod word;
mod words;
mod words_refusal;

pub use command::{Command, MOST_BLOCKS, MOST_WORKERS, USUAL_WORKERS};
pub use usage::usage_text;
pub use words::read_words;
pub use words_refusal::WordsRefusal;
