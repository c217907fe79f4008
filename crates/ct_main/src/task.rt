//! What remains to be done once a command's files have passed.

use crate::generated::Generated;
use ct_pairs::{Job, Pair};
use elf_load::Elf;

/// What remains to be done once a command's files have passed.
#[derive(Debug, Drop)]
pub enum Task {
    /// Check the job of one secret byte by running all its pairs, and report what was found.
    Byte(Job),
    /// Check the job by so many workers and report what was found.
    Check(Job, u32),
    /// Run both starts of the pair and show how the runs compare.
    Replay(Job, Pair),
    /// Show each step of the job's run with byte 0.
    Trace(Job),
    /// Show every word of the executable that can be executed.
    List(Elf),
    /// Check the generated code by one worker and sum up what was found.
    Gen(Generated),
}
