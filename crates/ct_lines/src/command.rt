//! What the program is asked to do.

use ct_pairs::Entry;
use ct_rows::Text;

/// The most workers that share the control paths.
pub const MOST_WORKERS: u32 = 16;

/// How many workers there are where none are asked for.
pub const USUAL_WORKERS: u32 = 1;

/// The most blocks of code of a generated routine.
pub const MOST_BLOCKS: u32 = 20_000;

/// What the program is asked to do.
#[derive(Debug, Drop, PartialEq, Eq, Hash)]
pub enum Command {
    /// Check a routine of one secret byte by running all pairs of its values.
    Byte {
        /// The name of the ELF file.
        binary: Text,
        /// Where the routine begins.
        entry: Entry,
        /// The greatest number of steps of a run.
        bound: u32,
    },
    /// Check a routine under a policy.
    Check {
        /// The name of the ELF file.
        binary: Text,
        /// The name of the policy's file.
        policy: Text,
        /// The greatest number of steps of a run; without one the policy's holds.
        bound: Option<u32>,
        /// How many workers share the control paths.
        workers: u32,
        /// The greatest number of clauses that the solver derives for one question.
        budget: u64,
        /// The greatest number of targets that are explored of one jump.
        targets: u32,
    },
    /// Run both starts of a pair and show where they first differ.
    Replay {
        /// The name of the ELF file.
        binary: Text,
        /// The name of the policy's file.
        policy: Text,
        /// The name of the pair's file.
        pair: Text,
    },
    /// Show each step of a routine whose one input byte is 0.
    Trace {
        /// The name of the ELF file.
        binary: Text,
        /// Where the routine begins.
        entry: Entry,
        /// The greatest number of steps of the run.
        bound: u32,
    },
    /// Show every word that can be executed.
    List {
        /// The name of the ELF file.
        binary: Text,
    },
    /// Check a generated routine.
    Gen {
        /// The number that the routine is generated from.
        number: u32,
        /// How many blocks of code the routine has.
        size: u32,
    },
}
