//! The limits of a job.

/// The most steps of a run.
pub const MOST_BOUND: u32 = 100_000;

/// The most stop addresses.
pub const MOST_STOPS: u32 = 64;

/// The most input bytes.
pub const MOST_INPUTS: u32 = 4096;

/// The most learnt lines of a question.
pub const MOST_BUDGET: u64 = 1_000_000;

/// The most targets of one indirect jump.
pub const MOST_TARGETS: u32 = 256;

/// The learnt lines of a question, where nothing else is said.
pub const USUAL_BUDGET: u64 = 20_000;

/// The targets of one indirect jump, where nothing else is said.
pub const USUAL_TARGETS: u32 = 16;
