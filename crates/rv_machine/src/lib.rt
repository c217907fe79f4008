//! The concrete RV32IM machine: one start, run step by step.
#![tactic(auto)]

mod end;
mod machine;
mod ran;
mod record;
mod stepped;
mod touch;

pub use end::End;
pub use machine::Machine;
pub use ran::Ran;
pub use record::Record;
pub use stepped::Stepped;
pub use touch::Touch;
