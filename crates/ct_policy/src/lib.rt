//! Policies: from what a document says to the job that it stands for, by the rules that it has to meet.
#![tactic(auto)]

mod addresses;
mod byte_jobs;
mod images;
mod inputs;
mod jobs;
mod limits;
mod memory;
mod memory_rules;
mod numbers;
mod options;
mod reading;
mod region;
mod registers;
#[cfg(test)]
mod tests;
mod value_rules;

pub use byte_jobs::byte_job;
pub use ct_document::PolicyRefusal;
pub use options::Options;
pub use reading::read;
