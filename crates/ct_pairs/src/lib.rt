//! Jobs, pairs of starts that agree on public inputs, where their runs first split, and the check of
//! all pairs of one secret byte.
#![tactic(auto)]

mod byte_table;
mod checking;
mod entry;
mod found;
mod input_byte;
mod job;
mod laws;
mod limits;
mod nexts;
mod noting;
mod one_secret;
mod pair;
mod place;
mod placing;
mod runs;
mod split;
mod splitting;
mod starting;
mod survey;
mod value_split;

pub use byte_table::ByteTable;
pub use checking::byte_check;
pub use entry::Entry;
pub use found::Found;
pub use input_byte::InputByte;
pub use job::Job;
pub use laws::{path_count_law, split_law};
pub use limits::{
    MOST_BOUND, MOST_BUDGET, MOST_INPUTS, MOST_STOPS, MOST_TARGETS, USUAL_BUDGET, USUAL_TARGETS,
};
pub use one_secret::byte_job;
pub use pair::Pair;
pub use place::Place;
pub use split::Split;
pub use splitting::first_split;
pub use starting::{start_machine, starts};

#[cfg(test)]
mod tests;
