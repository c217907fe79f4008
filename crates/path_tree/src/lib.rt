//! Control paths to be explored, and the pool that hands them to seats.
#![tactic(auto)]

mod bag;
mod counts;
mod entered;
mod path;
mod refusal;
mod room;
mod seat;
mod taken;

pub use bag::Bag;
pub use counts::Counts;
pub use entered::{Entered, PoolCall};
pub use path::Path;
pub use refusal::{NotYours, SplitRefusal};
pub use taken::Taken;

#[cfg(test)]
mod tests;
