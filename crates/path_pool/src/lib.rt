//! The pool of paths that members of a crew share.
#![tactic(auto)]

mod asking;
mod gathering;
mod pool_end;
mod pool_seat;
mod pulled;
mod rule;
mod shared_pool;
mod steps;
mod turn;
mod view;

pub use pool_end::PoolEnd;
pub use pool_seat::PoolSeat;
pub use pulled::Pulled;
pub use shared_pool::{MOST_SEATS, SharedPool};

#[cfg(test)]
mod tests;
