//! The check of a job: every control path is explored, and what was found is put together.
#![tactic(auto)]

mod checking;
mod crew;
mod exploring;
mod member;
mod merging;
mod telling;
mod together;
mod working;

pub use checking::{check_alone, check_job};
pub use crew::MOST_WORKERS;

#[cfg(test)]
mod tests;
