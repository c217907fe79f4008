//! One control path, run in two runs at once.
#![tactic(auto)]

mod access;
mod closing;
mod course;
mod entering;
mod leaks;
mod onward;
mod pairs;
mod record_of;
mod replaying;
mod running;
mod sighting;
mod stage;
mod stand;
mod targets;
mod telling;
mod told;
mod walk;
mod walking;

pub use record_of::RecordOf;
pub use running::run_path;
pub use told::Told;
pub use walk::{Walk, Walked};
