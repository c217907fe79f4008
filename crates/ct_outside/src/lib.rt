//! The edge to the outside: files by name, an output, and the calls that read a file and write a text whole.
#![tactic(auto)]

mod failed;
mod failing_calls;
mod gate;
mod meet_gate;
mod memory_shelf;
mod memory_sink;
mod named_files;
mod never_shelf;
mod open_gate;
mod reading;
mod real_shelf;
mod real_sink;
mod shelf;
mod sink;
mod writing;

pub use failed::Failed;
pub use gate::Gate;
pub use meet_gate::MeetGate;
pub use memory_shelf::MemoryShelf;
pub use memory_sink::MemorySink;
pub use never_shelf::NeverShelf;
pub use open_gate::OpenGate;
pub use reading::{LONGEST, ReadEnd, read_all};
pub use real_shelf::RealShelf;
pub use real_sink::RealSink;
pub use shelf::{NAMES, Shelf};
pub use sink::Sink;
pub use writing::{WriteEnd, write_all};

#[cfg(test)]
mod tests;
