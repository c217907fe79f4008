//! ELF32 executables, from the bytes of a file to the segments that it loads and the names of its
//! addresses.
#![tactic(auto)]

mod elf;
mod file_header;
mod format;
mod loading;
mod program_header;
mod range;
mod refusal;
mod rules;
mod section_header;
mod segment;
mod symbol;
mod symbol_entry;
mod symbol_table;
mod table;
#[cfg(test)]
mod tests;

pub use elf::Elf;
pub use format::{MEMORY_END, MOST_MEMORY};
pub use loading::load;
pub use range::{AddressRange, first_overlap};
pub use refusal::ElfRefusal;
pub use segment::Segment;
pub use symbol::Symbol;
