//! Policies as documents: from the bytes of a TOML document to what its keys say.
#![tactic(auto)]

mod address;
mod document;
mod input;
mod kind;
mod memory_entry;
mod policy;
mod refusal;
mod register;
mod setting;
mod values;

pub use address::Address;
pub use document::read_document;
pub use input::Input;
pub use kind::Kind;
pub use memory_entry::MemoryEntry;
pub use policy::Policy;
pub use refusal::PolicyRefusal;
pub use register::Register;
pub use setting::Setting;
