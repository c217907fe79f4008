//! Memory beside the segments.
ghost use Rattle.std.specs.Prelude.{◌≡◌};
ghost use Rattle.ct_document.specs.Keys.{memory_value};

use crate::address::Address;
use crate::values::{FromValue, has_only, required};
use elf_load::Elf;
use toml::Value;

/// Memory beside the segments: zeros that may be loaded and stored.
#[derive(Clone, Copy, Debug, Drop, PartialEq, Eq)]
pub struct MemoryEntry {
    /// The first address.
    pub at: Address,
    /// The number of bytes.
    pub length: i64,
}

impl FromValue for MemoryEntry {
    ghost meaning = { memory_value };

    #[tactic(auto, unfolding(crate::specs::Keys::memory_value))]
    fn from_value(elf: &Elf, value: &Value) -> Option<MemoryEntry> {
        if !has_only(&["at", "length"], value) {
            return None;
        }
        let at = required(elf, value, "at")?;
        let length = required(elf, value, "length")?;
        Some(MemoryEntry { at, length })
    }
}
