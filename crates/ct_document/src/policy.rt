//! What a document says.
ghost use Rattle.std.specs.Prelude.{◌≡◌};
ghost use Rattle.toml.specs.View.{view};
ghost use Rattle.ct_document.specs.Keys.{policy_of};
ghost use Rattle.ct_document.specs.Reads.{Reads};

use crate::address::Address;
use crate::input::Input;
use crate::memory_entry::MemoryEntry;
use crate::refusal::PolicyRefusal;
use crate::setting::Setting;
use crate::values::{has_only, optional, optional_list, required};
use ct_rows::Row;
use elf_load::Elf;
use std::alloc::Global;
use toml::Value;

/// What a policy's document says, each value by its type alone. Names are looked up, and absent keys
/// have the values that they stand for; ranges are not looked at.
#[derive(Debug, Drop)]
pub struct Policy {
    pub format: i64,
    pub entry: Address,
    pub stops: Row<Address>,
    pub bound: i64,
    pub registers: Row<Setting>,
    pub memory: Row<MemoryEntry>,
    pub inputs: Row<Input>,
}

impl Policy {
    /// The policy of a document.
    #[tactic(auto, unfolding(crate::specs::Keys::policy_of))]
    pub fn of(alloc: Global, elf: &Elf, document: &Value) -> Result<Policy, PolicyRefusal>
        ensures { Reads (policy_of elf.now (view document.now)) result }
    {
        let keys = [
            "format",
            "entry",
            "stop",
            "bound",
            "registers",
            "memory",
            "input",
        ];
        if !has_only(&keys, document) {
            return Err(PolicyRefusal::Field);
        }
        let start = vec![in alloc; Address::Number(0)]?;
        let Some(format) = required(elf, document, "format") else {
            return Err(PolicyRefusal::Field);
        };
        let Some(entry) = optional(elf, document, "entry", Address::Symbol(elf.entry)) else {
            return Err(PolicyRefusal::Field);
        };
        let stops = optional_list(alloc, elf, document, "stop", start)?;
        let Some(bound) = optional(elf, document, "bound", 1000) else {
            return Err(PolicyRefusal::Field);
        };
        let registers = Setting::read_all(alloc, elf, document)?;
        let memory = optional_list(alloc, elf, document, "memory", Vec::new(alloc))?;
        let inputs = optional_list(alloc, elf, document, "input", Vec::new(alloc))?;
        Ok(Policy {
            format,
            entry,
            stops,
            bound,
            registers,
            memory,
            inputs,
        })
    }
}
