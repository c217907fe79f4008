//! The value of a register.
ghost use Rattle.std.specs.Prelude.{◌≡◌};
ghost use Rattle.toml.specs.View.{view, table_view};
ghost use Rattle.ct_document.specs.Document.{optional, each_member};
ghost use Rattle.ct_document.specs.Keys.{setting_value, settings_value, registers_key};
ghost use Rattle.ct_document.specs.Reads.{Reads};

use crate::address::Address;
use crate::refusal::PolicyRefusal;
use crate::register::Register;
use crate::values::FromValue;
use ct_rows::Row;
use elf_load::Elf;
use std::alloc::Global;
use toml::{Table, Value};

/// The value that a register has at the start.
#[derive(Clone, Copy, Debug, Drop, PartialEq, Eq)]
pub struct Setting {
    pub register: Register,
    pub value: Address,
}

fn read_setting(elf: &Elf, name: &str, value: &Value) -> Option<Setting>
    ensures { result ≡ setting_value elf.now name.now (view value.now) }
{
    match Address::from_value(elf, value) {
        Some(address) => Some(Setting {
            register: Register::named(name),
            value: address,
        }),
        None => None,
    }
}

fn read_members(alloc: Global, elf: &Elf, table: &Table) -> Result<Row<Setting>, PolicyRefusal>
    ensures { Reads (each_member (setting_value elf.now) (table_view table.now)) result }
{
    let mut settings = Vec::new(alloc);
    'members: for (name, value) in table.iter() {
        let Some(setting) = read_setting(elf, name.as_str(), value) else {
            return Err(PolicyRefusal::Field);
        };
        settings.push(setting)?;
    }
    Ok(Row::from_vec(settings))
}

fn read_table(alloc: Global, elf: &Elf, value: &Value) -> Result<Row<Setting>, PolicyRefusal>
    ensures { Reads (settings_value elf.now (view value.now)) result }
{
    match value.as_table() {
        Some(table) => read_members(alloc, elf, table),
        None => Err(PolicyRefusal::Field),
    }
}

impl Setting {
    /// The members of a policy's `registers`.
    pub fn read_all(alloc: Global, elf: &Elf, policy: &Value) -> Result<Row<Setting>, PolicyRefusal>
        ensures { Reads (registers_key elf.now (view policy.now)) result }
    {
        match policy.get("registers") {
            Some(value) => read_table(alloc, elf, value),
            None => Ok(Row::from_vec(Vec::new(alloc))),
        }
    }
}
