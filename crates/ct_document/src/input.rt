//! Bytes that differ from start to start, as a policy names them.
ghost use Rattle.std.specs.Prelude.{◌≡◌};
ghost use Rattle.toml.specs.View.{view};
ghost use Rattle.ct_document.specs.Keys.{register_input, memory_input, input_value};

use crate::address::Address;
use crate::kind::Kind;
use crate::register::Register;
use crate::values::{FromValue, has_only, optional, required};
use elf_load::Elf;
use toml::Value;

/// Bytes that differ from start to start.
#[derive(Clone, Copy, Debug, Drop, PartialEq, Eq)]
pub enum Input {
    /// The low bytes of a register, of which the others are 0.
    Register {
        register: Register,
        bytes: i64,
        kind: Kind,
    },
    /// Bytes of memory from `at + offset` on.
    Memory {
        at: Address,
        offset: i64,
        length: i64,
        kind: Kind,
    },
}

#[tactic(auto, unfolding(crate::specs::Keys::register_input))]
fn register_input(elf: &Elf, value: &Value) -> Option<Input>
    ensures { result ≡ register_input (view value.now) }
{
    if !has_only(&["register", "bytes", "kind"], value) {
        return None;
    }
    let register = required(elf, value, "register")?;
    let bytes = optional(elf, value, "bytes", 4)?;
    let kind = required(elf, value, "kind")?;
    Some(Input::Register {
        register,
        bytes,
        kind,
    })
}

#[tactic(auto, unfolding(crate::specs::Keys::memory_input))]
fn memory_input(elf: &Elf, value: &Value) -> Option<Input>
    ensures { result ≡ memory_input elf.now (view value.now) }
{
    if !has_only(&["at", "offset", "length", "kind"], value) {
        return None;
    }
    let at = required(elf, value, "at")?;
    let offset = optional(elf, value, "offset", 0)?;
    let length = required(elf, value, "length")?;
    let kind = required(elf, value, "kind")?;
    Some(Input::Memory {
        at,
        offset,
        length,
        kind,
    })
}

impl FromValue for Input {
    ghost meaning = { input_value };

    #[tactic(auto, unfolding(crate::specs::Keys::input_value))]
    fn from_value(elf: &Elf, value: &Value) -> Option<Input> {
        match register_input(elf, value) {
            Some(input) => Some(input),
            None => memory_input(elf, value),
        }
    }
}
