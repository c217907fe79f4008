//! An address as a policy writes it.
ghost use Rattle.std.specs.Prelude.{◌≡◌};
ghost use Rattle.ct_document.specs.Values.{address_value, named_address};

use crate::values::FromValue;
use elf_load::Elf;
use toml::Value;

/// An address as a policy writes it: a whole number, or a text that names a symbol.
#[derive(Clone, Copy, Debug, Drop, PartialEq, Eq)]
pub enum Address {
    Number(i64),
    /// The value of the symbol.
    Symbol(u32),
    /// The text names no symbol.
    Unknown,
}

impl Address {
    /// The address of a name.
    pub fn named(elf: &Elf, name: &str) -> Address
        ensures { result ≡ named_address elf.now name.now }
    {
        match elf.symbol(name) {
            Some(value) => Address::Symbol(value),
            None => Address::Unknown,
        }
    }
}

impl FromValue for Address {
    ghost meaning = { address_value };

    #[tactic(auto, unfolding(crate::specs::Values::address_value))]
    fn from_value(elf: &Elf, value: &Value) -> Option<Address> {
        if let Some(number) = value.as_integer() {
            return Some(Address::Number(number));
        }
        match value.as_str() {
            Some(name) => Some(Address::named(elf, name)),
            None => None,
        }
    }
}
