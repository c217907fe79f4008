//! Registers by name.
ghost use Rattle.std.specs.Prelude.{◌≡◌, ◌<◌};
ghost use Rattle.ct_document.specs.Registers.{has_name, register_of, numbered_name};
ghost use Rattle.ct_document.specs.Values.{named_register, register_value};

use crate::values::FromValue;
use elf_load::Elf;
use rv_decode::register_name;
use toml::Value;

/// A register as a policy names it.
#[derive(Clone, Copy, Debug, Drop, PartialEq, Eq)]
pub enum Register {
    /// The register's number, 0 to 31.
    Number(u32),
    /// The name is no register's.
    Unknown,
}

impl Register {
    /// The register of a name.
    pub fn named(name: &str) -> Register
        ensures { result ≡ named_register name.now }
    {
        match register_of(name) {
            Some(number) => Register::Number(number),
            None => Register::Unknown,
        }
    }
}

fn numbered_name(number: u32) -> &'static str
    requires { number < 32 }
    ensures { result.now ≡ numbered_name number }
{
    match number {
        0 => "x0",
        1 => "x1",
        2 => "x2",
        3 => "x3",
        4 => "x4",
        5 => "x5",
        6 => "x6",
        7 => "x7",
        8 => "x8",
        9 => "x9",
        10 => "x10",
        11 => "x11",
        12 => "x12",
        13 => "x13",
        14 => "x14",
        15 => "x15",
        16 => "x16",
        17 => "x17",
        18 => "x18",
        19 => "x19",
        20 => "x20",
        21 => "x21",
        22 => "x22",
        23 => "x23",
        24 => "x24",
        25 => "x25",
        26 => "x26",
        27 => "x27",
        28 => "x28",
        29 => "x29",
        30 => "x30",
        _ => "x31",
    }
}

fn has_name(number: u32, name: &str) -> bool
    requires { number < 32 }
    ensures { result ≡ has_name name.now number }
{
    name == numbered_name(number) || name == register_name(number) || (number == 8 && name == "fp")
}

fn register_of(name: &str) -> Option<u32>
    ensures { result ≡ register_of name.now }
{
    (0..32).find(|number| has_name(*number, name))
}

impl FromValue for Register {
    ghost meaning = { λ elf value. register_value value };

    #[tactic(auto, unfolding(crate::specs::Values::register_value))]
    fn from_value(_elf: &Elf, value: &Value) -> Option<Register> {
        match value.as_str() {
            Some(name) => Some(Register::named(name)),
            None => None,
        }
    }
}
