//! Registers as numbers.
ghost use Rattle.std.specs.Prelude.{◌≡◌};
ghost use Rattle.ct_policy.specs.Policy as policies;
ghost use Rattle.ct_policy.specs.Rules as rules;

use ct_document::Register;

/// Whether a register has this number.
pub(crate) fn is_register(register: Register, number: u32) -> bool
    ensures { result ≡ policies.is_register number register }
{
    match register {
        Register::Number(own) => own == number,
        Register::Unknown => false,
    }
}

/// Whether two names stand for one register.
pub(crate) fn same_register(register: Register, other: Register) -> bool
    ensures { result ≡ rules.same_register register other }
{
    match register {
        Register::Number(number) => is_register(other, number),
        Register::Unknown => false,
    }
}

/// A register's number, and 0 for none.
pub(crate) fn register_number(register: Register) -> u32
    ensures { result ≡ policies.register_number register }
{
    match register {
        Register::Number(number) => number,
        Register::Unknown => 0,
    }
}

/// Whether a start may give a register a value.
pub(crate) fn is_settable(register: Register) -> bool
    ensures { result ≡ rules.is_settable register }
{
    match register {
        Register::Number(number) => number > 0 && number < 32,
        Register::Unknown => false,
    }
}
