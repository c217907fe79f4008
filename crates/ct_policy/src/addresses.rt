//! Address values as numbers.
ghost use Rattle.std.specs.Prelude.{◌≡◌};
ghost use Rattle.ct_policy.specs.Numbers as numbers;
ghost use Rattle.ct_policy.specs.Rules as rules;

use crate::numbers::{is_within, word_of};
use ct_document::Address;

/// Whether an address value is a number, or names a symbol.
pub(crate) fn is_known(address: Address) -> bool
    ensures { result ≡ rules.is_known address }
{
    match address {
        Address::Number(_) | Address::Symbol(_) => true,
        Address::Unknown => false,
    }
}

/// Whether an address value is no number outside the range of addresses.
pub(crate) fn is_address(address: Address) -> bool
    ensures { result ≡ rules.is_address address }
{
    match address {
        Address::Number(number) => is_within(number, 0, u32::MAX),
        Address::Symbol(_) | Address::Unknown => true,
    }
}

/// The address that an address value stands for, and 0 where it is none.
#[tactic(auto, unfolding(crate::specs::Numbers::address_word))]
pub(crate) fn address_word(address: Address) -> u32
    ensures { result ≡ numbers.address_word address }
{
    match address {
        Address::Number(number) => word_of(number),
        Address::Symbol(value) => value,
        Address::Unknown => 0,
    }
}
