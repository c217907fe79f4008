//! Inputs as registers, regions and numbers of bytes.
ghost use Rattle.std.specs.Prelude.{◌≡◌};
ghost use Rattle.ct_policy.specs.Policy as policies;
ghost use Rattle.ct_policy.specs.Rules as rules;

use crate::addresses::{address_word, is_address, is_known};
use crate::numbers::{is_within, word_of};
use crate::region::Region;
use ct_document::{Input, Register};
use elf_load::MOST_MEMORY;

/// Whether the address of an input, where it has one, is a number or names a symbol.
pub(crate) fn input_is_known(input: Input) -> bool
    ensures { result ≡ rules.input_is_known input }
{
    match input {
        Input::Register { .. } => true,
        Input::Memory { at, .. } => is_known(at),
    }
}

/// Whether the numbers of an input are in their ranges.
pub(crate) fn input_is_within(input: Input) -> bool
    ensures { result ≡ rules.input_is_within input }
{
    match input {
        Input::Register { bytes, .. } => is_within(bytes, 1, 4),
        Input::Memory {
            at,
            offset,
            length,
            ..
        } => {
            is_address(at)
                && is_within(offset, 0, u32::MAX)
                && is_within(length, 1, MOST_MEMORY as u32)
        }
    }
}

/// The register that an input names.
pub(crate) fn input_register(input: Input) -> Option<Register>
    ensures { result ≡ policies.input_register input }
{
    match input {
        Input::Register { register, .. } => Some(register),
        Input::Memory { .. } => None,
    }
}

/// The addresses of an input's bytes.
pub(crate) fn input_region(input: Input) -> Region
    ensures { result ≡ policies.input_region input }
{
    match input {
        Input::Register { .. } => Region {
            at: 0,
            offset: 0,
            length: 0,
        },
        Input::Memory {
            at,
            offset,
            length,
            ..
        } => Region {
            at: address_word(at),
            offset: word_of(offset),
            length: word_of(length),
        },
    }
}

/// The number of an input's bytes.
pub(crate) fn input_size(input: Input) -> u32
    ensures { result ≡ policies.input_size input }
{
    match input {
        Input::Register { bytes, .. } => word_of(bytes),
        Input::Memory { length, .. } => word_of(length),
    }
}
