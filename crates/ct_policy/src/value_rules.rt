//! The rules on names, numbers and registers.
ghost use Rattle.std.specs.Prelude.{◌≡◌, ◌++◌, map, IfOk, OnOk};
ghost use Rattle.std.specs.List.{list_all, list_any, filter_map};
ghost use Rattle.ct_policy.specs.Policy.{named_registers, input_register};
ghost use Rattle.ct_policy.specs.Rules as rules;

use crate::addresses::{is_address, is_known};
use crate::inputs::{input_is_known, input_is_within, input_register};
use crate::limits::MOST_ITEMS;
use crate::memory::memory_is_within;
use crate::numbers::is_within;
use crate::registers::{is_settable, same_register};
use ct_document::{Address, Input, MemoryEntry, Policy, PolicyRefusal, Register, Setting};
use ct_pairs::MOST_BOUND;
use std::alloc::{AllocError, Global};

fn are_known(addresses: &[Address]) -> bool
    ensures { result ≡ list_all rules.is_known addresses.now }
{
    addresses.iter().all(|address| is_known(*address))
}

fn settings_are_known(settings: &[Setting]) -> bool
    ensures { result ≡ list_all (λ setting. rules.is_known setting.value) settings.now }
{
    settings.iter().all(|setting| is_known(setting.value))
}

fn entries_are_known(entries: &[MemoryEntry]) -> bool
    ensures { result ≡ list_all (λ entry. rules.is_known entry.at) entries.now }
{
    entries.iter().all(|entry| is_known(entry.at))
}

fn inputs_are_known(inputs: &[Input]) -> bool
    ensures { result ≡ list_all rules.input_is_known inputs.now }
{
    inputs.iter().all(|input| input_is_known(*input))
}

/// P3: whether each text in the place of an address names a symbol.
#[tactic(auto, unfolding(crate::specs::Rules::names_are_known))]
fn names_are_known(policy: &Policy) -> bool
    ensures { result ≡ rules.names_are_known policy.now }
{
    is_known(policy.entry)
        && are_known(policy.stops.as_slice())
        && settings_are_known(policy.registers.as_slice())
        && entries_are_known(policy.memory.as_slice())
        && inputs_are_known(policy.inputs.as_slice())
}

fn are_addresses(addresses: &[Address]) -> bool
    ensures { result ≡ list_all rules.is_address addresses.now }
{
    addresses.iter().all(|address| is_address(*address))
}

fn settings_are_within(settings: &[Setting]) -> bool
    ensures { result ≡ list_all (λ setting. rules.is_address setting.value) settings.now }
{
    settings.iter().all(|setting| is_address(setting.value))
}

fn entries_are_within(entries: &[MemoryEntry]) -> bool
    ensures { result ≡ list_all rules.memory_is_within entries.now }
{
    entries.iter().all(|entry| memory_is_within(*entry))
}

fn inputs_are_within(inputs: &[Input]) -> bool
    ensures { result ≡ list_all rules.input_is_within inputs.now }
{
    inputs.iter().all(|input| input_is_within(*input))
}

/// P4: whether each number is in its range, and no list is too long.
#[tactic(auto, unfolding(crate::specs::Rules::numbers_are_within))]
fn numbers_are_within(policy: &Policy) -> bool
    ensures { result ≡ rules.numbers_are_within policy.now }
{
    is_within(policy.format, 1, 1)
        && is_address(policy.entry)
        && policy.stops.len() <= MOST_ITEMS
        && are_addresses(policy.stops.as_slice())
        && is_within(policy.bound, 1, MOST_BOUND)
        && settings_are_within(policy.registers.as_slice())
        && policy.memory.len() <= MOST_ITEMS
        && entries_are_within(policy.memory.as_slice())
        && policy.inputs.len() <= MOST_ITEMS
        && inputs_are_within(policy.inputs.as_slice())
}

fn push_registers_of_settings(
    registers: &mut Vec<Register>,
    settings: &[Setting],
) -> Result<(), AllocError>
    ensures { OnOk result (registers.new.items ≡ registers.old.items ++ map (λ setting. setting.register) settings.now) }
{
    for setting in settings {
        registers.push(setting.register)?;
    }
    Ok(())
}

fn push_registers_of_inputs(
    registers: &mut Vec<Register>,
    inputs: &[Input],
) -> Result<(), AllocError>
    ensures { OnOk result (registers.new.items ≡ registers.old.items ++ filter_map input_register inputs.now) }
{
    for input in inputs {
        if let Some(register) = input_register(*input) {
            registers.push(register)?;
        }
    }
    Ok(())
}

/// The registers that the policy names.
#[tactic(auto, unfolding(crate::specs::Policy::named_registers))]
fn named_registers(alloc: Global, policy: &Policy) -> Result<Vec<Register>, AllocError>
    ensures { IfOk result (λ registers. registers.items ≡ named_registers policy.now) }
{
    let mut registers = Vec::new(alloc);
    push_registers_of_settings(&mut registers, policy.registers.as_slice())?;
    push_registers_of_inputs(&mut registers, policy.inputs.as_slice())?;
    Ok(registers)
}

fn is_among(register: Register, others: &[Register]) -> bool
    ensures { result ≡ list_any (rules.same_register register) others.now }
{
    others.iter().any(|other| same_register(register, *other))
}

fn is_once(register: Register, others: &[Register]) -> bool
    ensures { result ≡ rules.is_once register others.now }
{
    is_settable(register) && !is_among(register, others)
}

/// P5: whether each is one of the registers x1 to x31, and none stands twice.
fn are_registers(registers: &[Register]) -> bool
    ensures { result ≡ rules.are_registers registers.now }
{
    for (index, register) in registers.iter().enumerate() {
        if !is_once(*register, &registers[index + 1..]) {
            return false;
        }
    }
    true
}

/// The first of the rules P3 to P5 that fails.
#[tactic(auto, unfolding(crate::specs::Rules::value_refusal))]
pub(crate) fn value_refusal(
    alloc: Global,
    policy: &Policy,
) -> Result<Option<PolicyRefusal>, AllocError>
    ensures { IfOk result (λ refusal. refusal ≡ rules.value_refusal policy.now) }
{
    let registers = named_registers(alloc, policy)?;
    if !names_are_known(policy) {
        Ok(Some(PolicyRefusal::NoSymbol))
    } else if !numbers_are_within(policy) {
        Ok(Some(PolicyRefusal::Number))
    } else if !are_registers(&registers) {
        Ok(Some(PolicyRefusal::Register))
    } else {
        Ok(None)
    }
}
