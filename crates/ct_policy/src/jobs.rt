//! The job of a policy.
ghost use Rattle.std.specs.Prelude.{◌≡◌, ◌≢◌, ◌≤◌, ◌+◌, ◌^◌, ◌++◌, All, Some, None, true, false, find, map, IfOk, IfErr, OnOk, unwrap_or};
ghost use Rattle.std.specs.List.{flat_map};
ghost use Rattle.std.specs.Option.{option_copied};
ghost use Rattle.elf_load.specs.Layout.{FitsMemory, segment_extents};
ghost use Rattle.rv_image.specs.Loading.{cells_of};
ghost use Rattle.ct_document.specs.declared.refusal.PolicyRefusal.TheVariants.{Memory, Entry};
ghost use Rattle.ct_policy.specs.Job.{IsJobOf};
ghost use Rattle.ct_policy.specs.Limits.{AreOptions, EndsInMemory};
ghost use Rattle.ct_policy.specs.Numbers.{word_of, address_word};
ghost use Rattle.ct_policy.specs.Policy.{is_register, set_value, register_values, extra_spans, input_region, register_bytes, memory_bytes, input_bytes, all_input_bytes};
ghost use Rattle.ct_policy.specs.Rules.{value_refusal, memory_refusal, can_start};

use crate::addresses::address_word;
use crate::images::startable_image;
use crate::memory::memory_span;
use crate::numbers::word_of;
use crate::options::Options;
use crate::registers::{is_register, register_number};
use ct_document::{Address, Input, Policy, PolicyRefusal, Setting};
use ct_pairs::{InputByte, Job, Place};
use ct_rows::Row;
use elf_load::Elf;
use rv_image::Span;
use std::alloc::{AllocError, Global};

fn words(alloc: Global, addresses: &[Address]) -> Result<Vec<u32>, AllocError>
    ensures { IfOk result (λ words. words.items ≡ map address_word addresses.now) }
{
    addresses
        .iter()
        .map(|address| address_word(*address))
        .collect(alloc)
}

fn setting_of(settings: &[Setting], number: u32) -> Option<&Setting>
    ensures { option_copied result ≡ find (λ setting. is_register number setting.register) settings.now }
{
    settings
        .iter()
        .find(|setting| is_register(setting.register, number))
}

#[tactic(auto, unfolding(crate::specs::Policy::set_value))]
fn set_value(settings: &[Setting], number: u32) -> u32
    ensures { result ≡ set_value settings.now number }
{
    match setting_of(settings, number) {
        Some(setting) => address_word(setting.value),
        None => 0,
    }
}

/// The values of the registers x0 to x31.
#[tactic(auto, unfolding(crate::specs::Policy::register_values))]
fn register_values(alloc: Global, settings: &[Setting]) -> Result<Vec<u32>, AllocError>
    ensures { IfOk result (λ values. values.items ≡ register_values settings.now) }
{
    (0..32)
        .map(|number| set_value(settings, number))
        .collect(alloc)
}

/// The memory beside the segments.
#[tactic(auto, unfolding(crate::specs::Policy::extra_spans))]
fn extra_spans(alloc: Global, policy: &Policy) -> Result<Vec<Span>, AllocError>
    ensures { IfOk result (λ spans. spans.items ≡ extra_spans policy.now) }
{
    policy
        .memory
        .as_slice()
        .iter()
        .map(|entry| memory_span(*entry))
        .collect(alloc)
}

fn push_register_bytes(
    all: &mut Vec<InputByte>,
    reg: u32,
    bytes: u32,
    secret: bool,
) -> Result<(), AllocError>
    ensures { OnOk result (all.new.items ≡ all.old.items ++ register_bytes reg bytes secret) }
{
    for byte in 0..bytes {
        all.push(InputByte {
            place: Place::Register { reg, byte },
            secret,
        })?;
    }
    Ok(())
}

fn push_memory_bytes(
    all: &mut Vec<InputByte>,
    start: u64,
    length: u32,
    secret: bool,
) -> Result<(), AllocError>
    requires { start + length ≤ 2 ^ 32 }
    ensures { OnOk result (all.new.items ≡ all.old.items ++ memory_bytes start length secret) }
{
    for distance in 0..length {
        let address = start + u64::from(distance);
        all.push(InputByte {
            place: Place::Memory {
                address: address as u32,
            },
            secret,
        })?;
    }
    Ok(())
}

#[tactic(auto, unfolding(crate::specs::Policy::input_bytes))]
fn push_input(all: &mut Vec<InputByte>, input: Input) -> Result<(), AllocError>
    requires { EndsInMemory (input_region input) }
    ensures { OnOk result (all.new.items ≡ all.old.items ++ input_bytes input) }
{
    match input {
        Input::Register {
            register,
            bytes,
            kind,
        } => push_register_bytes(
            all,
            register_number(register),
            word_of(bytes),
            kind.is_secret(),
        ),
        Input::Memory {
            at,
            offset,
            length,
            kind,
        } => {
            let start = u64::from(address_word(at)) + u64::from(word_of(offset));
            push_memory_bytes(all, start, word_of(length), kind.is_secret())
        }
    }
}

/// The bytes of all inputs.
fn all_input_bytes(alloc: Global, inputs: &[Input]) -> Result<Vec<InputByte>, AllocError>
    requires { All (λ input. EndsInMemory (input_region input)) inputs.now }
    ensures { IfOk result (λ all. all.items ≡ flat_map input_bytes inputs.now) }
{
    let mut all = Vec::new(alloc);
    for input in inputs {
        push_input(&mut all, *input)?;
    }
    Ok(all)
}

fn bound_of(policy: &Policy, options: &Options) -> u32
    ensures { result ≡ unwrap_or options.now.bound (word_of policy.now.bound) }
{
    match options.bound {
        Some(bound) => bound,
        None => word_of(policy.bound),
    }
}

/// The job of a policy that meets the rules P1 to P9.
pub(crate) fn job_of(
    alloc: Global,
    elf: &Elf,
    policy: &Policy,
    options: &Options,
) -> Result<Job, PolicyRefusal>
    requires fits { FitsMemory (segment_extents elf.now) }
    requires options { AreOptions options.now }
    requires values { value_refusal policy.now ≡ None }
    requires memory { memory_refusal elf.now policy.now ≡ None }
    ensures job { IfOk result (λ job. (can_start elf.now policy.now ≡ true) × IsJobOf elf.now options.now policy.now job) }
    ensures refused { IfErr result
        (λ refusal. refusal ≢ Memory → (refusal ≡ Entry) × (can_start elf.now policy.now ≡ false)) }
{
    let spans = extra_spans(alloc, policy)?;
    let entry = address_word(policy.entry);
    let image = startable_image(alloc, elf, &spans, entry)?;
    let stops = words(alloc, policy.stops.as_slice())?;
    let registers = register_values(alloc, policy.registers.as_slice())?;
    let inputs = all_input_bytes(alloc, policy.inputs.as_slice())?;
    Ok(Job {
        image,
        entry,
        stops: Row::from_vec(stops),
        registers: Row::from_vec(registers),
        inputs: Row::from_vec(inputs),
        bound: bound_of(policy, options),
        budget: options.budget,
        targets: options.targets,
    })
}
