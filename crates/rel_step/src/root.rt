//! Where two runs start.

ghost use Rattle.std.specs.Prelude.{◌≡◌, ◌==◌, ℕ, ◌<◌, [], IfOk, OnOk, length, slice_index, slice_set, ◌+◌, if◌then◌else◌};
ghost use Rattle.bv_expr.specs.Growth.{Extends, AddsNoInput};
ghost use Rattle.rel_step.specs.Placing.{AreSet, IsStarted};

use crate::here::Here;
use crate::placing::{hold, place};
use bv_expr::{Arena, WORD};
use ct_pairs::{InputByte, Job};
use rel_memory::RelMemory;
use rel_store::{RelRegisters, RelValue};
use std::alloc::{AllocError, Global};

/// Gives a register a number in both runs.
fn set_number(
    arena: &mut Arena,
    registers: &mut RelRegisters,
    reg: u32,
    value: u32,
) -> Result<(), AllocError>
    requires some { 0 < reg }
    requires reg { reg < 32 }
    ensures set { OnOk result ((values : ℕ → ℕ) → AreSet arena.old values registers.old → AreSet arena.new (λ k. if k == reg then value else values k) registers.new) }
    ensures no_input { AddsNoInput arena.old arena.new }
{
    let word = arena.constant(WORD, value)?;
    registers.set(reg, RelValue::Same(word));
    Ok(())
}

/// The registers of the job, with x0 as 0.
fn first_registers(alloc: Global, arena: &mut Arena, job: &Job) -> Result<RelRegisters, AllocError>
    ensures set { IfOk result (λ registers. AreSet arena.new (slice_index (slice_set job.now.registers 0 0)) registers) }
    ensures no_input { AddsNoInput arena.old arena.new }
{
    let zero = arena.constant(WORD, 0)?;
    let mut registers = RelRegisters::new(alloc, zero)?;
    for reg in 1..32 {
        let value = job.registers.as_slice()[reg as usize];
        set_number(arena, &mut registers, reg, value)?;
    }
    Ok(registers)
}

fn entry_of(job: &Job) -> u32
    ensures { result ≡ job.now.entry }
{
    job.entry
}

/// Both runs at the entry, with no input byte in its place.
fn unplaced(alloc: Global, arena: &mut Arena, job: &Job) -> Result<Here, AllocError>
    requires { arena.old ≡ [] }
    ensures { IfOk result (IsStarted job.now 0 arena.new) }
{
    let registers = first_registers(alloc, arena, job)?;
    let memory = RelMemory::new(alloc, &job.image)?;
    let _size = job.image.size();
    let pc = entry_of(job);
    Ok(Here {
        pc,
        registers,
        memory,
    })
}

/// Puts one input byte in its place, where `count` are in theirs.
fn place_next(arena: &mut Arena, here: &mut Here, job: &Job, count: usize) -> Result<(), AllocError>
    requires inside { count < length job.now.inputs }
    requires started { IsStarted job.now count arena.old here.old }
    ensures { OnOk result (IsStarted job.now (count + 1) arena.new here.new) }
{
    let input = job.inputs.as_slice()[count];
    let held = hold(arena, 2 * count, input.secret)?;
    place(arena, here, input.place, held)?;
    Ok(())
}

/// Both runs at the start, with each input byte in its place.
pub(crate) fn started(alloc: Global, arena: &mut Arena, job: &Job) -> Result<Here, AllocError>
    requires { arena.old ≡ [] }
    ensures { IfOk result (IsStarted job.now (length job.now.inputs) arena.new) }
{
    let mut here = unplaced(alloc, arena, job)?;
    for count in 0..job.inputs.len() {
        place_next(arena, &mut here, job, count)?;
    }
    Ok(here)
}
