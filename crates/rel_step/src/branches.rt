//! Branches.

ghost use Rattle.std.specs.Prelude.{◌≡◌, ◌≢◌, ◌*◌, ◌+◌, ◌<◌, ◌≤◌, Bool, length, IfOk};
ghost use Rattle.ct_words.specs.Words.{flag, test_value};
ghost use Rattle.rv_decode.specs.declared.instr.Instr.TheVariants as instrs;
ghost use Rattle.bv_expr.specs.Growth.{Extends, AddsNoInput};
ghost use Rattle.rv_machine.specs.Step.{wrapped};
ghost use Rattle.rel_store.specs.Sides.{side_id, HasSides};
ghost use Rattle.rel_store.specs.declared.rel_registers.TheConstants.{REGISTERS};
ghost use Rattle.rel_step.specs.Runs.{Always, IsHere};
ghost use Rattle.rel_step.specs.Plans.{IsPlanned};
ghost use Rattle.rel_step.specs.Onward.{IsBranch};
ghost use Rattle.rel_step.specs.declared.simplifying.TheConstants.{MOST_PASSES, SIMPLE_NODES};

use crate::apart::bits_apart;
use crate::here::Here;
use crate::nexts::{fork, onward};
use crate::planned::{Moved, Planned};
use crate::simplifying::simplify_value;
use crate::stride::Stride;
use bv_expr::Arena;
use bv_passes::Kit;
use ct_words::Cond;
use rel_store::{RelValue, compare};
use std::alloc::{AllocError, Global};

// Whether a condition holds of two words, in both runs.
fn taken(
    kit: &mut Kit,
    arena: &mut Arena,
    cond: Cond,
    a: RelValue,
    b: RelValue,
) -> Result<RelValue, AllocError>
    requires left { HasSides arena.old 32 a }
    requires right { HasSides arena.old 32 b }
    requires few { length kit.old.items ≤ MOST_PASSES }
    ensures value { IfOk result (λ taken. (right : Bool) → Always arena.new (λ v. v (side_id right taken) ≡ flag (test_value cond (v (side_id right a)) (v (side_id right b))))) }
    ensures width { IfOk result (HasSides arena.new 1) }
    ensures extends { Extends arena.old arena.new (2 + 2 * SIMPLE_NODES) }
    ensures no_input { AddsNoInput arena.old arena.new }
    ensures passes { length kit.new.items ≡ length kit.old.items }
{
    let holds = compare(arena, cond, a, b)?;
    let simple = simplify_value(kit, arena, holds)?;
    Ok(simple)
}

/// The step of two runs that each go to one address where a bit is 1, and else to another.
pub(crate) fn branch_stride(
    alloc: Global,
    arena: &mut Arena,
    site: u32,
    taken: RelValue,
    yes: u32,
    no: u32,
) -> Result<Stride, AllocError>
    requires { HasSides arena.old 1 taken }
    ensures branch { IfOk result (IsBranch arena.new site taken yes no) }
    ensures extends { Extends arena.old arena.new 3 }
    ensures no_input { AddsNoInput arena.old arena.new }
{
    let left = taken.left();
    let right = taken.right();
    let leak = bits_apart(arena, left, right)?;
    let nexts = fork(alloc, arena, left, yes, no)?;
    Ok(Stride {
        site,
        sides: Some((left, right)),
        leak,
        fault: None,
        nexts,
        target: None,
    })
}

// A branch to another address than the next instruction's.
fn plan_fork(
    kit: &mut Kit,
    arena: &mut Arena,
    here: &Here,
    cond: Cond,
    rs1: u32,
    rs2: u32,
    offset: u32,
) -> Result<Planned, AllocError>
    requires here { IsHere arena.old here.now }
    requires few { length kit.old.items ≤ MOST_PASSES }
    requires rs1 { rs1 < REGISTERS }
    requires rs2 { rs2 < REGISTERS }
    requires apart { wrapped (here.now.pc + offset) ≢ wrapped (here.now.pc + 4) }
    ensures planned { IfOk result (IsPlanned arena.new here.now (instrs.Branch cond rs1 rs2 offset)) }
    ensures extends { Extends arena.old arena.new (5 + 2 * SIMPLE_NODES) }
    ensures no_input { AddsNoInput arena.old arena.new }
    ensures passes { length kit.new.items ≡ length kit.old.items }
{
    let a = here.registers.get(rs1);
    let b = here.registers.get(rs2);
    let holds = taken(kit, arena, cond, a, b)?;
    let yes = here.pc.wrapping_add(offset);
    let no = here.pc.wrapping_add(4);
    let stride = branch_stride(*kit.allocator(), arena, here.pc, holds, yes, no)?;
    Ok(Planned {
        stride,
        moved: Moved::Nothing,
    })
}

/// A branch. It has one next where it goes to the next instruction either way.
pub(crate) fn plan_branch(
    kit: &mut Kit,
    arena: &mut Arena,
    here: &Here,
    cond: Cond,
    rs1: u32,
    rs2: u32,
    offset: u32,
) -> Result<Planned, AllocError>
    requires here { IsHere arena.old here.now }
    requires few { length kit.old.items ≤ MOST_PASSES }
    requires rs1 { rs1 < REGISTERS }
    requires rs2 { rs2 < REGISTERS }
    ensures planned { IfOk result (IsPlanned arena.new here.now (instrs.Branch cond rs1 rs2 offset)) }
    ensures extends { Extends arena.old arena.new (5 + 2 * SIMPLE_NODES) }
    ensures no_input { AddsNoInput arena.old arena.new }
    ensures passes { length kit.new.items ≡ length kit.old.items }
{
    let no = here.pc.wrapping_add(4);
    if here.pc.wrapping_add(offset) == no {
        let stride = onward(*kit.allocator(), arena, here.pc, no)?;
        return Ok(Planned {
            stride,
            moved: Moved::Nothing,
        });
    }
    let planned = plan_fork(kit, arena, here, cond, rs1, rs2, offset)?;
    Ok(planned)
}
