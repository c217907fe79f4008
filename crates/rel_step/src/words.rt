//! Instructions that give a register a word: operations, and constants.

ghost use Rattle.std.specs.Prelude.{◌≡◌, ◌*◌, ◌+◌, ◌<◌, ◌≤◌, length, IfOk};
ghost use Rattle.ct_words.specs.Words.{alu_value};
ghost use Rattle.rv_decode.specs.declared.instr.Instr.TheVariants as instrs;
ghost use Rattle.bv_expr.specs.Growth.{Extends, AddsNoInput};
ghost use Rattle.rel_store.specs.Sides.{side_id, HasSides};
ghost use Rattle.rel_store.specs.declared.rel_registers.TheConstants.{REGISTERS};
ghost use Rattle.rel_step.specs.Runs.{IsHere};
ghost use Rattle.rel_step.specs.Plans.{IsPlanned};
ghost use Rattle.rel_step.specs.Onward.{Puts};
ghost use Rattle.rel_step.specs.declared.simplifying.TheConstants.{MOST_PASSES, SIMPLE_NODES};

use crate::here::Here;
use crate::nexts::onward;
use crate::planned::{Moved, Planned};
use crate::simplifying::simplify_value;
use bv_expr::{Arena, WORD};
use bv_passes::Kit;
use ct_words::AluOp;
use rel_store::{RelValue, operate};
use std::alloc::{AllocError, Global};

/// The change that puts a number into a register. Adds nothing for x0.
pub(crate) fn put_number(arena: &mut Arena, rd: u32, number: u32) -> Result<Moved, AllocError>
    requires { rd < REGISTERS }
    ensures puts { IfOk result (Puts arena.new rd (λ v right. number)) }
    ensures extends { Extends arena.old arena.new 1 }
    ensures no_input { AddsNoInput arena.old arena.new }
{
    if rd == 0 {
        return Ok(Moved::Nothing);
    }
    let word = arena.constant(WORD, number)?;
    Ok(Moved::Register {
        rd,
        given: RelValue::Same(word),
    })
}

// The change that puts the result of an operation into a register. Adds nothing for x0.
fn put_operation(
    kit: &mut Kit,
    arena: &mut Arena,
    op: AluOp,
    rd: u32,
    a: RelValue,
    b: RelValue,
) -> Result<Moved, AllocError>
    requires register { rd < REGISTERS }
    requires left { HasSides arena.old 32 a }
    requires right { HasSides arena.old 32 b }
    requires few { length kit.old.items ≤ MOST_PASSES }
    ensures puts { IfOk result (Puts arena.new rd (λ v right. alu_value op (v (side_id right a)) (v (side_id right b)))) }
    ensures extends { Extends arena.old arena.new (2 + 2 * SIMPLE_NODES) }
    ensures no_input { AddsNoInput arena.old arena.new }
    ensures passes { length kit.new.items ≡ length kit.old.items }
{
    if rd == 0 {
        return Ok(Moved::Nothing);
    }
    let word = operate(arena, op, a, b)?;
    let given = simplify_value(kit, arena, word)?;
    Ok(Moved::Register { rd, given })
}

// The change that puts the result of an operation with a number into a register. Adds nothing for x0.
fn put_immediate(
    kit: &mut Kit,
    arena: &mut Arena,
    op: AluOp,
    rd: u32,
    a: RelValue,
    number: u32,
) -> Result<Moved, AllocError>
    requires register { rd < REGISTERS }
    requires left { HasSides arena.old 32 a }
    requires few { length kit.old.items ≤ MOST_PASSES }
    ensures puts { IfOk result (Puts arena.new rd (λ v right. alu_value op (v (side_id right a)) number)) }
    ensures extends { Extends arena.old arena.new (3 + 2 * SIMPLE_NODES) }
    ensures no_input { AddsNoInput arena.old arena.new }
    ensures passes { length kit.new.items ≡ length kit.old.items }
{
    if rd == 0 {
        return Ok(Moved::Nothing);
    }
    let word = arena.constant(WORD, number)?;
    let moved = put_operation(kit, arena, op, rd, a, RelValue::Same(word))?;
    Ok(moved)
}

/// LUI.
pub(crate) fn plan_lui(
    alloc: Global,
    arena: &mut Arena,
    here: &Here,
    rd: u32,
    imm: u32,
) -> Result<Planned, AllocError>
    requires { rd < REGISTERS }
    ensures planned { IfOk result (IsPlanned arena.new here.now (instrs.Lui rd imm)) }
    ensures extends { Extends arena.old arena.new 2 }
    ensures no_input { AddsNoInput arena.old arena.new }
{
    let moved = put_number(arena, rd, imm)?;
    let next = here.pc.wrapping_add(4);
    let stride = onward(alloc, arena, here.pc, next)?;
    Ok(Planned { stride, moved })
}

/// AUIPC.
pub(crate) fn plan_auipc(
    alloc: Global,
    arena: &mut Arena,
    here: &Here,
    rd: u32,
    imm: u32,
) -> Result<Planned, AllocError>
    requires { rd < REGISTERS }
    ensures planned { IfOk result (IsPlanned arena.new here.now (instrs.Auipc rd imm)) }
    ensures extends { Extends arena.old arena.new 2 }
    ensures no_input { AddsNoInput arena.old arena.new }
{
    let moved = put_number(arena, rd, here.pc.wrapping_add(imm))?;
    let next = here.pc.wrapping_add(4);
    let stride = onward(alloc, arena, here.pc, next)?;
    Ok(Planned { stride, moved })
}

/// FENCE, which changes nothing.
pub(crate) fn plan_fence(
    alloc: Global,
    arena: &mut Arena,
    here: &Here,
    word: u32,
) -> Result<Planned, AllocError>
    ensures planned { IfOk result (IsPlanned arena.new here.now (instrs.Fence word)) }
    ensures extends { Extends arena.old arena.new 1 }
    ensures no_input { AddsNoInput arena.old arena.new }
{
    let _word = word;
    let next = here.pc.wrapping_add(4);
    let stride = onward(alloc, arena, here.pc, next)?;
    Ok(Planned {
        stride,
        moved: Moved::Nothing,
    })
}

/// An operation on a register and an immediate.
pub(crate) fn plan_immediate(
    kit: &mut Kit,
    arena: &mut Arena,
    here: &Here,
    op: AluOp,
    rd: u32,
    rs1: u32,
    imm: u32,
) -> Result<Planned, AllocError>
    requires here { IsHere arena.old here.now }
    requires few { length kit.old.items ≤ MOST_PASSES }
    requires rd { rd < REGISTERS }
    requires rs1 { rs1 < REGISTERS }
    ensures planned { IfOk result (IsPlanned arena.new here.now (instrs.OpImm op rd rs1 imm)) }
    ensures extends { Extends arena.old arena.new (4 + 2 * SIMPLE_NODES) }
    ensures no_input { AddsNoInput arena.old arena.new }
    ensures passes { length kit.new.items ≡ length kit.old.items }
{
    let from = here.registers.get(rs1);
    let moved = put_immediate(kit, arena, op, rd, from, imm)?;
    let next = here.pc.wrapping_add(4);
    let stride = onward(*kit.allocator(), arena, here.pc, next)?;
    Ok(Planned { stride, moved })
}

/// An operation on two registers.
pub(crate) fn plan_operation(
    kit: &mut Kit,
    arena: &mut Arena,
    here: &Here,
    op: AluOp,
    rd: u32,
    rs1: u32,
    rs2: u32,
) -> Result<Planned, AllocError>
    requires here { IsHere arena.old here.now }
    requires few { length kit.old.items ≤ MOST_PASSES }
    requires rd { rd < REGISTERS }
    requires rs1 { rs1 < REGISTERS }
    requires rs2 { rs2 < REGISTERS }
    ensures planned { IfOk result (IsPlanned arena.new here.now (instrs.Op op rd rs1 rs2)) }
    ensures extends { Extends arena.old arena.new (3 + 2 * SIMPLE_NODES) }
    ensures no_input { AddsNoInput arena.old arena.new }
    ensures passes { length kit.new.items ≡ length kit.old.items }
{
    let left = here.registers.get(rs1);
    let right = here.registers.get(rs2);
    let moved = put_operation(kit, arena, op, rd, left, right)?;
    let next = here.pc.wrapping_add(4);
    let stride = onward(*kit.allocator(), arena, here.pc, next)?;
    Ok(Planned { stride, moved })
}
