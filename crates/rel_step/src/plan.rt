//! The step that each instruction does.

ghost use Rattle.std.specs.Prelude.{◌≡◌, ◌≢◌, ◌≤◌, true, length, IfOk};
ghost use Rattle.rv_decode.specs.Instructions.{InRange};
ghost use Rattle.rv_decode.specs.declared.instr.Instr.TheVariants as instrs;
ghost use Rattle.bv_expr.specs.Growth.{Extends, AddsNoInput};
ghost use Rattle.bv_range.specs.Remembered.{AreRight};
ghost use Rattle.rel_step.specs.Runs.{IsHere, step_nodes};
ghost use Rattle.rel_step.specs.Plans.{IsPlanned};
ghost use Rattle.rel_step.specs.Plain.{is_plain};
ghost use Rattle.rel_step.specs.declared.plan.TheConstants.{PLAIN_NODES};
ghost use Rattle.rel_step.specs.declared.simplifying.TheConstants.{MOST_PASSES};

use crate::branches::plan_branch;
use crate::here::Here;
use crate::jumps::{plan_jal, plan_jalr};
use crate::loads::plan_load;
use crate::planned::Planned;
use crate::stores::plan_store;
use crate::words::{plan_auipc, plan_fence, plan_immediate, plan_lui, plan_operation};
use bv_expr::Arena;
use bv_passes::Kit;
use bv_range::Ranges;
use rv_decode::Instr;
use std::alloc::AllocError;

/// How many nodes the step of an instruction that touches no memory adds at most.
const PLAIN_NODES: usize = 128;

// The step of an instruction that touches no memory.
fn plan_plain(
    kit: &mut Kit,
    arena: &mut Arena,
    here: &Here,
    instr: Instr,
) -> Result<Planned, AllocError>
    requires here { IsHere arena.old here.now }
    requires few { length kit.old.items ≤ MOST_PASSES }
    requires range { InRange instr }
    requires plain { is_plain instr ≡ true }
    ensures planned { IfOk result (IsPlanned arena.new here.now instr) }
    ensures extends { Extends arena.old arena.new PLAIN_NODES }
    ensures no_input { AddsNoInput arena.old arena.new }
    ensures passes { length kit.new.items ≡ length kit.old.items }
{
    let alloc = *kit.allocator();
    match instr {
        Instr::Lui { rd, imm } => {
            let planned = plan_lui(alloc, arena, here, rd, imm)?;
            Ok(planned)
        }
        Instr::Auipc { rd, imm } => {
            let planned = plan_auipc(alloc, arena, here, rd, imm)?;
            Ok(planned)
        }
        Instr::Jal { rd, offset } => {
            let planned = plan_jal(alloc, arena, here, rd, offset)?;
            Ok(planned)
        }
        Instr::Jalr { rd, rs1, offset } => {
            let planned = plan_jalr(kit, arena, here, rd, rs1, offset)?;
            Ok(planned)
        }
        Instr::Branch {
            cond,
            rs1,
            rs2,
            offset,
        } => {
            let planned = plan_branch(kit, arena, here, cond, rs1, rs2, offset)?;
            Ok(planned)
        }
        Instr::OpImm { op, rd, rs1, imm } => {
            let planned = plan_immediate(kit, arena, here, op, rd, rs1, imm)?;
            Ok(planned)
        }
        Instr::Op { op, rd, rs1, rs2 } => {
            let planned = plan_operation(kit, arena, here, op, rd, rs1, rs2)?;
            Ok(planned)
        }
        Instr::Fence { word } => {
            let planned = plan_fence(alloc, arena, here, word)?;
            Ok(planned)
        }
        Instr::Load { .. } => unreachable!(),
        Instr::Store { .. } => unreachable!(),
        Instr::Call => unreachable!(),
        Instr::Break => unreachable!(),
    }
}

/// The step that an instruction does in both runs. Nothing is put into the registers or the memory yet.
pub(crate) fn plan(
    kit: &mut Kit,
    arena: &mut Arena,
    ranges: &mut Ranges,
    here: &Here,
    instr: Instr,
) -> Result<Planned, AllocError>
    requires here { IsHere arena.old here.now }
    requires ranges { AreRight arena.old ranges.old }
    requires few { length kit.old.items ≤ MOST_PASSES }
    requires range { InRange instr }
    requires no_call { instr ≢ instrs.Call }
    requires no_break { instr ≢ instrs.Break }
    ensures planned { IfOk result (IsPlanned arena.new here.now instr) }
    ensures extends { Extends arena.old arena.new (step_nodes here.now) }
    ensures no_input { AddsNoInput arena.old arena.new }
    ensures ranges { AreRight arena.new ranges.new }
    ensures passes { length kit.new.items ≡ length kit.old.items }
{
    match instr {
        Instr::Load {
            rd,
            rs1,
            offset,
            bytes,
            signed,
        } => {
            let planned = plan_load(kit, arena, ranges, here, rd, rs1, offset, bytes, signed)?;
            Ok(planned)
        }
        Instr::Store {
            rs1,
            rs2,
            offset,
            bytes,
        } => {
            let planned = plan_store(kit, arena, ranges, here, rs1, rs2, offset, bytes)?;
            Ok(planned)
        }
        _ => {
            let planned = plan_plain(kit, arena, here, instr)?;
            Ok(planned)
        }
    }
}
