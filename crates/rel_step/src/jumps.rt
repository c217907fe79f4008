//! Jumps.

ghost use Rattle.std.specs.Prelude.{◌≡◌, ◌*◌, ◌+◌, ◌<◌, ◌≤◌, Bool, length, IfOk};
ghost use Rattle.rv_decode.specs.declared.instr.Instr.TheVariants as instrs;
ghost use Rattle.rv_machine.specs.Step.{wrapped, even};
ghost use Rattle.bv_expr.specs.Growth.{Extends, AddsNoInput};
ghost use Rattle.rel_store.specs.Sides.{side_id, HasSides};
ghost use Rattle.rel_store.specs.declared.rel_registers.TheConstants.{REGISTERS};
ghost use Rattle.rel_step.specs.Runs.{Always, IsHere};
ghost use Rattle.rel_step.specs.Plans.{IsPlanned};
ghost use Rattle.rel_step.specs.Onward.{IsJump};
ghost use Rattle.rel_step.specs.declared.simplifying.TheConstants.{MOST_PASSES, SIMPLE_NODES};

use crate::apart::words_apart;
use crate::here::Here;
use crate::nexts::{only, onward};
use crate::planned::Planned;
use crate::simplifying::simplify_value;
use crate::stride::Stride;
use crate::words::put_number;
use bv_expr::{Arena, QNode, WORD};
use bv_passes::Kit;
use ct_rows::Row;
use ct_words::AluOp;
use rel_store::{RelValue, operate};
use std::alloc::{AllocError, Global};

/// JAL: both runs go to one address.
pub(crate) fn plan_jal(
    alloc: Global,
    arena: &mut Arena,
    here: &Here,
    rd: u32,
    offset: u32,
) -> Result<Planned, AllocError>
    requires { rd < REGISTERS }
    ensures planned { IfOk result (IsPlanned arena.new here.now (instrs.Jal rd offset)) }
    ensures extends { Extends arena.old arena.new 2 }
    ensures no_input { AddsNoInput arena.old arena.new }
{
    let moved = put_number(arena, rd, here.pc.wrapping_add(4))?;
    let next = here.pc.wrapping_add(offset);
    let stride = onward(alloc, arena, here.pc, next)?;
    Ok(Planned { stride, moved })
}

// The sum of a word and a number, with bit 0 cleared, in both runs.
fn target_of(
    kit: &mut Kit,
    arena: &mut Arena,
    from: RelValue,
    offset: u32,
) -> Result<RelValue, AllocError>
    requires from { HasSides arena.old 32 from }
    requires few { length kit.old.items ≤ MOST_PASSES }
    ensures value { IfOk result (λ target. (right : Bool) → Always arena.new (λ v. v (side_id right target) ≡ even (wrapped (v (side_id right from) + offset)))) }
    ensures width { IfOk result (HasSides arena.new 32) }
    ensures extends { Extends arena.old arena.new (6 + 2 * SIMPLE_NODES) }
    ensures no_input { AddsNoInput arena.old arena.new }
    ensures passes { length kit.new.items ≡ length kit.old.items }
{
    let by = arena.constant(WORD, offset)?;
    let sum = operate(arena, AluOp::Add, from, RelValue::Same(by))?;
    let mask = arena.constant(WORD, 0xffff_fffe)?;
    let target = operate(arena, AluOp::And, sum, RelValue::Same(mask))?;
    let simple = simplify_value(kit, arena, target)?;
    Ok(simple)
}

/// The step of two runs that each go where an expression says.
pub(crate) fn jump_stride(
    alloc: Global,
    arena: &mut Arena,
    site: u32,
    target: RelValue,
) -> Result<Stride, AllocError>
    requires { HasSides arena.old 32 target }
    ensures jump { IfOk result (IsJump arena.new site target) }
    ensures extends { Extends arena.old arena.new 2 }
    ensures no_input { AddsNoInput arena.old arena.new }
{
    let left = target.left();
    let right = target.right();
    let leak = words_apart(arena, left, right)?;
    match arena.node(left) {
        QNode::Constant { value, .. } => {
            let nexts = only(alloc, arena, value)?;
            Ok(Stride {
                site,
                sides: Some((left, right)),
                leak,
                fault: None,
                nexts,
                target: None,
            })
        }
        _ => Ok(Stride {
            site,
            sides: Some((left, right)),
            leak,
            fault: None,
            nexts: Row::from_vec(Vec::new(alloc)),
            target: Some(left),
        }),
    }
}

/// JALR: each run goes where its register and an offset say.
pub(crate) fn plan_jalr(
    kit: &mut Kit,
    arena: &mut Arena,
    here: &Here,
    rd: u32,
    rs1: u32,
    offset: u32,
) -> Result<Planned, AllocError>
    requires here { IsHere arena.old here.now }
    requires few { length kit.old.items ≤ MOST_PASSES }
    requires rd { rd < REGISTERS }
    requires rs1 { rs1 < REGISTERS }
    ensures planned { IfOk result (IsPlanned arena.new here.now (instrs.Jalr rd rs1 offset)) }
    ensures extends { Extends arena.old arena.new (9 + 2 * SIMPLE_NODES) }
    ensures no_input { AddsNoInput arena.old arena.new }
    ensures passes { length kit.new.items ≡ length kit.old.items }
{
    let from = here.registers.get(rs1);
    let moved = put_number(arena, rd, here.pc.wrapping_add(4))?;
    let target = target_of(kit, arena, from, offset)?;
    let stride = jump_stride(*kit.allocator(), arena, here.pc, target)?;
    Ok(Planned { stride, moved })
}
