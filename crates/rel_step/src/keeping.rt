//! What is kept of a planned step.

ghost use Rattle.std.specs.Prelude.{◌≡◌, ◌≢◌, ◌≤◌, ◌+◌, ℕ, Bool, length, IfOk, IfSome};
ghost use Rattle.rv_decode.specs.Instructions.{InRange};
ghost use Rattle.rv_decode.specs.declared.instr.Instr.TheVariants as instrs;
ghost use Rattle.bv_range.specs.Remembered.{AreRight};
ghost use Rattle.rel_step.specs.Runs.{IsHere, step_nodes};
ghost use Rattle.rel_step.specs.Finding.{IsStepOf};
ghost use Rattle.rel_step.specs.declared.simplifying.TheConstants.{MOST_PASSES};
ghost use Rattle.bv_expr.specs.Nodes.{HasWidth};
ghost use Rattle.bv_expr.specs.Growth.{Extends, AddsNoInput};
ghost use Rattle.rv_machine.specs.Step.{Transition};
ghost use Rattle.rel_step.specs.Keeping.{IsKept, TellsLeak, TellsSame};

use crate::here::Here;
use crate::last::Last;
use crate::plan::plan;
use crate::planned::Planned;
use crate::stride::Stride;
use bv_expr::{Arena, ExprId};
use bv_passes::Kit;
use bv_range::Ranges;
use rv_decode::Instr;
use std::alloc::{AllocError, Global};

/// Whether both runs show the same, from whether they show different things.
fn equal_of(arena: &mut Arena, leak: Option<ExprId>) -> Result<Option<ExprId>, AllocError>
    requires bit { IfSome leak (λ id. HasWidth arena.old id.0 1) }
    ensures tells { IfOk result (λ equal. (runs : (ℕ → ℕ) → Bool → Transition) → TellsLeak arena.old runs leak → TellsSame arena.new runs equal) }
    ensures extends { Extends arena.old arena.new 1 }
    ensures no_input { AddsNoInput arena.old arena.new }
{
    match leak {
        None => Ok(None),
        Some(leak) => {
            let equal = arena.not(leak)?;
            Ok(Some(equal))
        }
    }
}

/// The stride of a planned step, and what is kept of it.
fn keep(alloc: Global, arena: &mut Arena, planned: Planned) -> Result<(Stride, Last), AllocError>
    requires bit { IfSome planned.stride.leak (λ id. HasWidth arena.old id.0 1) }
    ensures kept { IfOk result (λ both. IsKept planned both.0 both.1) }
    ensures tells { IfOk result (λ both. (runs : (ℕ → ℕ) → Bool → Transition) → TellsLeak arena.old runs planned.stride.leak → TellsSame arena.new runs both.1.equal) }
    ensures extends { Extends arena.old arena.new 1 }
    ensures no_input { AddsNoInput arena.old arena.new }
{
    let Planned { stride, moved } = planned;
    let equal = equal_of(arena, stride.leak)?;
    let nexts = stride.nexts.copy(alloc)?;
    let last = Last {
        equal,
        nexts,
        target: stride.target,
        moved,
    };
    Ok((stride, last))
}

/// The stride of an instruction, and what is kept of it.
pub(crate) fn find_step(
    alloc: Global,
    kit: &mut Kit,
    arena: &mut Arena,
    ranges: &mut Ranges,
    here: &Here,
    instr: Instr,
) -> Result<(Stride, Last), AllocError>
    requires here { IsHere arena.old here.now }
    requires ranges { AreRight arena.old ranges.old }
    requires few { length kit.old.items ≤ MOST_PASSES }
    requires range { InRange instr }
    requires no_call { instr ≢ instrs.Call }
    requires no_break { instr ≢ instrs.Break }
    ensures found { IfOk result (λ both. IsStepOf arena.new here.now instr both.0 both.1) }
    ensures extends { Extends arena.old arena.new (step_nodes here.now + 1) }
    ensures no_input { AddsNoInput arena.old arena.new }
    ensures ranges { AreRight arena.new ranges.new }
    ensures passes { length kit.new.items ≡ length kit.old.items }
{
    let planned = plan(kit, arena, ranges, here, instr)?;
    let both = keep(alloc, arena, planned)?;
    Ok(both)
}
