//! Addresses of loads and stores.

ghost use Rattle.std.specs.Prelude.{◌≡◌, ◌*◌, ◌+◌, ◌<◌, ◌≤◌, Bool, IsTrue, length, IfOk};
ghost use Rattle.ct_words.specs.Words.{IsAccessSize};
ghost use Rattle.rv_machine.specs.Step.{wrapped};
ghost use Rattle.bv_expr.specs.Nodes.{HasWidth};
ghost use Rattle.bv_expr.specs.Growth.{Extends, AddsNoInput};
ghost use Rattle.bv_range.specs.Remembered.{AreRight};
ghost use Rattle.rel_store.specs.Sides.{side_id, HasSides};
ghost use Rattle.rel_store.specs.declared.rel_registers.TheConstants.{REGISTERS};
ghost use Rattle.rel_memory.specs.declared.rel_memory.TheConstants.{READ_NODES};
ghost use Rattle.rel_step.specs.Runs.{Always, IsHere};
ghost use Rattle.rel_step.specs.Accesses.{IsReach, TellsRefused, IsAccess};
ghost use Rattle.rel_step.specs.declared.simplifying.TheConstants.{MOST_PASSES, SIMPLE_NODES};

use crate::apart::words_apart;
use crate::here::Here;
use crate::simplifying::{simplify, simplify_value};
use crate::stride::{NextIf, Stride};
use bv_expr::{Arena, ExprId, QNode, WORD};
use bv_passes::Kit;
use bv_range::Ranges;
use ct_rows::Row;
use ct_words::AluOp;
use rel_store::{RelValue, operate};
use rv_image::Right;
use std::alloc::{AllocError, Global};

/// Where an access of memory goes in both runs, and whether the left run's is allowed: one bit.
#[derive(Clone, Copy, Debug)]
pub(crate) struct Reach {
    pub address: RelValue,
    pub allowed: ExprId,
}

/// The address some bytes above another one: at 2^32 it begins again with 0.
pub(crate) fn above(
    kit: &mut Kit,
    arena: &mut Arena,
    from: ExprId,
    by: u32,
) -> Result<ExprId, AllocError>
    requires from { HasWidth arena.old from.0 32 }
    requires few { length kit.old.items ≤ MOST_PASSES }
    ensures value { IfOk result (λ id. Always arena.new (λ v. v id.0 ≡ wrapped (v from.0 + by))) }
    ensures width { IfOk result (λ id. HasWidth arena.new id.0 32) }
    ensures extends { Extends arena.old arena.new (2 + SIMPLE_NODES) }
    ensures no_input { AddsNoInput arena.old arena.new }
    ensures passes { length kit.new.items ≡ length kit.old.items }
{
    if by == 0 {
        arena.law();
        return Ok(from);
    }
    let more = arena.constant(WORD, by)?;
    let sum = arena.alu(AluOp::Add, from, more)?;
    let simple = simplify(kit, arena, sum)?;
    Ok(simple)
}

// The sum of a word and an offset in both runs.
fn named(
    kit: &mut Kit,
    arena: &mut Arena,
    from: RelValue,
    offset: u32,
) -> Result<RelValue, AllocError>
    requires from { HasSides arena.old 32 from }
    requires few { length kit.old.items ≤ MOST_PASSES }
    ensures value { IfOk result (λ sum. (right : Bool) → Always arena.new (λ v. v (side_id right sum) ≡ wrapped (v (side_id right from) + offset))) }
    ensures width { IfOk result (HasSides arena.new 32) }
    ensures extends { Extends arena.old arena.new (3 + 2 * SIMPLE_NODES) }
    ensures no_input { AddsNoInput arena.old arena.new }
    ensures passes { length kit.new.items ≡ length kit.old.items }
{
    let by = arena.constant(WORD, offset)?;
    let sum = operate(arena, AluOp::Add, from, RelValue::Same(by))?;
    let simple = simplify_value(kit, arena, sum)?;
    Ok(simple)
}

/// Where some bytes lie that a register and an offset name, and whether they may be touched.
pub(crate) fn reach_of(
    kit: &mut Kit,
    arena: &mut Arena,
    ranges: &mut Ranges,
    here: &Here,
    kind: Right,
    rs1: u32,
    offset: u32,
    bytes: u32,
) -> Result<Reach, AllocError>
    requires here { IsHere arena.old here.now }
    requires ranges { AreRight arena.old ranges.old }
    requires few { length kit.old.items ≤ MOST_PASSES }
    requires rs1 { rs1 < REGISTERS }
    requires size { IsAccessSize bytes }
    ensures reach { IfOk result (IsReach arena.new here.now kind rs1 offset bytes) }
    ensures extends { Extends arena.old arena.new (3 + 2 * SIMPLE_NODES + 4 * (READ_NODES + 4 * length here.now.memory.image)) }
    ensures no_input { AddsNoInput arena.old arena.new }
    ensures ranges { AreRight arena.new ranges.new }
    ensures passes { length kit.new.items ≡ length kit.old.items }
{
    let from = here.registers.get(rs1);
    let address = named(kit, arena, from, offset)?;
    let left = address.left();
    let allowed = here.memory.allowed(arena, ranges, left, bytes, kind)?;
    Ok(Reach { address, allowed })
}

// Whether an expression is the number 1.
fn is_one(arena: &Arena, bit: ExprId) -> bool
    requires { bit.0 < length arena.now }
    ensures { IsTrue result → Always arena.now (λ v. v bit.0 ≡ 1) }
{
    match arena.node(bit) {
        QNode::Constant { value, .. } => value == 1,
        _ => false,
    }
}

// Whether a bit is 0. None where it is always 1.
fn refused(arena: &mut Arena, allowed: ExprId) -> Result<Option<ExprId>, AllocError>
    requires { HasWidth arena.old allowed.0 1 }
    ensures refused { IfOk result (TellsRefused arena.new allowed) }
    ensures extends { Extends arena.old arena.new 1 }
    ensures no_input { AddsNoInput arena.old arena.new }
{
    if is_one(arena, allowed) {
        return Ok(None);
    }
    let zero = arena.not(allowed)?;
    Ok(Some(zero))
}

/// The step of two runs that touch memory and go on to the next instruction, or are refused.
pub(crate) fn access(
    alloc: Global,
    arena: &mut Arena,
    site: u32,
    reach: Reach,
) -> Result<Stride, AllocError>
    requires address { HasSides arena.old 32 reach.address }
    requires allowed { HasWidth arena.old reach.allowed.0 1 }
    ensures access { IfOk result (IsAccess arena.new site (wrapped (site + 4)) reach) }
    ensures extends { Extends arena.old arena.new 2 }
    ensures no_input { AddsNoInput arena.old arena.new }
{
    let left = reach.address.left();
    let right = reach.address.right();
    let leak = words_apart(arena, left, right)?;
    let fault = refused(arena, reach.allowed)?;
    let next = site.wrapping_add(4);
    let when = reach.allowed;
    let nexts = vec![in alloc; NextIf { next, when }]?;
    Ok(Stride {
        site,
        sides: Some((left, right)),
        leak,
        fault,
        nexts: Row::from_vec(nexts),
        target: None,
    })
}
