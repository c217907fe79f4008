//! Stores.

ghost use Rattle.std.specs.Prelude.{◌≡◌, ℕ, ◌*◌, ◌+◌, ◌<◌, ◌≤◌, Bool, length, IfOk};
ghost use Rattle.ct_words.specs.Words.{IsAccessSize};
ghost use Rattle.rv_decode.specs.declared.instr.Instr.TheVariants as instrs;
ghost use Rattle.bv_expr.specs.Nodes.{HasWidth, byte_at};
ghost use Rattle.bv_expr.specs.Growth.{Extends, AddsNoInput};
ghost use Rattle.bv_range.specs.Remembered.{AreRight};
ghost use Rattle.rel_store.specs.Sides.{side_id, HasSides};
ghost use Rattle.rel_store.specs.declared.rel_registers.TheConstants.{REGISTERS};
ghost use Rattle.rel_step.specs.Runs.{Always, IsHere, step_nodes};
ghost use Rattle.rel_step.specs.Plans.{IsPlanned};
ghost use Rattle.rel_step.specs.Accesses.{IsByteWritten, AreBytesWritten};
ghost use Rattle.rel_step.specs.declared.simplifying.TheConstants.{MOST_PASSES, SIMPLE_NODES};
ghost use Rattle.rel_step.specs.declared.stores.TheConstants.{WRITE_NODES};

use crate::addresses::{above, access, reach_of};
use crate::here::Here;
use crate::planned::{Moved, Planned};
use crate::simplifying::simplify_value;
use bv_expr::{Arena, ExprId};
use bv_passes::Kit;
use bv_range::Ranges;
use rel_memory::Written;
use rel_store::RelValue;
use rv_image::Right;
use std::alloc::{AllocError, Global};

/// How many nodes the store of a byte adds at most.
const WRITE_NODES: usize = 100;

// A byte of a word in both runs, by its place from 0, the least byte, to 3.
fn byte_to_store(
    kit: &mut Kit,
    arena: &mut Arena,
    word: RelValue,
    k: u32,
) -> Result<RelValue, AllocError>
    requires word { HasSides arena.old 32 word }
    requires place { k < 4 }
    requires few { length kit.old.items ≤ MOST_PASSES }
    ensures value { IfOk result (λ byte. (right : Bool) → Always arena.new (λ v. v (side_id right byte) ≡ byte_at (v (side_id right word)) k)) }
    ensures width { IfOk result (HasSides arena.new 8) }
    ensures extends { Extends arena.old arena.new (2 + 2 * SIMPLE_NODES) }
    ensures no_input { AddsNoInput arena.old arena.new }
    ensures passes { length kit.new.items ≡ length kit.old.items }
{
    let left = arena.byte(word.left(), k)?;
    let right = arena.byte(word.right(), k)?;
    let byte = RelValue::of(left, right);
    let simple = simplify_value(kit, arena, byte)?;
    Ok(simple)
}

// Byte k of a word, for the address k above another.
fn one_written(
    kit: &mut Kit,
    arena: &mut Arena,
    at: ExprId,
    word: RelValue,
    k: u32,
) -> Result<Written, AllocError>
    requires at { HasWidth arena.old at.0 32 }
    requires word { HasSides arena.old 32 word }
    requires place { k < 4 }
    requires few { length kit.old.items ≤ MOST_PASSES }
    ensures written { IfOk result (IsByteWritten arena.new at.0 word k) }
    ensures extends { Extends arena.old arena.new WRITE_NODES }
    ensures no_input { AddsNoInput arena.old arena.new }
    ensures passes { length kit.new.items ≡ length kit.old.items }
{
    let address = above(kit, arena, at, k)?;
    let held = byte_to_store(kit, arena, word, k)?;
    Ok(Written { address, held })
}

// The lowest bytes of a word, for the addresses from one on.
fn all_written(
    alloc: Global,
    kit: &mut Kit,
    arena: &mut Arena,
    at: ExprId,
    word: RelValue,
    bytes: u32,
) -> Result<Vec<Written>, AllocError>
    requires at { HasWidth arena.old at.0 32 }
    requires word { HasSides arena.old 32 word }
    requires size { bytes ≤ 4 }
    requires few { length kit.old.items ≤ MOST_PASSES }
    ensures written { IfOk result (λ ones. AreBytesWritten arena.new at.0 word ones.items) }
    ensures count { IfOk result (λ ones. length ones.items ≡ bytes) }
    ensures extends { Extends arena.old arena.new (4 * WRITE_NODES) }
    ensures no_input { AddsNoInput arena.old arena.new }
    ensures passes { length kit.new.items ≡ length kit.old.items }
{
    let mut ones = Vec::new(alloc);
    for k in 0..bytes {
        let one = one_written(kit, arena, at, word, k)?;
        ones.push(one)?;
    }
    Ok(ones)
}

/// A store.
pub(crate) fn plan_store(
    kit: &mut Kit,
    arena: &mut Arena,
    ranges: &mut Ranges,
    here: &Here,
    rs1: u32,
    rs2: u32,
    offset: u32,
    bytes: u32,
) -> Result<Planned, AllocError>
    requires here { IsHere arena.old here.now }
    requires ranges { AreRight arena.old ranges.old }
    requires few { length kit.old.items ≤ MOST_PASSES }
    requires rs1 { rs1 < REGISTERS }
    requires rs2 { rs2 < REGISTERS }
    requires size { IsAccessSize bytes }
    ensures planned { IfOk result (IsPlanned arena.new here.now (instrs.Store rs1 rs2 offset bytes)) }
    ensures extends { Extends arena.old arena.new (step_nodes here.now) }
    ensures no_input { AddsNoInput arena.old arena.new }
    ensures ranges { AreRight arena.new ranges.new }
    ensures passes { length kit.new.items ≡ length kit.old.items }
{
    let alloc = *kit.allocator();
    let word = here.registers.get(rs2);
    let reached = reach_of(kit, arena, ranges, here, Right::Write, rs1, offset, bytes)?;
    let at = reached.address.left();
    let ones = all_written(alloc, kit, arena, at, word, bytes)?;
    let stride = access(alloc, arena, here.pc, reached)?;
    Ok(Planned {
        stride,
        moved: Moved::Bytes(ones),
    })
}
