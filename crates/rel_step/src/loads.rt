//! Loads.

ghost use Rattle.std.specs.Prelude.{◌≡◌, ℕ, ◌*◌, ◌+◌, ◌^◌, ◌<◌, ◌≤◌, Bool, length, IfOk};
ghost use Rattle.ct_words.specs.Words.{IsAccessSize, extend_value, alu_value};
ghost use Rattle.ct_words.specs.declared.alu_op.AluOp.TheVariants as ops;
ghost use Rattle.rv_decode.specs.declared.instr.Instr.TheVariants as instrs;
ghost use Rattle.rv_image.specs.declared.right.Right.TheVariants as rights;
ghost use Rattle.bv_expr.specs.Nodes.{IsValuation, HasWidth, joined_bytes};
ghost use Rattle.bv_expr.specs.Growth.{Extends, AddsNoInput};
ghost use Rattle.bv_range.specs.Remembered.{AreRight};
ghost use Rattle.rel_store.specs.Sides.{side_id, HasSides};
ghost use Rattle.rel_store.specs.declared.rel_registers.TheConstants.{REGISTERS};
ghost use Rattle.rel_memory.specs.declared.rel_memory.TheConstants.{READ_NODES};
ghost use Rattle.rel_step.specs.Runs.{Always, IsHere, step_nodes};
ghost use Rattle.rel_step.specs.Plans.{IsPlanned};
ghost use Rattle.rel_step.specs.Accesses.{MayTouch, Reads, byte_of, word_of, given_of, with_loaded, Changes};
ghost use Rattle.rel_step.specs.declared.simplifying.TheConstants.{MOST_PASSES, SIMPLE_NODES};

use crate::addresses::{above, access, reach_of};
use crate::here::Here;
use crate::planned::{Moved, Planned};
use crate::simplifying::simplify_value;
use bv_expr::{Arena, BYTE, ExprId, WORD};
use bv_passes::Kit;
use bv_range::Ranges;
use ct_words::AluOp;
use rel_store::{RelValue, operate};
use rv_image::Right;
use std::alloc::AllocError;

// Byte k of those that are loaded from an address on, and 0 above them.
fn loaded_byte(
    kit: &mut Kit,
    arena: &mut Arena,
    ranges: &mut Ranges,
    here: &Here,
    at: ExprId,
    bytes: u32,
    k: u32,
) -> Result<RelValue, AllocError>
    requires here { IsHere arena.old here.now }
    requires ranges { AreRight arena.old ranges.old }
    requires few { length kit.old.items ≤ MOST_PASSES }
    requires at { HasWidth arena.old at.0 32 }
    ensures reads { IfOk result (Reads arena.new here.now at.0 bytes (byte_of here.now bytes k)) }
    ensures width { IfOk result (HasSides arena.new 8) }
    ensures extends { Extends arena.old arena.new (2 + SIMPLE_NODES + (READ_NODES + 4 * length here.now.memory.image + 4 * here.now.memory.later)) }
    ensures no_input { AddsNoInput arena.old arena.new }
    ensures ranges { AreRight arena.new ranges.new }
    ensures passes { length kit.new.items ≡ length kit.old.items }
{
    if bytes <= k {
        let zero = arena.constant(BYTE, 0)?;
        return Ok(RelValue::Same(zero));
    }
    let address = above(kit, arena, at, k)?;
    let byte = here.memory.read_byte(arena, ranges, address)?;
    arena.law();
    Ok(byte)
}

// Four bytes as a word in both runs, the least byte first.
fn joined(
    arena: &mut Arena,
    b0: RelValue,
    b1: RelValue,
    b2: RelValue,
    b3: RelValue,
) -> Result<RelValue, AllocError>
    requires byte0 { HasSides arena.old 8 b0 }
    requires byte1 { HasSides arena.old 8 b1 }
    requires byte2 { HasSides arena.old 8 b2 }
    requires byte3 { HasSides arena.old 8 b3 }
    ensures value { IfOk result (λ word. (right : Bool) → Always arena.new (λ v. v (side_id right word) ≡ joined_bytes (v (side_id right b0)) (v (side_id right b1)) (v (side_id right b2)) (v (side_id right b3)))) }
    ensures width { IfOk result (HasSides arena.new 32) }
    ensures extends { Extends arena.old arena.new 2 }
    ensures no_input { AddsNoInput arena.old arena.new }
{
    let left = arena.join(b0.left(), b1.left(), b2.left(), b3.left())?;
    let right = arena.join(b0.right(), b1.right(), b2.right(), b3.right())?;
    Ok(RelValue::of(left, right))
}

// The bytes that are loaded from an address on as a word.
fn loaded_word(
    kit: &mut Kit,
    arena: &mut Arena,
    ranges: &mut Ranges,
    here: &Here,
    at: ExprId,
    bytes: u32,
) -> Result<RelValue, AllocError>
    requires here { IsHere arena.old here.now }
    requires ranges { AreRight arena.old ranges.old }
    requires few { length kit.old.items ≤ MOST_PASSES }
    requires at { HasWidth arena.old at.0 32 }
    requires size { IsAccessSize bytes }
    ensures reads { IfOk result (Reads arena.new here.now at.0 bytes (word_of here.now bytes)) }
    ensures small { IfOk result (λ word. (right : Bool) → Always arena.new (λ v. MayTouch rights.Read here.now (v at.0) bytes → v (side_id right word) < 2 ^ (8 * bytes))) }
    ensures width { IfOk result (HasSides arena.new 32) }
    ensures extends { Extends arena.old arena.new (2 + 4 * (2 + SIMPLE_NODES + (READ_NODES + 4 * length here.now.memory.image + 4 * here.now.memory.later))) }
    ensures no_input { AddsNoInput arena.old arena.new }
    ensures ranges { AreRight arena.new ranges.new }
    ensures passes { length kit.new.items ≡ length kit.old.items }
{
    let b0 = loaded_byte(kit, arena, ranges, here, at, bytes, 0)?;
    let b1 = loaded_byte(kit, arena, ranges, here, at, bytes, 1)?;
    let b2 = loaded_byte(kit, arena, ranges, here, at, bytes, 2)?;
    let b3 = loaded_byte(kit, arena, ranges, here, at, bytes, 3)?;
    let word = joined(arena, b0, b1, b2, b3)?;
    arena.law();
    Ok(word)
}

// The low bits of a word, all but this many, with copies of the highest of them above.
fn sign_extended(arena: &mut Arena, word: RelValue, above: u32) -> Result<RelValue, AllocError>
    requires word { HasSides arena.old 32 word }
    ensures value { IfOk result (λ given. (right : Bool) → Always arena.new (λ v. v (side_id right given) ≡ alu_value ops.Sra (alu_value ops.Sll (v (side_id right word)) above) above)) }
    ensures width { IfOk result (HasSides arena.new 32) }
    ensures extends { Extends arena.old arena.new 5 }
    ensures no_input { AddsNoInput arena.old arena.new }
{
    let by = arena.constant(WORD, above)?;
    let high = operate(arena, AluOp::Sll, word, RelValue::Same(by))?;
    let given = operate(arena, AluOp::Sra, high, RelValue::Same(by))?;
    Ok(given)
}

// Bytes as a load extends them.
fn extended(
    arena: &mut Arena,
    word: RelValue,
    bytes: u32,
    signed: bool,
) -> Result<RelValue, AllocError>
    requires word { HasSides arena.old 32 word }
    requires size { IsAccessSize bytes }
    ensures value { IfOk result (λ given. (right : Bool) → Always arena.new (λ v. v (side_id right word) < 2 ^ (8 * bytes) → v (side_id right given) ≡ extend_value (v (side_id right word)) bytes signed)) }
    ensures width { IfOk result (HasSides arena.new 32) }
    ensures extends { Extends arena.old arena.new 5 }
    ensures no_input { AddsNoInput arena.old arena.new }
{
    if bytes == 4 {
        return Ok(word);
    }
    if signed {
        let given = sign_extended(arena, word, 32 - 8 * bytes)?;
        return Ok(given);
    }
    Ok(word)
}

// What a load gives a register.
fn loaded(
    kit: &mut Kit,
    arena: &mut Arena,
    ranges: &mut Ranges,
    here: &Here,
    at: ExprId,
    bytes: u32,
    signed: bool,
) -> Result<RelValue, AllocError>
    requires here { IsHere arena.old here.now }
    requires ranges { AreRight arena.old ranges.old }
    requires few { length kit.old.items ≤ MOST_PASSES }
    requires at { HasWidth arena.old at.0 32 }
    requires size { IsAccessSize bytes }
    ensures reads { IfOk result (Reads arena.new here.now at.0 bytes (given_of here.now bytes signed)) }
    ensures width { IfOk result (HasSides arena.new 32) }
    ensures extends { Extends arena.old arena.new (7 + 2 * SIMPLE_NODES + 4 * (2 + SIMPLE_NODES + (READ_NODES + 4 * length here.now.memory.image + 4 * here.now.memory.later))) }
    ensures no_input { AddsNoInput arena.old arena.new }
    ensures ranges { AreRight arena.new ranges.new }
    ensures passes { length kit.new.items ≡ length kit.old.items }
{
    let word = loaded_word(kit, arena, ranges, here, at, bytes)?;
    let given = extended(arena, word, bytes, signed)?;
    let simple = simplify_value(kit, arena, given)?;
    Ok(simple)
}

// The change that puts what is loaded into a register. Adds nothing for x0.
fn put_loaded(
    kit: &mut Kit,
    arena: &mut Arena,
    ranges: &mut Ranges,
    here: &Here,
    rd: u32,
    at: ExprId,
    bytes: u32,
    signed: bool,
) -> Result<Moved, AllocError>
    requires here { IsHere arena.old here.now }
    requires ranges { AreRight arena.old ranges.old }
    requires few { length kit.old.items ≤ MOST_PASSES }
    requires rd { rd < REGISTERS }
    requires at { HasWidth arena.old at.0 32 }
    requires size { IsAccessSize bytes }
    ensures changes { IfOk result (Changes arena.new here.now rights.Read at.0 bytes (with_loaded here.now rd bytes signed)) }
    ensures extends { Extends arena.old arena.new (7 + 2 * SIMPLE_NODES + 4 * (2 + SIMPLE_NODES + (READ_NODES + 4 * length here.now.memory.image + 4 * here.now.memory.later))) }
    ensures no_input { AddsNoInput arena.old arena.new }
    ensures ranges { AreRight arena.new ranges.new }
    ensures passes { length kit.new.items ≡ length kit.old.items }
{
    if rd == 0 {
        return Ok(Moved::Nothing);
    }
    let given = loaded(kit, arena, ranges, here, at, bytes, signed)?;
    Ok(Moved::Register { rd, given })
}

/// A load. What it gives is said where both runs may load from the left run's address, as they go on only there.
pub(crate) fn plan_load(
    kit: &mut Kit,
    arena: &mut Arena,
    ranges: &mut Ranges,
    here: &Here,
    rd: u32,
    rs1: u32,
    offset: u32,
    bytes: u32,
    signed: bool,
) -> Result<Planned, AllocError>
    requires here { IsHere arena.old here.now }
    requires ranges { AreRight arena.old ranges.old }
    requires few { length kit.old.items ≤ MOST_PASSES }
    requires rd { rd < REGISTERS }
    requires rs1 { rs1 < REGISTERS }
    requires size { IsAccessSize bytes }
    ensures planned { IfOk result (IsPlanned arena.new here.now (instrs.Load rd rs1 offset bytes signed)) }
    ensures extends { Extends arena.old arena.new (step_nodes here.now) }
    ensures no_input { AddsNoInput arena.old arena.new }
    ensures ranges { AreRight arena.new ranges.new }
    ensures passes { length kit.new.items ≡ length kit.old.items }
{
    let reached = reach_of(kit, arena, ranges, here, Right::Read, rs1, offset, bytes)?;
    let at = reached.address.left();
    let moved = put_loaded(kit, arena, ranges, here, rd, at, bytes, signed)?;
    let stride = access(*kit.allocator(), arena, here.pc, reached)?;
    Ok(Planned { stride, moved })
}
