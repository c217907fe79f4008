//! Bytes that may have been replaced by a write.

ghost use Rattle.std.specs.Prelude.{◌≡◌, ◌==◌, ◌<◌, ◌≤◌, ℕ, Bool, false, IfOk, IsTrue, if◌then◌else◌};
ghost use Rattle.bv_expr.specs.Nodes.{IsValuation, AreBytes, HasWidth};
ghost use Rattle.bv_expr.specs.Growth.{Extends, AddsNoInput};
ghost use Rattle.bv_range.specs.Known.{IsWithin};
ghost use Rattle.bv_range.specs.Remembered.{AreRight};
ghost use Rattle.rel_store.specs.Sides.{side_id, HasSides};
ghost use Rattle.rel_memory.specs.Meeting.{MayMeet};

use bv_expr::{Arena, ExprId};
use bv_range::{Range, Ranges};
use ct_words::Cond;
use rel_store::{RelValue, choose};
use std::alloc::AllocError;

/// Whether no number lies in both ranges, as far as bits and ends tell.
pub fn are_apart(a: Range, b: Range) -> bool
    ensures apart { IsTrue result → (x : ℕ) → IsWithin a x → IsWithin b x → ⊥ }
    ensures otherwise { result ≡ false → MayMeet a b }
{
    a.most < b.least || b.most < a.least || (a.zeros & b.ones) | (a.ones & b.zeros) != 0
}

/// Whether a number lies in a range.
pub fn may_be(range: Range, number: u32) -> bool
    ensures within { IsTrue result → IsWithin range number }
    ensures all { IsWithin range number → IsTrue result }
{
    if number < range.least || number > range.most {
        return false;
    }
    range.zeros & number == 0 && range.ones & number == range.ones
}

/// The byte at an address after a write: the written byte where the two addresses are equal, and else the byte
/// before. Adds nothing where the ranges of the addresses tell that they aren't.
pub fn replaced(
    arena: &mut Arena,
    ranges: &mut Ranges,
    at: ExprId,
    address: ExprId,
    held: RelValue,
    before: RelValue,
) -> Result<RelValue, AllocError>
    requires at { HasWidth arena.old at.0 32 }
    requires address { HasWidth arena.old address.0 32 }
    requires held { HasSides arena.old 8 held }
    requires before { HasSides arena.old 8 before }
    requires ranges { AreRight arena.old ranges.old }
    ensures value { IfOk result (λ r. (env v : ℕ → ℕ) → AreBytes env → IsValuation env v arena.new → (right : Bool) → v (side_id right r) ≡ (if v address.0 == v at.0 then v (side_id right held) else v (side_id right before))) }
    ensures width { IfOk result (HasSides arena.new 8) }
    ensures extends { Extends arena.old arena.new 3 }
    ensures no_input { AddsNoInput arena.old arena.new }
    ensures ranges { AreRight arena.new ranges.new }
{
    let of_address = ranges.of(arena, address)?;
    let of_at = ranges.of(arena, at)?;
    if are_apart(of_address, of_at) {
        return Ok(before);
    }
    let same = arena.test(Cond::Eq, address, at)?;
    let byte = choose(arena, same, held, before)?;
    Ok(byte)
}
