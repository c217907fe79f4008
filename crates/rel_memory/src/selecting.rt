//! The choice among the bytes of several addresses, by the bits of an address.

ghost use Rattle.std.specs.Prelude.{◌≡◌, ◌≢◌, ◌+◌, ◌*◌, ◌/◌, ◌%◌, ◌^◌, ◌<◌, ◌≤◌, ℕ, Bool, length, Some, IfOk, OnOk};
ghost use Rattle.std.specs.Option.{IsSomeAnd};
ghost use Rattle.std.specs.Int.{bit_at};
ghost use Rattle.bv_expr.specs.Nodes.{IsValuation, AreBytes, HasWidth};
ghost use Rattle.bv_expr.specs.Growth.{Extends, AddsNoInput};
ghost use Rattle.rel_store.specs.Sides.{side_id, HasSides};
ghost use Rattle.rel_store.specs.declared.rel_value.RelValue.{RelValue};
ghost use Rattle.rel_memory.specs.Selecting.{Grows, AreHeld, value_at, IsAtBit, AreJoined, AreJoinedFirst, IsBit, bit_nodes};

use bv_expr::{Arena, BYTE, ExprId, WORD};
use ct_words::{AluOp, Cond};
use indexmap::IndexMap;
use rel_store::{RelValue, choose};
use std::alloc::{AllocError, Global};

/// How many bits an address has.
const ADDRESS_BITS: u32 = 32;

// The bit of a word at a place.
fn bit_of(arena: &mut Arena, x: ExprId, place: u32) -> Result<ExprId, AllocError>
    requires word { HasWidth arena.old x.0 32 }
    requires place { place < 32 }
    ensures value { IfOk result (λ id. (env v : ℕ → ℕ) → IsValuation env v arena.new → v id.0 ≡ bit_at (v x.0) place) }
    ensures width { IfOk result (λ id. HasWidth arena.new id.0 1) }
    ensures extends { Extends arena.old arena.new 4 }
    ensures no_input { AddsNoInput arena.old arena.new }
{
    let mask = arena.constant(WORD, 1 << place)?;
    let masked = arena.alu(AluOp::And, x, mask)?;
    let zero = arena.constant(WORD, 0)?;
    let bit = arena.test(Cond::Ne, masked, zero)?;
    Ok(bit)
}

// The bit, which is made once.
fn made_bit(
    arena: &mut Arena,
    x: ExprId,
    place: u32,
    bit: Option<ExprId>,
) -> Result<ExprId, AllocError>
    requires word { HasWidth arena.old x.0 32 }
    requires place { place < 32 }
    requires bit { IsBit arena.old x.0 place bit }
    ensures bit { IfOk result (λ id. IsBit arena.new x.0 place (Some id)) }
    ensures extends { Extends arena.old arena.new (bit_nodes bit) }
    ensures no_input { AddsNoInput arena.old arena.new }
{
    match bit {
        Some(bit) => Ok(bit),
        None => {
            let bit = bit_of(arena, x, place)?;
            Ok(bit)
        }
    }
}

// The one byte where a bit is the lowest bit of a number, and else the other.
fn by_lowest(
    arena: &mut Arena,
    bit: ExprId,
    number: u32,
    one: RelValue,
    other: RelValue,
) -> Result<RelValue, AllocError>
    requires bit { HasWidth arena.old bit.0 1 }
    requires one { HasSides arena.old 8 one }
    requires other { HasSides arena.old 8 other }
    ensures one { IfOk result (λ r. (env v : ℕ → ℕ) → IsValuation env v arena.new → v bit.0 ≡ number % 2 → (right : Bool) → v (side_id right r) ≡ v (side_id right one)) }
    ensures other { IfOk result (λ r. (env v : ℕ → ℕ) → IsValuation env v arena.new → v bit.0 < 2 → v bit.0 ≢ number % 2 → (right : Bool) → v (side_id right r) ≡ v (side_id right other)) }
    ensures width { IfOk result (HasSides arena.new 8) }
    ensures extends { Extends arena.old arena.new 2 }
    ensures no_input { AddsNoInput arena.old arena.new }
{
    if number % 2 == 0 {
        let byte = choose(arena, bit, other, one)?;
        Ok(byte)
    } else {
        let byte = choose(arena, bit, one, other)?;
        Ok(byte)
    }
}

// Puts a byte in for half its number, beside the one that may be there: by a bit, if it is there.
fn join(
    arena: &mut Arena,
    x: ExprId,
    place: u32,
    bit: Option<ExprId>,
    joined: &mut IndexMap<u32, RelValue>,
    number: u32,
    held: RelValue,
) -> Result<Option<ExprId>, AllocError>
    requires word { HasWidth arena.old x.0 32 }
    requires place { place < 32 }
    requires bit { IsBit arena.old x.0 place bit }
    requires joined { AreHeld arena.old joined.old.entries }
    requires held { HasSides arena.old 8 held }
    ensures bit { IfOk result (IsBit arena.new x.0 place) }
    ensures joined { OnOk result (AreHeld arena.new joined.new.entries) }
    ensures this { OnOk result (IsSomeAnd (value_at joined.new.entries (number / 2)) (IsAtBit arena.new x.0 place (number % 2) held)) }
    ensures others { OnOk result ((at : ℕ) (other : RelValue) → value_at joined.old.entries at ≡ Some other → IsSomeAnd (value_at joined.new.entries at) (λ r. (env v : ℕ → ℕ) → IsValuation env v arena.new → (at ≡ number / 2 → bit_at (v x.0) place ≢ number % 2) → (right : Bool) → v (side_id right r) ≡ v (side_id right other))) }
    ensures grows { Grows arena.old arena.new }
    ensures count { IfOk result (λ made. length arena.new + 2 * length joined.new.entries + bit_nodes made ≤ length arena.old + 2 * length joined.old.entries + 2 + bit_nodes bit) }
    ensures most { length arena.new ≤ length arena.old + 2 + bit_nodes bit }
    ensures no_input { AddsNoInput arena.old arena.new }
{
    let half = number / 2;
    let other = match joined.get(&half) {
        Some(other) => *other,
        None => {
            joined.insert(half, held)?;
            return Ok(bit);
        }
    };
    let made = made_bit(arena, x, place, bit)?;
    let both = by_lowest(arena, made, number, held, other)?;
    joined.insert(half, both)?;
    Ok(Some(made))
}

// Puts one of the bytes in, by its place among them.
fn join_entry(
    arena: &mut Arena,
    x: ExprId,
    place: u32,
    bit: Option<ExprId>,
    joined: &mut IndexMap<u32, RelValue>,
    values: &IndexMap<u32, RelValue>,
    i: usize,
) -> Result<Option<ExprId>, AllocError>
    requires word { HasWidth arena.old x.0 32 }
    requires place { place < 32 }
    requires bit { IsBit arena.old x.0 place bit }
    requires joined { AreHeld arena.old joined.old.entries }
    requires values { AreHeld arena.old values.now.entries }
    requires first { AreJoinedFirst arena.old x.0 place values.now.entries i joined.old.entries }
    requires inside { i < length values.now.entries }
    ensures bit { IfOk result (IsBit arena.new x.0 place) }
    ensures joined { OnOk result (AreHeld arena.new joined.new.entries) }
    ensures first { OnOk result (AreJoinedFirst arena.new x.0 place values.now.entries (i + 1) joined.new.entries) }
    ensures grows { Grows arena.old arena.new }
    ensures count { IfOk result (λ made. length arena.new + 2 * length joined.new.entries + bit_nodes made ≤ length arena.old + 2 * length joined.old.entries + 2 + bit_nodes bit) }
    ensures most { length arena.new ≤ length arena.old + 2 + bit_nodes bit }
    ensures no_input { AddsNoInput arena.old arena.new }
{
    let Some((number, held)) = values.get_index(i) else {
        unreachable!()
    };
    let made = join(arena, x, place, bit, joined, *number, *held)?;
    Ok(made)
}

// The bytes by half their numbers, two of one half joined by the bit of a word at a place.
fn joined_at(
    alloc: Global,
    arena: &mut Arena,
    x: ExprId,
    place: u32,
    values: &IndexMap<u32, RelValue>,
) -> Result<IndexMap<u32, RelValue>, AllocError>
    requires word { HasWidth arena.old x.0 32 }
    requires place { place < 32 }
    requires values { AreHeld arena.old values.now.entries }
    ensures joined { IfOk result (λ joined. AreJoined arena.new x.0 place values.now.entries joined.entries) }
    ensures held { IfOk result (λ joined. AreHeld arena.new joined.entries) }
    ensures grows { Grows arena.old arena.new }
    ensures count { IfOk result (λ joined. length arena.new + 2 * length joined.entries ≤ length arena.old + 2 * length values.now.entries + 4) }
    ensures most { length arena.new ≤ length arena.old + 2 * length values.now.entries + 4 }
    ensures no_input { AddsNoInput arena.old arena.new }
{
    let mut joined = IndexMap::new(alloc);
    let mut bit = None;
    for i in 0..values.len() {
        bit = join_entry(arena, x, place, bit, &mut joined, values, i)?;
    }
    Ok(joined)
}

/// The byte that stands for the value of a word among these, and any byte where there is none: a choice by the
/// bits of the word, from the lowest on. Adds two nodes for each byte beside the first, and four for each bit by
/// which some bytes differ.
pub fn selected(
    alloc: Global,
    arena: &mut Arena,
    x: ExprId,
    values: IndexMap<u32, RelValue>,
) -> Result<RelValue, AllocError>
    requires word { HasWidth arena.old x.0 32 }
    requires values { AreHeld arena.old values.entries }
    ensures value { IfOk result (λ r. (env v : ℕ → ℕ) → AreBytes env → IsValuation env v arena.new → (held : RelValue) → value_at values.entries (v x.0) ≡ Some held → (right : Bool) → v (side_id right r) ≡ v (side_id right held)) }
    ensures width { IfOk result (HasSides arena.new 8) }
    ensures extends { Extends arena.old arena.new (129 + 2 * length values.entries) }
    ensures no_input { AddsNoInput arena.old arena.new }
{
    let mut joined = values;
    for place in 0..ADDRESS_BITS {
        joined = joined_at(alloc, arena, x, place, &joined)?;
    }
    arena.law();
    match joined.get(&0) {
        Some(byte) => Ok(*byte),
        None => {
            let zero = arena.constant(BYTE, 0)?;
            Ok(RelValue::Same(zero))
        }
    }
}
