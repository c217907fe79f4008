//! Input bytes in their places, in two runs.

ghost use Rattle.std.specs.Prelude.{◌≡◌, ◌==◌, ℕ, ◌+◌, ◌<◌, Bool, true, false, IfOk, OnOk, IsTrue, if◌then◌else◌};
ghost use Rattle.bv_expr.specs.Nodes.{IsValuation, HasWidth, byte_at};
ghost use Rattle.bv_expr.specs.Growth.{Extends, AddsNoInput};
ghost use Rattle.ct_pairs.specs.Inputs.{is_place};
ghost use Rattle.ct_pairs.specs.Start.{byte_replaced};
ghost use Rattle.ct_pairs.specs.declared.place.Place.TheVariants.{Register, Memory};
ghost use Rattle.rel_store.specs.Sides.{side_id, HasSides};
ghost use Rattle.rel_memory.specs.Contents.{HasNumbersOnly};
ghost use Rattle.rel_step.specs.Bridge.{variable_of};
ghost use Rattle.rel_step.specs.Runs.{IsHere};
ghost use Rattle.rel_step.specs.PathNodes.{AreVariablesBelow};
ghost use Rattle.rel_step.specs.Placing.{IsPlaced};

use crate::building::new_input;
use crate::here::Here;
use bv_expr::{Arena, ExprId};
use ct_pairs::Place;
use rel_store::RelValue;
use std::alloc::AllocError;

/// One byte of a word, or the byte that replaces it.
fn piece(
    arena: &mut Arena,
    word: ExprId,
    at: u32,
    byte: u32,
    held: ExprId,
) -> Result<ExprId, AllocError>
    requires word { HasWidth arena.old word.0 32 }
    requires at { at < 4 }
    requires held { HasWidth arena.old held.0 8 }
    ensures value { IfOk result (λ id. (env v : ℕ → ℕ) → IsValuation env v arena.new → v id.0 ≡ (if at == byte then v held.0 else byte_at (v word.0) at)) }
    ensures width { IfOk result (λ id. HasWidth arena.new id.0 8) }
    ensures extends { Extends arena.old arena.new 1 }
    ensures no_input { AddsNoInput arena.old arena.new }
{
    if at == byte {
        return Ok(held);
    }
    let id = arena.byte(word, at)?;
    Ok(id)
}

/// A word with one of its bytes replaced.
fn replace(arena: &mut Arena, word: ExprId, byte: u32, held: ExprId) -> Result<ExprId, AllocError>
    requires word { HasWidth arena.old word.0 32 }
    requires byte { byte < 4 }
    requires held { HasWidth arena.old held.0 8 }
    ensures value { IfOk result (λ id. (env v : ℕ → ℕ) → IsValuation env v arena.new → v id.0 ≡ byte_replaced (v word.0) byte (v held.0)) }
    ensures width { IfOk result (λ id. HasWidth arena.new id.0 32) }
    ensures extends { Extends arena.old arena.new 5 }
    ensures no_input { AddsNoInput arena.old arena.new }
{
    let b0 = piece(arena, word, 0, byte, held)?;
    let b1 = piece(arena, word, 1, byte, held)?;
    let b2 = piece(arena, word, 2, byte, held)?;
    let b3 = piece(arena, word, 3, byte, held)?;
    let id = arena.join(b0, b1, b2, b3)?;
    Ok(id)
}

/// A word in both runs, with one of its bytes replaced.
fn replace_both(
    arena: &mut Arena,
    word: RelValue,
    byte: u32,
    held: RelValue,
) -> Result<RelValue, AllocError>
    requires word { HasSides arena.old 32 word }
    requires byte { byte < 4 }
    requires held { HasSides arena.old 8 held }
    ensures value { IfOk result (λ r. (env v : ℕ → ℕ) → IsValuation env v arena.new → (right : Bool) → v (side_id right r) ≡ byte_replaced (v (side_id right word)) byte (v (side_id right held))) }
    ensures width { IfOk result (HasSides arena.new 32) }
    ensures extends { Extends arena.old arena.new 10 }
    ensures no_input { AddsNoInput arena.old arena.new }
{
    let left = replace(arena, word.left(), byte, held.left())?;
    let right = replace(arena, word.right(), byte, held.right())?;
    let both = RelValue::of(left, right);
    Ok(both)
}

fn place_register(
    arena: &mut Arena,
    here: &mut Here,
    reg: u32,
    byte: u32,
    held: RelValue,
) -> Result<(), AllocError>
    requires here { IsHere arena.old here.old }
    requires numbers { HasNumbersOnly here.old.memory }
    requires some { 0 < reg }
    requires reg { reg < 32 }
    requires byte { byte < 4 }
    requires held { HasSides arena.old 8 held }
    ensures { OnOk result (IsPlaced arena.old arena.new here.old (Register reg byte) held here.new) }
{
    let word = here.registers.get(reg);
    let replaced = replace_both(arena, word, byte, held)?;
    here.registers.set(reg, replaced);
    Ok(())
}

fn place_memory(
    arena: &Arena,
    here: &mut Here,
    address: u32,
    held: RelValue,
) -> Result<(), AllocError>
    requires here { IsHere arena.now here.old }
    requires numbers { HasNumbersOnly here.old.memory }
    requires place { IsTrue (is_place here.old.memory.image (Memory address)) }
    requires held { HasSides arena.now 8 held }
    ensures { OnOk result (IsPlaced arena.now arena.now here.old (Memory address) held here.new) }
{
    here.memory.preset(arena, address, held)?;
    Ok(())
}

/// Puts an input byte in its place before the first step.
pub(crate) fn place(
    arena: &mut Arena,
    here: &mut Here,
    place: Place,
    held: RelValue,
) -> Result<(), AllocError>
    requires here { IsHere arena.old here.old }
    requires numbers { HasNumbersOnly here.old.memory }
    requires place { IsTrue (is_place here.old.memory.image place) }
    requires held { HasSides arena.old 8 held }
    ensures { OnOk result (IsPlaced arena.old arena.new here.old place held here.new) }
{
    match place {
        Place::Register { reg, byte } => {
            place_register(arena, here, reg, byte, held)?;
            Ok(())
        }
        Place::Memory { address } => {
            place_memory(arena, here, address, held)?;
            Ok(())
        }
    }
}

/// A public input byte, by its variable.
fn hold_public(arena: &mut Arena, variable: usize) -> Result<RelValue, AllocError>
    requires below { AreVariablesBelow variable arena.old }
    ensures value { IfOk result (λ r. (env v : ℕ → ℕ) → IsValuation env v arena.new → (right : Bool) → v (side_id right r) ≡ env (variable_of right variable false)) }
    ensures width { IfOk result (HasSides arena.new 8) }
    ensures extends { IfOk result (λ r. Extends arena.old arena.new 2) }
    ensures below { IfOk result (λ r. AreVariablesBelow (variable + 2) arena.new) }
{
    let id = new_input(arena, variable)?;
    Ok(RelValue::Same(id))
}

/// A secret input byte, by its variable in the left run.
fn hold_secret(arena: &mut Arena, variable: usize) -> Result<RelValue, AllocError>
    requires fits { variable < 10000 }
    requires below { AreVariablesBelow variable arena.old }
    ensures value { IfOk result (λ r. (env v : ℕ → ℕ) → IsValuation env v arena.new → (right : Bool) → v (side_id right r) ≡ env (variable_of right variable true)) }
    ensures width { IfOk result (HasSides arena.new 8) }
    ensures extends { IfOk result (λ r. Extends arena.old arena.new 2) }
    ensures below { IfOk result (λ r. AreVariablesBelow (variable + 2) arena.new) }
{
    let left = new_input(arena, variable)?;
    let right = new_input(arena, variable + 1)?;
    Ok(RelValue::Both(left, right))
}

/// An input byte in both runs, by its variable in the left run.
pub(crate) fn hold(arena: &mut Arena, variable: usize, secret: bool) -> Result<RelValue, AllocError>
    requires fits { variable < 10000 }
    requires below { AreVariablesBelow variable arena.old }
    ensures value { IfOk result (λ r. (env v : ℕ → ℕ) → IsValuation env v arena.new → (right : Bool) → v (side_id right r) ≡ env (variable_of right variable secret)) }
    ensures width { IfOk result (HasSides arena.new 8) }
    ensures extends { IfOk result (λ r. Extends arena.old arena.new 2) }
    ensures below { IfOk result (λ r. AreVariablesBelow (variable + 2) arena.new) }
{
    if secret {
        let both = hold_secret(arena, variable)?;
        Ok(both)
    } else {
        let one = hold_public(arena, variable)?;
        Ok(one)
    }
}
