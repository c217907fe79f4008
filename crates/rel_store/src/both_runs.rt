//! Operations in two runs at once. Where both runs have the same operands, one expression serves both.

ghost use Rattle.std.specs.Prelude.{◌≡◌, ◌==◌, ℕ, Bool, IfOk, if◌then◌else◌};
ghost use Rattle.ct_words.specs.Words.{alu_value, test_value, flag};
ghost use Rattle.bv_expr.specs.Nodes.{IsValuation, HasWidth};
ghost use Rattle.bv_expr.specs.Growth.{Extends, AddsNoInput};
ghost use Rattle.rel_store.specs.Sides.{side_id, HasSides, IsSame};

use crate::rel_value::RelValue;
use bv_expr::{Arena, ExprId};
use ct_words::{AluOp, Cond};
use std::alloc::AllocError;

/// An operation on two words in both runs.
pub fn operate(
    arena: &mut Arena,
    op: AluOp,
    a: RelValue,
    b: RelValue,
) -> Result<RelValue, AllocError>
    requires left { HasSides arena.old 32 a }
    requires right { HasSides arena.old 32 b }
    ensures value { IfOk result (λ r. (env v : ℕ → ℕ) → IsValuation env v arena.new → (right : Bool) → v (side_id right r) ≡ alu_value op (v (side_id right a)) (v (side_id right b))) }
    ensures width { IfOk result (HasSides arena.new 32) }
    ensures same { IfOk result (λ r. IsSame a → IsSame b → IsSame r) }
    ensures extends { Extends arena.old arena.new 2 }
    ensures no_input { AddsNoInput arena.old arena.new }
{
    if let Some((x, y)) = RelValue::shared(a, b) {
        let both = arena.alu(op, x, y)?;
        return Ok(RelValue::Same(both));
    }
    let left = arena.alu(op, a.left(), b.left())?;
    let right = arena.alu(op, a.right(), b.right())?;
    Ok(RelValue::of(left, right))
}

/// A condition on two words in both runs: one bit.
pub fn compare(
    arena: &mut Arena,
    cond: Cond,
    a: RelValue,
    b: RelValue,
) -> Result<RelValue, AllocError>
    requires left { HasSides arena.old 32 a }
    requires right { HasSides arena.old 32 b }
    ensures value { IfOk result (λ r. (env v : ℕ → ℕ) → IsValuation env v arena.new → (right : Bool) → v (side_id right r) ≡ flag (test_value cond (v (side_id right a)) (v (side_id right b)))) }
    ensures width { IfOk result (HasSides arena.new 1) }
    ensures same { IfOk result (λ r. IsSame a → IsSame b → IsSame r) }
    ensures extends { Extends arena.old arena.new 2 }
    ensures no_input { AddsNoInput arena.old arena.new }
{
    if let Some((x, y)) = RelValue::shared(a, b) {
        let both = arena.test(cond, x, y)?;
        return Ok(RelValue::Same(both));
    }
    let left = arena.test(cond, a.left(), b.left())?;
    let right = arena.test(cond, a.right(), b.right())?;
    Ok(RelValue::of(left, right))
}

// The one byte where a bit is 1, and the other where it is 0; nothing new where they are equal.
fn chosen(arena: &mut Arena, when: ExprId, yes: ExprId, no: ExprId) -> Result<ExprId, AllocError>
    requires when { HasWidth arena.old when.0 1 }
    requires yes { HasWidth arena.old yes.0 8 }
    requires no { HasWidth arena.old no.0 8 }
    ensures value { IfOk result (λ id. (env v : ℕ → ℕ) → IsValuation env v arena.new → v id.0 ≡ (if v when.0 == 0 then v no.0 else v yes.0)) }
    ensures width { IfOk result (λ id. HasWidth arena.new id.0 8) }
    ensures equal { (yes ≡ no) → arena.new ≡ arena.old }
    ensures extends { Extends arena.old arena.new 1 }
    ensures no_input { AddsNoInput arena.old arena.new }
{
    if yes == no {
        return Ok(yes);
    }
    let choice = arena.pick(when, yes, no)?;
    Ok(choice)
}

/// The first value where a bit is 1, and the second where it is 0, in both runs. Adds nothing where the values are
/// equal.
pub fn choose(
    arena: &mut Arena,
    when: ExprId,
    yes: RelValue,
    no: RelValue,
) -> Result<RelValue, AllocError>
    requires when { HasWidth arena.old when.0 1 }
    requires yes { HasSides arena.old 8 yes }
    requires no { HasSides arena.old 8 no }
    ensures value { IfOk result (λ r. (env v : ℕ → ℕ) → IsValuation env v arena.new → (right : Bool) → v (side_id right r) ≡ (if v when.0 == 0 then v (side_id right no) else v (side_id right yes))) }
    ensures width { IfOk result (HasSides arena.new 8) }
    ensures same { IfOk result (λ r. IsSame yes → IsSame no → IsSame r) }
    ensures equal { (yes ≡ no) → arena.new ≡ arena.old }
    ensures extends { Extends arena.old arena.new 2 }
    ensures no_input { AddsNoInput arena.old arena.new }
{
    if let Some((x, y)) = RelValue::shared(yes, no) {
        let both = chosen(arena, when, x, y)?;
        return Ok(RelValue::Same(both));
    }
    let left = chosen(arena, when, yes.left(), no.left())?;
    let right = chosen(arena, when, yes.right(), no.right())?;
    Ok(RelValue::of(left, right))
}
