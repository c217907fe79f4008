//! The passes of a kit, applied to expressions.

ghost use Rattle.std.specs.Prelude.{◌≡◌, ◌*◌, ◌<◌, ◌≤◌, Bool, length, IfOk};
ghost use Rattle.bv_expr.specs.Growth.{Extends, AddsNoInput};
ghost use Rattle.bv_passes.specs.Answering.{IsAnswer};
ghost use Rattle.rel_store.specs.Sides.{side_id, IsSame};
ghost use Rattle.rel_step.specs.declared.simplifying.TheConstants.{MOST_PASSES, SIMPLE_NODES};

use bv_expr::{Arena, ExprId, QNode};
use bv_passes::{Kit, Pass};
use rel_store::RelValue;
use std::alloc::AllocError;

/// How many passes a kit has at most.
pub const MOST_PASSES: usize = 8;

/// How many nodes the passes of a kit add to one expression at most.
pub(crate) const SIMPLE_NODES: usize = 32;

// What a pass answers for an expression. A constant stays.
fn answer(
    pass: &mut Box<dyn Pass + Send>,
    arena: &mut Arena,
    id: ExprId,
) -> Result<ExprId, AllocError>
    requires inside { id.0 < length arena.old }
    ensures answer { IfOk result (λ simple. IsAnswer arena.old arena.new id.0 simple.0) }
    ensures extends { Extends arena.old arena.new 4 }
    ensures no_input { AddsNoInput arena.old arena.new }
{
    match arena.node(id) {
        QNode::Constant { .. } => Ok(id),
        _ => {
            let simple = pass.apply(arena, id)?;
            Ok(simple)
        }
    }
}

/// An expression of the same value and width, as each pass of the kit makes it after the one before. A constant
/// stays.
pub(crate) fn simplify(kit: &mut Kit, arena: &mut Arena, id: ExprId) -> Result<ExprId, AllocError>
    requires inside { id.0 < length arena.old }
    requires few { length kit.old.items ≤ MOST_PASSES }
    ensures answer { IfOk result (λ simple. IsAnswer arena.old arena.new id.0 simple.0) }
    ensures extends { Extends arena.old arena.new SIMPLE_NODES }
    ensures no_input { AddsNoInput arena.old arena.new }
    ensures passes { length kit.new.items ≡ length kit.old.items }
{
    let mut simple = id;
    for pass in kit.iter_mut() {
        simple = answer(pass, arena, simple)?;
    }
    Ok(simple)
}

/// A value of the same meaning and width in both runs. Where both runs have one expression they keep one.
pub(crate) fn simplify_value(
    kit: &mut Kit,
    arena: &mut Arena,
    value: RelValue,
) -> Result<RelValue, AllocError>
    requires inside { (right : Bool) → side_id right value < length arena.old }
    requires few { length kit.old.items ≤ MOST_PASSES }
    ensures answer { IfOk result (λ simple. (right : Bool) → IsAnswer arena.old arena.new (side_id right value) (side_id right simple)) }
    ensures same { IfOk result (λ simple. IsSame value → IsSame simple) }
    ensures extends { Extends arena.old arena.new (2 * SIMPLE_NODES) }
    ensures no_input { AddsNoInput arena.old arena.new }
    ensures passes { length kit.new.items ≡ length kit.old.items }
{
    match value {
        RelValue::Same(id) => {
            let simple = simplify(kit, arena, id)?;
            Ok(RelValue::Same(simple))
        }
        RelValue::Both(left, right) => {
            let first = simplify(kit, arena, left)?;
            let second = simplify(kit, arena, right)?;
            Ok(RelValue::of(first, second))
        }
    }
}
