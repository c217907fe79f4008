//! Whether two expressions are different.

ghost use Rattle.std.specs.Prelude.{IfOk};
ghost use Rattle.bv_expr.specs.Nodes.{HasWidth};
ghost use Rattle.bv_expr.specs.Growth.{Extends, AddsNoInput};
ghost use Rattle.rel_step.specs.Onward.{TellsApart};

use bv_expr::{Arena, ExprId};
use ct_words::Cond;
use std::alloc::AllocError;

/// Whether two words are different. None where they are one expression.
pub(crate) fn words_apart(
    arena: &mut Arena,
    left: ExprId,
    right: ExprId,
) -> Result<Option<ExprId>, AllocError>
    requires left { HasWidth arena.old left.0 32 }
    requires right { HasWidth arena.old right.0 32 }
    ensures apart { IfOk result (TellsApart arena.new left right) }
    ensures extends { Extends arena.old arena.new 1 }
    ensures no_input { AddsNoInput arena.old arena.new }
{
    if left == right {
        return Ok(None);
    }
    let apart = arena.test(Cond::Ne, left, right)?;
    Ok(Some(apart))
}

/// Whether two bits are different. None where they are one expression.
pub(crate) fn bits_apart(
    arena: &mut Arena,
    left: ExprId,
    right: ExprId,
) -> Result<Option<ExprId>, AllocError>
    requires left { HasWidth arena.old left.0 1 }
    requires right { HasWidth arena.old right.0 1 }
    ensures apart { IfOk result (TellsApart arena.new left right) }
    ensures extends { Extends arena.old arena.new 2 }
    ensures no_input { AddsNoInput arena.old arena.new }
{
    if left == right {
        return Ok(None);
    }
    let other = arena.not(right)?;
    let apart = arena.pick(left, other, right)?;
    arena.law();
    Ok(Some(apart))
}
