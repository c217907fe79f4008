//! Bits that are the same under every valuation.

ghost use Rattle.std.specs.Prelude.{◌≡◌, ℕ, ◌<◌, IfOk, IfSome, IsSome};
ghost use Rattle.ct_words.specs.Words.{flag};
ghost use Rattle.bv_expr.specs.Nodes.{HasWidth};
ghost use Rattle.bv_expr.specs.Folding.{constant_in};
ghost use Rattle.bv_range.specs.Known.{IsWithin};
ghost use Rattle.bv_range.specs.Remembered.{AreRight};
ghost use Rattle.rel_step.specs.Runs.{Always};

use bv_expr::{Arena, ExprId, QNode};
use bv_range::{Range, Ranges};
use std::alloc::AllocError;

/// The bit that is in a range alone.
fn bit_in(range: Range) -> Option<bool>
    ensures { IfSome result (λ bit. (x : ℕ) → x < 2 → IsWithin range x → x ≡ flag bit) }
{
    if range.most == 0 {
        Some(false)
    } else if range.least >= 1 {
        Some(true)
    } else {
        None
    }
}

/// The bit that an expression is under every valuation, where it is a constant or its range says so.
pub(crate) fn settled(
    arena: &Arena,
    ranges: &mut Ranges,
    asked: ExprId,
) -> Result<Option<bool>, AllocError>
    requires bit { HasWidth arena.now asked.0 1 }
    requires ranges { AreRight arena.now ranges.old }
    ensures right { IfOk result (λ known. IfSome known (λ bit. Always arena.now (λ v. v asked.0 ≡ flag bit))) }
    ensures constant { IfOk result (λ known. IsSome (constant_in arena.now asked.0) → IsSome known) }
    ensures ranges { AreRight arena.now ranges.new }
{
    arena.law();
    match arena.node(asked) {
        QNode::Constant { width: _, value } => Ok(Some(value == 1)),
        _ => {
            let range = ranges.of(arena, asked)?;
            Ok(bit_in(range))
        }
    }
}
