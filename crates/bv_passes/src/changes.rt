//! The count of a pass.

ghost use Rattle.std.specs.Prelude.{◌≡◌};
ghost use Rattle.bv_passes.specs.Counting.{counted};

use bv_expr::ExprId;

// How many calls gave another expression.
pub fn counted(count: u64, id: ExprId, answer: ExprId) -> u64
    ensures { result ≡ counted id.0 answer.0 count }
{
    if answer.0 == id.0 {
        count
    } else {
        count.saturating_add(1)
    }
}
