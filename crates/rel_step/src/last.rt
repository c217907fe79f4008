//! What a node keeps of its next step.

ghost use Rattle.std.specs.Prelude.{◌≡◌};

use crate::planned::Moved;
use crate::stride::NextIf;
use bv_expr::ExprId;
use ct_rows::Row;

/// What is kept of a next step until it is followed.
#[derive(Debug, Drop)]
pub(crate) struct Last {
    /// Whether the runs show the same: one bit. None where they always do.
    pub equal: Option<ExprId>,
    pub nexts: Row<NextIf>,
    pub target: Option<ExprId>,
    pub moved: Moved,
}

/// Keeps another step, or none.
pub(crate) fn hold_last(slot: &mut Option<Last>, last: Option<Last>)
    ensures { slot.new ≡ last }
{
    *slot = last;
}
