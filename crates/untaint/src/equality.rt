//! Two expressions that are kept as equal.

ghost use Rattle.std.specs.Prelude.{◌≡◌};
ghost use Rattle.untaint.specs.Kept.{equality};

use bv_expr::ExprId;

/// Two expressions that are kept as equal, the earlier one first.
#[derive(Clone, Copy, Debug, PartialEq, Eq, Hash)]
pub struct Equality {
    pub left: ExprId,
    pub right: ExprId,
}

impl Equality {
    /// The equality of two expressions, in whichever order they come.
    pub fn of(a: ExprId, b: ExprId) -> Equality
        ensures { result ≡ equality a.0 b.0 }
    {
        if b.0 < a.0 {
            Equality { left: b, right: a }
        } else {
            Equality { left: a, right: b }
        }
    }
}
