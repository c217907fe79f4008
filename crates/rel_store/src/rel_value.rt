//! A value in two runs.

ghost use Rattle.std.specs.Prelude.{◌≡◌, true, false, MatchOption};
ghost use Rattle.rel_store.specs.Sides.{side_id, IsSame};
ghost use Rattle.rel_store.specs.declared.rel_value.RelValue.TheVariants.{Same};

use bv_expr::ExprId;

/// A value in two runs: one expression for both, or the left run's and the right run's.
#[derive(Clone, Copy, Debug, PartialEq, Eq)]
pub enum RelValue {
    Same(ExprId),
    Both(ExprId, ExprId),
}

impl RelValue {
    /// The value of two expressions: one for both runs where they are one expression.
    pub fn of(left: ExprId, right: ExprId) -> RelValue
        ensures left { side_id false result ≡ left.0 }
        ensures right { side_id true result ≡ right.0 }
        ensures same { left.0 ≡ right.0 → IsSame result }
    {
        if left == right {
            RelValue::Same(left)
        } else {
            RelValue::Both(left, right)
        }
    }

    /// The expressions of two values, where each has one for both runs.
    pub fn shared(a: RelValue, b: RelValue) -> Option<(ExprId, ExprId)>
        ensures { MatchOption result (IsSame a → IsSame b → ⊥) (λ ids. (a ≡ Same ids.0) × (b ≡ Same ids.1)) }
    {
        match (a, b) {
            (RelValue::Same(x), RelValue::Same(y)) => Some((x, y)),
            _ => None,
        }
    }

    /// The left run's expression.
    pub fn left(self) -> ExprId
        ensures { result.0 ≡ side_id false self }
    {
        match self {
            RelValue::Same(id) => id,
            RelValue::Both(left, _) => left,
        }
    }

    /// The right run's expression.
    pub fn right(self) -> ExprId
        ensures { result.0 ≡ side_id true self }
    {
        match self {
            RelValue::Same(id) => id,
            RelValue::Both(_, right) => right,
        }
    }
}
