//! The constants among expressions.

ghost use Rattle.std.specs.Prelude.{◌≡◌, ℕ, ◌<◌, ◌^◌, length, IsTrue, IfSome, IsSomeAnd};
ghost use Rattle.bv_expr.specs.Nodes.{IsValuation};
ghost use Rattle.bv_expr.specs.Folding.{constant_in};
ghost use Rattle.bv_passes.specs.Algebra.{is_number};

use bv_expr::{Arena, ExprId, QNode};

// The value of a constant.
pub fn constant_at(arena: &Arena, at: usize) -> Option<u32>
    requires { at < length arena.now }
    ensures constant { result ≡ constant_in arena.now at }
    ensures value { IfSome result (λ x. (env v : ℕ → ℕ) → IsValuation env v arena.now → v at ≡ x) }
{
    match arena.node(ExprId(at)) {
        QNode::Constant { value, .. } => Some(value),
        _ => None,
    }
}

// Whether a node is this number, where there is one.
pub fn is_number(arena: &Arena, at: usize, number: Option<u32>) -> bool
    requires { at < length arena.now }
    ensures test { result ≡ is_number arena.now at number }
    ensures value { IsTrue result → (env v : ℕ → ℕ) → IsValuation env v arena.now → IsSomeAnd number (λ x. v at ≡ x) }
{
    match (constant_at(arena, at), number) {
        (Some(x), Some(y)) => x == y,
        _ => false,
    }
}
