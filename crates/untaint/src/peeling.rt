//! Equal operations taken off from both sides of an equality.

ghost use Rattle.std.specs.Prelude.{◌≡◌, IfSome};
ghost use Rattle.untaint.specs.Kept.{IsOf};
ghost use Rattle.untaint.specs.Peeling.{where_equal, inner_of, peeled, ComesOf};

use crate::equality::Equality;
use crate::outermost::Outermost;
use bv_expr::{Arena, ExprId};

// The equality of two expressions, where two numbers are equal.
fn where_equal(x: u32, y: u32, a: usize, b: usize) -> Option<Equality>
    ensures { result ≡ where_equal x y a b }
{
    if x == y {
        Some(Equality::of(ExprId(a), ExprId(b)))
    } else {
        None
    }
}

// The equality of what is below two operations, where these are one and have one number.
fn inner(left: Outermost, right: Outermost) -> Option<Equality>
    ensures { result ≡ inner_of left right }
{
    match (left, right) {
        (Outermost::Not(a), Outermost::Not(b)) => Some(Equality::of(ExprId(a), ExprId(b))),
        (Outermost::Sum(x, a), Outermost::Sum(y, b)) => where_equal(x, y, a, b),
        (Outermost::Xor(x, a), Outermost::Xor(y, b)) => where_equal(x, y, a, b),
        (Outermost::Difference(x, a), Outermost::Difference(y, b)) => where_equal(x, y, a, b),
        _ => None,
    }
}

// What is left of an equality when equal operations are taken off from both sides.
pub(crate) fn peeled(arena: &Arena, one: Equality) -> Option<Equality>
    requires { IsOf arena.now one }
    ensures peeled { result ≡ peeled arena.now one }
    ensures comes { IfSome result (ComesOf arena.now one) }
{
    arena.law();
    inner(
        Outermost::of(arena, one.left),
        Outermost::of(arena, one.right),
    )
}
