//! The outermost operation of an expression.

ghost use Rattle.std.specs.Prelude.{◌≡◌, ◌<◌, length};
ghost use Rattle.bv_expr.specs.Folding.{constant_in};
ghost use Rattle.untaint.specs.Outer.{sum_outermost, xor_outermost, difference_outermost, operation_outermost, outermost_at};

use bv_expr::{Arena, ExprId, QNode};
use ct_words::{AluOp, alu};

/// An expression by its outermost operation, where that can be undone: the number in it, and the expression below.
#[derive(Clone, Copy, Debug)]
pub(crate) enum Outermost {
    /// The other bit.
    Not(usize),
    /// The sum with a number.
    Sum(u32, usize),
    /// The exclusive or with a number.
    Xor(u32, usize),
    /// A number less the expression, which is its negation where the number is 0.
    Difference(u32, usize),
    /// Any other operation.
    Other,
}

// The value of a constant.
fn constant_at(arena: &Arena, at: usize) -> Option<u32>
    requires { at < length arena.now }
    ensures { result ≡ constant_in arena.now at }
{
    match arena.node(ExprId(at)) {
        QNode::Constant { value, .. } => Some(value),
        _ => None,
    }
}

impl Outermost {
    // A sum, where the operands may be numbers.
    fn of_sum(x: Option<u32>, y: Option<u32>, a: usize, b: usize) -> Outermost
        ensures { result ≡ sum_outermost x y a b }
    {
        match (x, y) {
            (None, Some(number)) => Outermost::Sum(number, a),
            (Some(number), None) => Outermost::Sum(number, b),
            _ => Outermost::Other,
        }
    }

    // An exclusive or, where the operands may be numbers.
    fn of_xor(x: Option<u32>, y: Option<u32>, a: usize, b: usize) -> Outermost
        ensures { result ≡ xor_outermost x y a b }
    {
        match (x, y) {
            (None, Some(number)) => Outermost::Xor(number, a),
            (Some(number), None) => Outermost::Xor(number, b),
            _ => Outermost::Other,
        }
    }

    // A difference, where the operands may be numbers.
    fn of_difference(x: Option<u32>, y: Option<u32>, a: usize, b: usize) -> Outermost
        ensures { result ≡ difference_outermost x y a b }
    {
        match (x, y) {
            (None, Some(number)) => Outermost::Sum(alu(AluOp::Sub, 0, number), a),
            (Some(number), None) => Outermost::Difference(number, b),
            _ => Outermost::Other,
        }
    }

    // An operation on two words.
    fn of_operation(arena: &Arena, op: AluOp, a: usize, b: usize) -> Outermost
        requires left { a < length arena.now }
        requires right { b < length arena.now }
        ensures { result ≡ operation_outermost arena.now op a b }
    {
        let x = constant_at(arena, a);
        let y = constant_at(arena, b);
        match op {
            AluOp::Add => Outermost::of_sum(x, y, a, b),
            AluOp::Xor => Outermost::of_xor(x, y, a, b),
            AluOp::Sub => Outermost::of_difference(x, y, a, b),
            _ => Outermost::Other,
        }
    }

    // An expression by its outermost operation.
    pub(crate) fn of(arena: &Arena, id: ExprId) -> Outermost
        requires { id.0 < length arena.now }
        ensures { result ≡ outermost_at arena.now id.0 }
    {
        match arena.node(id) {
            QNode::Not { a } => Outermost::Not(a),
            QNode::Alu { op, a, b } => Outermost::of_operation(arena, op, a, b),
            _ => Outermost::Other,
        }
    }
}
