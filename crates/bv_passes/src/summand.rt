//! Words as sums with a number.

ghost use Rattle.std.specs.Prelude.{◌≡◌, ℕ, ◌<◌, length, Some, slice_get};
ghost use Rattle.std.specs.Option.{option_map_or};
ghost use Rattle.bv_expr.specs.Folding.{constant_in};
ghost use Rattle.ct_words.specs.Words.{alu_value};
ghost use Rattle.ct_words.specs.declared.alu_op.AluOp.TheVariants.{Add, Sub};
ghost use Rattle.bv_expr.specs.Nodes.{HasWidth, IsValuation, AreBytes};
ghost use Rattle.bv_expr.specs.declared.q_node.QNode.TheVariants.{Alu};
ghost use Rattle.bv_passes.specs.Adding.{with_added, operation_parts, parts_at, rest_value, IsWordOrNone, IsSummand};

use crate::constants::constant_at;
use bv_expr::{Arena, ExprId, QNode};
use ct_words::AluOp;

/// A word as an expression, if there is one, and a number that is added to it.
#[derive(Clone, Copy, Debug, PartialEq, Eq)]
pub struct Summand {
    pub rest: Option<usize>,
    pub number: u32,
}

impl Summand {
    // A sum whose right side is no number.
    fn of_left(arena: &Arena, at: usize, a: usize, b: usize) -> Summand
        requires node { slice_get arena.now at ≡ Some (Alu Add a b) }
        requires width { HasWidth arena.now at 32 }
        requires left { HasWidth arena.now a 32 }
        requires right { HasWidth arena.now b 32 }
        ensures parts { result ≡ option_map_or (with_added b) (constant_in arena.now a) (with_added at 0) }
        ensures right { IsSummand arena.now (λ v. v at) result }
    {
        arena.law();
        match constant_at(arena, a) {
            Some(number) => Summand {
                rest: Some(b),
                number,
            },
            None => Summand {
                rest: Some(at),
                number: 0,
            },
        }
    }

    // A sum.
    fn of_sum(arena: &Arena, at: usize, a: usize, b: usize) -> Summand
        requires node { slice_get arena.now at ≡ Some (Alu Add a b) }
        requires width { HasWidth arena.now at 32 }
        requires left { HasWidth arena.now a 32 }
        requires right { HasWidth arena.now b 32 }
        ensures parts { result ≡ operation_parts arena.now at Add a b }
        ensures right { IsSummand arena.now (λ v. v at) result }
    {
        match constant_at(arena, b) {
            Some(number) => Summand {
                rest: Some(a),
                number,
            },
            None => Summand::of_left(arena, at, a, b),
        }
    }

    // A difference.
    fn of_difference(arena: &Arena, at: usize, a: usize, b: usize) -> Summand
        requires node { slice_get arena.now at ≡ Some (Alu Sub a b) }
        requires width { HasWidth arena.now at 32 }
        requires left { HasWidth arena.now a 32 }
        requires right { HasWidth arena.now b 32 }
        ensures parts { result ≡ operation_parts arena.now at Sub a b }
        ensures right { IsSummand arena.now (λ v. v at) result }
    {
        arena.law();
        match constant_at(arena, b) {
            Some(number) => Summand {
                rest: Some(a),
                number: 0u32.wrapping_sub(number),
            },
            None => Summand {
                rest: Some(at),
                number: 0,
            },
        }
    }

    // An operation.
    fn of_operation(arena: &Arena, at: usize, op: AluOp, a: usize, b: usize) -> Summand
        requires node { slice_get arena.now at ≡ Some (Alu op a b) }
        requires width { HasWidth arena.now at 32 }
        requires left { HasWidth arena.now a 32 }
        requires right { HasWidth arena.now b 32 }
        ensures parts { result ≡ operation_parts arena.now at op a b }
        ensures right { IsSummand arena.now (λ v. v at) result }
    {
        arena.law();
        match op {
            AluOp::Add => Summand::of_sum(arena, at, a, b),
            AluOp::Sub => Summand::of_difference(arena, at, a, b),
            _ => Summand {
                rest: Some(at),
                number: 0,
            },
        }
    }

    // A word as an expression and a number that is added to it.
    pub(crate) fn of(arena: &Arena, at: usize) -> Summand
        requires { HasWidth arena.now at 32 }
        ensures parts { result ≡ parts_at arena.now at }
        ensures right { IsSummand arena.now (λ v. v at) result }
    {
        arena.law();
        match arena.node(ExprId(at)) {
            QNode::Constant { value, .. } => Summand {
                rest: None,
                number: value,
            },
            QNode::Alu { op, a, b } => Summand::of_operation(arena, at, op, a, b),
            _ => Summand {
                rest: Some(at),
                number: 0,
            },
        }
    }
}
