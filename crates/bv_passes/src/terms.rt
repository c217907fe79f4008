//! What nodes add, take away and turn.

ghost use Rattle.std.specs.Prelude.{◌≡◌, ℕ, ◌<◌, length, Some, IfSome};
ghost use Rattle.ct_words.specs.Words.{alu_value};
ghost use Rattle.ct_words.specs.declared.alu_op.AluOp.TheVariants.{Add, Sub, Xor};
ghost use Rattle.bv_expr.specs.Nodes.{HasWidth, IsValuation};
ghost use Rattle.bv_passes.specs.Adding.{less, lessened, added_to, turned, negated, seen};

use crate::constants::is_number;
use bv_expr::{Arena, ExprId, QNode};
use ct_words::AluOp;

// p, where a node is p - y.
pub fn less(arena: &Arena, at: usize, y: usize) -> Option<usize>
    requires { at < length arena.now }
    ensures seen { result ≡ seen arena.now (less y) at }
    ensures word { IfSome result (λ p. HasWidth arena.now p 32) }
    ensures value { IfSome result (λ p. (env v : ℕ → ℕ) → IsValuation env v arena.now → v at ≡ alu_value Sub (v p) (v y)) }
{
    match arena.node(ExprId(at)) {
        QNode::Alu {
            op: AluOp::Sub,
            a,
            b,
        } if b == y => Some(a),
        _ => None,
    }
}

// q, where a node is x - q.
pub fn lessened(arena: &Arena, at: usize, x: usize) -> Option<usize>
    requires { at < length arena.now }
    ensures seen { result ≡ seen arena.now (lessened x) at }
    ensures word { IfSome result (λ q. HasWidth arena.now q 32) }
    ensures value { IfSome result (λ q. (env v : ℕ → ℕ) → IsValuation env v arena.now → v at ≡ alu_value Sub (v x) (v q)) }
{
    match arena.node(ExprId(at)) {
        QNode::Alu {
            op: AluOp::Sub,
            a,
            b,
        } if a == x => Some(b),
        _ => None,
    }
}

// p, where a node is p + y or y + p.
pub fn added_to(arena: &Arena, at: usize, y: usize) -> Option<usize>
    requires { at < length arena.now }
    ensures seen { result ≡ seen arena.now (added_to y) at }
    ensures word { IfSome result (λ p. HasWidth arena.now p 32) }
    ensures value { IfSome result (λ p. (env v : ℕ → ℕ) → IsValuation env v arena.now → v at ≡ alu_value Add (v p) (v y)) }
{
    match arena.node(ExprId(at)) {
        QNode::Alu {
            op: AluOp::Add,
            a,
            b,
        } => {
            if b == y {
                Some(a)
            } else if a == y {
                Some(b)
            } else {
                None
            }
        }
        _ => None,
    }
}

// p, where a node is p xor y or y xor p.
pub fn turned(arena: &Arena, at: usize, y: usize) -> Option<usize>
    requires { at < length arena.now }
    ensures seen { result ≡ seen arena.now (turned y) at }
    ensures word { IfSome result (λ p. HasWidth arena.now p 32) }
    ensures value { IfSome result (λ p. (env v : ℕ → ℕ) → IsValuation env v arena.now → v at ≡ alu_value Xor (v p) (v y)) }
{
    match arena.node(ExprId(at)) {
        QNode::Alu {
            op: AluOp::Xor,
            a,
            b,
        } => {
            if b == y {
                Some(a)
            } else if a == y {
                Some(b)
            } else {
                None
            }
        }
        _ => None,
    }
}

// q, where a node is 0 - q.
pub fn negated(arena: &Arena, at: usize) -> Option<usize>
    requires { at < length arena.now }
    ensures seen { result ≡ seen arena.now (negated arena.now) at }
    ensures word { IfSome result (λ q. HasWidth arena.now q 32) }
    ensures value { IfSome result (λ q. (env v : ℕ → ℕ) → IsValuation env v arena.now → v at ≡ alu_value Sub 0 (v q)) }
{
    match arena.node(ExprId(at)) {
        QNode::Alu {
            op: AluOp::Sub,
            a,
            b,
        } if is_number(arena, a, Some(0)) => Some(b),
        _ => None,
    }
}
