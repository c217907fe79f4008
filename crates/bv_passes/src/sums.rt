//! The pass over sums and differences.

ghost use Rattle.std.specs.Prelude.{◌≡◌, ℕ, ◌<◌, length, None, IfOk, OnErr};
ghost use Rattle.ct_words.specs.Words.{alu_value};
ghost use Rattle.ct_words.specs.declared.alu_op.AluOp.TheVariants.{Add, Sub, Xor};
ghost use Rattle.bv_expr.specs.Nodes.{HasWidth};
ghost use Rattle.bv_expr.specs.Folding.{constant_in};
ghost use Rattle.bv_expr.specs.Growth.{Extends, AddsNoInput};
ghost use Rattle.bv_passes.specs.Answering.{IsAnswer};
ghost use Rattle.bv_passes.specs.Counting.{counted};
ghost use Rattle.bv_passes.specs.Rewriting.{IsRight, IsSaid};
ghost use Rattle.bv_passes.specs.Adding.{sum_rewrite, difference_rewrite, xor_rewrite, sums_table};

use crate::body::Body;
use crate::changes::counted;
use crate::pass::{MOST_NEW, Pass};
use crate::rewrite::Rewrite;
use crate::summand::Summand;
use crate::terms::turned;
use bv_expr::{Arena, ExprId, QNode};
use ct_words::AluOp;
use std::alloc::{AllocError, Global};
use std::marker::Model;

/// Joins the numbers of sums, and drops what is added and taken away again. Each side of a sum or
/// a difference is read as an expression and a number (`x + c`, `c + x`, `x - c`, or `c` alone); the
/// numbers are joined and added to what the expressions give:
/// - `(p - y) + y`, `x + (p - x)`, `(p + y) - y` and `(y + p) - y` give `p`, and `x - (x - q)` gives `q`;
/// - `x + (0 - q)` and `(0 - q) + x` are read again as `x - q`, and `x - (0 - q)` is `x + q`;
/// - `x - x` gives 0.
///
/// And `(p xor y) xor y`, in each order, gives `p`. At most three nodes are new.
#[derive(Drop)]
pub struct Sums {
    changes: u64,
}

impl Model for Sums {
    ghost use Rattle.std.specs.Prelude.{ℕ};

    ghost Value = { ℕ };

    ghost view = { λ pass. pass.changes };
}

// What the table says of a sum.
fn sum_rewrite(arena: &Arena, a: usize, b: usize) -> Rewrite
    requires left { HasWidth arena.now a 32 }
    requires right { HasWidth arena.now b 32 }
    ensures table { result ≡ sum_rewrite arena.now a b }
    ensures right { IsRight arena.now 32 (λ v. alu_value Add (v a) (v b)) result }
{
    arena.law();
    let left = Summand::of(arena, a);
    let right = Summand::of(arena, b);
    let body = Body::sum_of(arena, left.rest, right.rest);
    let number = left.number.wrapping_add(right.number);
    body.with_number(number)
}

// What the table says of a difference.
fn difference_rewrite(arena: &Arena, a: usize, b: usize) -> Rewrite
    requires left { HasWidth arena.now a 32 }
    requires right { HasWidth arena.now b 32 }
    ensures table { result ≡ difference_rewrite arena.now a b }
    ensures right { IsRight arena.now 32 (λ v. alu_value Sub (v a) (v b)) result }
{
    arena.law();
    let left = Summand::of(arena, a);
    let right = Summand::of(arena, b);
    let body = Body::difference_of(arena, left.rest, right.rest);
    let number = left.number.wrapping_sub(right.number);
    body.with_number(number)
}

// What the table says of an exclusive or.
fn xor_rewrite(arena: &Arena, a: usize, b: usize) -> Rewrite
    requires left { HasWidth arena.now a 32 }
    requires right { HasWidth arena.now b 32 }
    ensures table { result ≡ xor_rewrite arena.now a b }
    ensures right { IsRight arena.now 32 (λ v. alu_value Xor (v a) (v b)) result }
{
    match (turned(arena, a, b), turned(arena, b, a)) {
        (Some(p), _) => Rewrite::Old(p),
        (None, Some(p)) => Rewrite::Old(p),
        (None, None) => Rewrite::Keep,
    }
}

impl Sums {
    /// A pass that has changed nothing so far.
    pub fn new(_alloc: Global) -> Result<Sums, AllocError>
        ensures { IfOk result (λ pass. pass ≡ 0) }
    {
        Ok(Sums { changes: 0 })
    }

    // What the table says of an expression.
    fn said(arena: &Arena, id: ExprId, width: u32) -> Rewrite
        requires { HasWidth arena.now id.0 width }
        ensures table { result ≡ sums_table arena.now id.0 }
        ensures right { IsRight arena.now width (λ v. v id.0) result }
    {
        arena.law();
        match arena.node(id) {
            QNode::Alu {
                op: AluOp::Add,
                a,
                b,
            } => sum_rewrite(arena, a, b),
            QNode::Alu {
                op: AluOp::Sub,
                a,
                b,
            } => difference_rewrite(arena, a, b),
            QNode::Alu {
                op: AluOp::Xor,
                a,
                b,
            } => xor_rewrite(arena, a, b),
            _ => Rewrite::Keep,
        }
    }
}

impl Pass for Sums {
    ghost count = { λ pass. pass };

    fn apply(&mut self, arena: &mut Arena, id: ExprId) -> Result<ExprId, AllocError>
        requires inside { id.0 < length arena.old }
        requires varies { constant_in arena.old id.0 ≡ None }
        ensures answer { IfOk result (λ answer. IsAnswer arena.old arena.new id.0 answer.0) }
        ensures table { IfOk result (λ answer. (w : ℕ) → HasWidth arena.old id.0 w → IsSaid arena.new id.0 w (sums_table arena.old id.0) answer.0) }
        ensures extends { Extends arena.old arena.new MOST_NEW }
        ensures no_input { AddsNoInput arena.old arena.new }
        ensures counts { IfOk result (λ answer. self.new ≡ counted id.0 answer.0 self.old) }
        ensures refused { OnErr result (self.new ≡ self.old) }
    {
        let width = arena.width(id);
        let answer = Sums::said(arena, id, width).made(arena, id, width)?;
        self.changes = counted(self.changes, id, answer);
        Ok(answer)
    }

    fn changed(&self) -> u64
        ensures { result ≡ self.now }
    {
        self.changes
    }
}
