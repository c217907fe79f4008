//! The pass over operations that have no effect, or one result.

ghost use Rattle.std.specs.Prelude.{◌≡◌, ℕ, ◌<◌, length, Some, None, slice_get, IfOk, OnErr, IfSome, IsTrue};
ghost use Rattle.ct_words.specs.Words.{alu_value};
ghost use Rattle.bv_expr.specs.Nodes.{HasWidth, AreBytes, IsValuation};
ghost use Rattle.bv_expr.specs.Folding.{constant_in};
ghost use Rattle.bv_expr.specs.Growth.{Extends, AddsNoInput};
ghost use Rattle.bv_passes.specs.Answering.{IsAnswer};
ghost use Rattle.bv_passes.specs.Counting.{counted};
ghost use Rattle.bv_passes.specs.Rewriting.{IsRight, IsOther, IsByTable};
ghost use Rattle.bv_passes.specs.Algebra.{right_unit, left_unit, zero_of, cancels, gives_zero, simpler_operation, algebra_table};

use crate::changes::counted;
use crate::constants::is_number;
use crate::pass::{MOST_NEW, Pass};
use crate::rewrite::Rewrite;
use bv_expr::{Arena, ExprId, QNode};
use ct_words::AluOp;
use std::alloc::{AllocError, Global};
use std::marker::Model;

/// Drops operations that have no effect, and gives those that have one result:
/// - `x + 0`, `0 + x`, `x - 0`, `x xor 0`, `0 xor x`, `x or 0`, `0 or x`, `x * 1`, `1 * x`, a
///   shift by 0, `not (not x)` and a choice between equal sides give the one side;
/// - `x and 0`, `0 and x`, `x * 0`, `0 * x`, `x xor x` and `x - x` give 0.
#[derive(Drop)]
pub struct Algebra {
    changes: u64,
}

impl Model for Algebra {
    ghost use Rattle.std.specs.Prelude.{ℕ};

    ghost Value = { ℕ };

    ghost view = { λ pass. pass.changes };
}

// The number which on the right of an operation leaves the other side.
fn right_unit(op: AluOp) -> Option<u32>
    ensures { result ≡ right_unit op }
{
    match op {
        AluOp::Add | AluOp::Sub | AluOp::Xor | AluOp::Or | AluOp::Sll | AluOp::Srl | AluOp::Sra =>
            Some(0),
        AluOp::Mul => Some(1),
        _ => None,
    }
}

// The number which on the left of an operation leaves the other side.
fn left_unit(op: AluOp) -> Option<u32>
    ensures { result ≡ left_unit op }
{
    match op {
        AluOp::Add | AluOp::Xor | AluOp::Or => Some(0),
        AluOp::Mul => Some(1),
        _ => None,
    }
}

// The number which on either side of an operation makes it 0.
fn zero_of(op: AluOp) -> Option<u32>
    ensures { result ≡ zero_of op }
{
    match op {
        AluOp::And | AluOp::Mul => Some(0),
        _ => None,
    }
}

// Whether equal sides make an operation 0.
fn cancels(op: AluOp) -> bool
    ensures { result ≡ cancels op }
{
    matches!(op, AluOp::Xor | AluOp::Sub)
}

// Whether an operation gives 0, as far as the table tells.
fn gives_zero(arena: &Arena, op: AluOp, a: usize, b: usize) -> bool
    requires left { HasWidth arena.now a 32 }
    requires right { HasWidth arena.now b 32 }
    ensures test { result ≡ gives_zero arena.now op a b }
    ensures value { IsTrue result → (env v : ℕ → ℕ) → AreBytes env → IsValuation env v arena.now → 0 ≡ alu_value op (v a) (v b) }
{
    arena.law();
    let zero = zero_of(op);
    if is_number(arena, b, zero) {
        true
    } else if is_number(arena, a, zero) {
        true
    } else if cancels(op) {
        a == b
    } else {
        false
    }
}

// What the table says of an operation.
fn simpler_operation(arena: &Arena, op: AluOp, a: usize, b: usize) -> Rewrite
    requires left { HasWidth arena.now a 32 }
    requires right { HasWidth arena.now b 32 }
    ensures table { result ≡ simpler_operation arena.now op a b }
    ensures right { IsRight arena.now 32 (λ v. alu_value op (v a) (v b)) result }
    ensures other { (i : ℕ) → a < i → b < i → IsOther arena.now i result }
{
    arena.law();
    if is_number(arena, b, right_unit(op)) {
        Rewrite::Old(a)
    } else if is_number(arena, a, left_unit(op)) {
        Rewrite::Old(b)
    } else if gives_zero(arena, op, a, b) {
        Rewrite::Number(0)
    } else {
        Rewrite::Keep
    }
}

impl Algebra {
    /// A pass that has changed nothing so far.
    pub fn new(_alloc: Global) -> Result<Algebra, AllocError>
        ensures { IfOk result (λ pass. pass ≡ 0) }
    {
        Ok(Algebra { changes: 0 })
    }

    // What the table says of an expression.
    fn said(arena: &Arena, id: ExprId, width: u32) -> Rewrite
        requires { HasWidth arena.now id.0 width }
        ensures table { result ≡ algebra_table arena.now id.0 }
        ensures right { IsRight arena.now width (λ v. v id.0) result }
        ensures other { IsOther arena.now id.0 result }
    {
        arena.law();
        match arena.node(id) {
            QNode::Alu { op, a, b } => simpler_operation(arena, op, a, b),
            QNode::Not { a } => match arena.node(ExprId(a)) {
                QNode::Not { a } => Rewrite::Old(a),
                _ => Rewrite::Keep,
            },
            QNode::Pick { yes, no, .. } if yes == no => Rewrite::Old(yes),
            _ => Rewrite::Keep,
        }
    }
}

impl Pass for Algebra {
    ghost count = { λ pass. pass };

    fn apply(&mut self, arena: &mut Arena, id: ExprId) -> Result<ExprId, AllocError>
        requires inside { id.0 < length arena.old }
        requires varies { constant_in arena.old id.0 ≡ None }
        ensures answer { IfOk result (λ answer. IsAnswer arena.old arena.new id.0 answer.0) }
        ensures table { IfOk result (λ answer. IsByTable arena.old arena.new id.0 (algebra_table arena.old id.0) answer.0) }
        ensures extends { Extends arena.old arena.new MOST_NEW }
        ensures no_input { AddsNoInput arena.old arena.new }
        ensures counts { IfOk result (λ answer. self.new ≡ counted id.0 answer.0 self.old) }
        ensures refused { OnErr result (self.new ≡ self.old) }
    {
        let width = arena.width(id);
        let answer = Algebra::said(arena, id, width).made(arena, id, width)?;
        self.changes = counted(self.changes, id, answer);
        Ok(answer)
    }

    fn changed(&self) -> u64
        ensures { result ≡ self.now }
    {
        self.changes
    }
}
