//! The pass over shifts of shifts.

ghost use Rattle.std.specs.Prelude.{◌≡◌, ℕ, ◌<◌, length, Some, None, slice_get, IfOk, OnErr, IfSome, IsTrue};
ghost use Rattle.std.specs.Option.{option_map_or};
ghost use Rattle.ct_words.specs.Words.{alu_value};
ghost use Rattle.bv_expr.specs.Nodes.{HasWidth, IsValuation};
ghost use Rattle.bv_expr.specs.declared.q_node.QNode.TheVariants.{Alu};
ghost use Rattle.bv_expr.specs.Folding.{constant_in};
ghost use Rattle.bv_expr.specs.Growth.{Extends, AddsNoInput};
ghost use Rattle.bv_passes.specs.Answering.{IsAnswer};
ghost use Rattle.bv_passes.specs.Counting.{counted};
ghost use Rattle.bv_passes.specs.Rewriting.{IsRight, IsOther, IsByTable};
ghost use Rattle.bv_passes.specs.declared.rewrite.Rewrite.TheVariants.{Keep};
ghost use Rattle.bv_passes.specs.Shifting.{amount_in, is_same_way, one_shift, shift_again, shifts_table};

use crate::changes::counted;
use crate::constants::constant_at;
use crate::pass::{MOST_NEW, Pass};
use crate::rewrite::{Operand, Rewrite};
use bv_expr::{Arena, ExprId, QNode, WORD};
use ct_words::AluOp;
use std::alloc::{AllocError, Global};
use std::marker::Model;

/// Gives one shift for a shift of a shift the same way, each by a constant below 32: by the sum
/// of the two where it is below 32, and else 0.
#[derive(Drop)]
pub struct Shifts {
    changes: u64,
}

impl Model for Shifts {
    ghost use Rattle.std.specs.Prelude.{ℕ};

    ghost Value = { ℕ };

    ghost view = { λ pass. pass.changes };
}

// A number of bits to shift by, where a node is a constant below 32.
fn amount_at(arena: &Arena, at: usize) -> Option<u32>
    requires { at < length arena.now }
    ensures amount { result ≡ amount_in arena.now at }
    ensures value { IfSome result (λ n. (env v : ℕ → ℕ) → IsValuation env v arena.now → v at ≡ n) }
    ensures below { IfSome result (λ n. n < 32) }
{
    match constant_at(arena, at) {
        Some(number) if number < WORD => Some(number),
        _ => None,
    }
}

// Whether two operations are shifts the same way.
fn is_same_way(op: AluOp, inner: AluOp) -> bool
    ensures { result ≡ is_same_way op inner }
{
    (op == AluOp::Sll && inner == AluOp::Sll) || (op == AluOp::Srl && inner == AluOp::Srl)
}

// One shift in the place of two.
fn one_shift(op: AluOp, of: usize, inner: u32, outer: u32) -> Rewrite
    requires inner { inner < 32 }
    requires outer { outer < 32 }
    ensures { result ≡ one_shift op of inner outer }
{
    if inner + outer < WORD {
        Rewrite::Operation {
            op,
            a: Operand::Node(of),
            b: Operand::Word(inner + outer),
        }
    } else {
        Rewrite::Number(0)
    }
}

// What the table says of a shift of a node by this number of bits.
fn shift_again(arena: &Arena, op: AluOp, by: u32, at: usize) -> Rewrite
    requires inside { at < length arena.now }
    requires by { by < 32 }
    ensures table { result ≡ option_map_or (shift_again arena.now op by) (slice_get arena.now at) Keep }
    ensures right { IsRight arena.now 32 (λ v. alu_value op (v at) by) result }
    ensures other { (i b : ℕ) → slice_get arena.now i ≡ Some (Alu op at b) → IsOther arena.now i result }
{
    arena.law();
    match arena.node(ExprId(at)) {
        QNode::Alu { op: inner, a, b } if is_same_way(op, inner) => match amount_at(arena, b) {
            Some(amount) => one_shift(op, a, amount, by),
            None => Rewrite::Keep,
        },
        _ => Rewrite::Keep,
    }
}

impl Shifts {
    /// A pass that has changed nothing so far.
    pub fn new(_alloc: Global) -> Result<Shifts, AllocError>
        ensures { IfOk result (λ pass. pass ≡ 0) }
    {
        Ok(Shifts { changes: 0 })
    }

    // What the table says of an expression.
    fn said(arena: &Arena, id: ExprId, width: u32) -> Rewrite
        requires { HasWidth arena.now id.0 width }
        ensures table { result ≡ shifts_table arena.now id.0 }
        ensures right { IsRight arena.now width (λ v. v id.0) result }
        ensures other { IsOther arena.now id.0 result }
    {
        arena.law();
        match arena.node(id) {
            QNode::Alu { op, a, b } => match amount_at(arena, b) {
                Some(amount) => shift_again(arena, op, amount, a),
                None => Rewrite::Keep,
            },
            _ => Rewrite::Keep,
        }
    }
}

impl Pass for Shifts {
    ghost count = { λ pass. pass };

    fn apply(&mut self, arena: &mut Arena, id: ExprId) -> Result<ExprId, AllocError>
        requires inside { id.0 < length arena.old }
        requires varies { constant_in arena.old id.0 ≡ None }
        ensures answer { IfOk result (λ answer. IsAnswer arena.old arena.new id.0 answer.0) }
        ensures table { IfOk result (λ answer. IsByTable arena.old arena.new id.0 (shifts_table arena.old id.0) answer.0) }
        ensures extends { Extends arena.old arena.new MOST_NEW }
        ensures no_input { AddsNoInput arena.old arena.new }
        ensures counts { IfOk result (λ answer. self.new ≡ counted id.0 answer.0 self.old) }
        ensures refused { OnErr result (self.new ≡ self.old) }
    {
        let width = arena.width(id);
        let answer = Shifts::said(arena, id, width).made(arena, id, width)?;
        self.changes = counted(self.changes, id, answer);
        Ok(answer)
    }

    fn changed(&self) -> u64
        ensures { result ≡ self.now }
    {
        self.changes
    }
}
