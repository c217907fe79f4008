//! The expressions that tables ask for.

ghost use Rattle.std.specs.Prelude.{◌≡◌, ℕ, ◌<◌, ◌^◌, length, Some, None, slice_get, IfOk};
ghost use Rattle.ct_words.specs.Words.{alu_value};
ghost use Rattle.ct_words.specs.declared.alu_op.AluOp.TheVariants.{Add};
ghost use Rattle.bv_expr.specs.Nodes.{IsValuation, AreBytes, HasWidth};
ghost use Rattle.bv_expr.specs.Typing.{IsWidth};
ghost use Rattle.bv_expr.specs.Growth.{Extends, AddsNoInput};
ghost use Rattle.bv_expr.specs.Folding.{alu_node, constant_in};
ghost use Rattle.bv_expr.specs.declared.q_node.QNode.TheVariants.{Constant};
ghost use Rattle.bv_passes.specs.Answering.{IsAnswer};
ghost use Rattle.bv_passes.specs.Rewriting.{IsRight, IsSaid, IsWord, IsOperand, IsKeepOrNumber, operand_value};

use crate::rewrite::{Operand, Rewrite};
use bv_expr::{Arena, ExprId, WORD};
use ct_words::AluOp;
use std::alloc::AllocError;

impl Operand {
    // The operand as an expression.
    fn made(self, arena: &mut Arena) -> Result<ExprId, AllocError>
        requires { IsWord arena.old self }
        ensures width { IfOk result (λ id. HasWidth arena.new id.0 32) }
        ensures value { IfOk result (λ id. (env v : ℕ → ℕ) → IsValuation env v arena.new → v id.0 ≡ operand_value v self) }
        ensures node { IfOk result (λ id. IsOperand arena.new self id.0) }
        ensures extends { Extends arena.old arena.new 1 }
        ensures no_input { AddsNoInput arena.old arena.new }
    {
        match self {
            Operand::Node(id) => Ok(ExprId(id)),
            Operand::Word(number) => arena.constant(WORD, number),
        }
    }
}

// An operation on two words.
fn operation(arena: &mut Arena, op: AluOp, a: Operand, b: Operand) -> Result<ExprId, AllocError>
    requires left { IsWord arena.old a }
    requires right { IsWord arena.old b }
    ensures width { IfOk result (λ id. HasWidth arena.new id.0 32) }
    ensures value { IfOk result (λ id. (env v : ℕ → ℕ) → IsValuation env v arena.new → v id.0 ≡ alu_value op (operand_value v a) (operand_value v b)) }
    ensures node { IfOk result (λ id. (k : ℕ) × (m : ℕ) × IsOperand arena.new a k × IsOperand arena.new b m × (slice_get arena.new id.0 ≡ Some (alu_node arena.new op k m))) }
    ensures extends { Extends arena.old arena.new 3 }
    ensures no_input { AddsNoInput arena.old arena.new }
{
    let left = a.made(arena)?;
    let right = b.made(arena)?;
    arena.alu(op, left, right)
}

// An operation on two expressions, with a number added.
fn raised(arena: &mut Arena, op: AluOp, a: usize, b: usize, by: u32) -> Result<ExprId, AllocError>
    requires left { HasWidth arena.old a 32 }
    requires right { HasWidth arena.old b 32 }
    ensures width { IfOk result (λ id. HasWidth arena.new id.0 32) }
    ensures value { IfOk result (λ id. (env v : ℕ → ℕ) → IsValuation env v arena.new → v id.0 ≡ alu_value Add (alu_value op (v a) (v b)) by) }
    ensures node { IfOk result (λ id. (k : ℕ) × (m : ℕ) × (slice_get arena.new k ≡ Some (alu_node arena.new op a b)) × (slice_get arena.new m ≡ Some (Constant 32 by)) × (slice_get arena.new id.0 ≡ Some (alu_node arena.new Add k m))) }
    ensures extends { Extends arena.old arena.new 3 }
    ensures no_input { AddsNoInput arena.old arena.new }
{
    let sum = arena.alu(op, ExprId(a), ExprId(b))?;
    let number = arena.constant(WORD, by)?;
    arena.alu(AluOp::Add, sum, number)
}

impl Rewrite {
    // The expression that a table says in the place of another of this width.
    pub(crate) fn made(
        self,
        arena: &mut Arena,
        id: ExprId,
        width: u32,
    ) -> Result<ExprId, AllocError>
        requires width { HasWidth arena.old id.0 width }
        requires known { IsWidth width }
        requires right { IsRight arena.old width (λ v. v id.0) self }
        ensures answer { IfOk result (λ answer. IsAnswer arena.old arena.new id.0 answer.0) }
        ensures said { IfOk result (λ answer. IsSaid arena.new id.0 width self answer.0) }
        ensures extends { Extends arena.old arena.new 4 }
        ensures one { IsKeepOrNumber self → Extends arena.old arena.new 1 }
        ensures no_input { AddsNoInput arena.old arena.new }
    {
        match self {
            Rewrite::Keep => Ok(id),
            Rewrite::Old(other) => Ok(ExprId(other)),
            Rewrite::Number(number) => arena.constant(width, number),
            Rewrite::Operation { op, a, b } => operation(arena, op, a, b),
            Rewrite::Raised { op, a, b, by } => raised(arena, op, a, b, by),
        }
    }
}
