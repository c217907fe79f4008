//! Nodes that are built by their kind.

ghost use Rattle.std.specs.Prelude.{◌≡◌, ◌↔◌, ℕ, ◌<◌, Some, IfOk, IsTrue, MatchOption, length, slice_get};
ghost use Rattle.bv_expr.specs.Typing.{HasOperands};
ghost use Rattle.bv_expr.specs.Growth.{Extends};
ghost use Rattle.bv_expr.specs.declared.q_node.QNode.TheVariants.{Input};
ghost use Rattle.rel_step.specs.Building.{IsBuilt, AddsOnly};

use bv_expr::{Arena, ExprId, QNode};
use std::alloc::AllocError;

/// Whether a node is the input byte with this number.
fn is_input(arena: &Arena, id: usize, variable: usize) -> bool
    requires { id < length arena.now }
    ensures { IsTrue result ↔ (slice_get arena.now id ≡ Some (Input variable)) }
{
    match arena.node(ExprId(id)) {
        QNode::Input { variable: other } => other == variable,
        _ => false,
    }
}

/// The place of an input byte, if it is there.
fn input_at(arena: &Arena, variable: usize) -> Option<ExprId>
    ensures { MatchOption result ((i : ℕ) → slice_get arena.now i ≡ Some (Input variable) → ⊥) (λ id. slice_get arena.now id.0 ≡ Some (Input variable)) }
{
    for i in 0..arena.nodes().len() {
        if is_input(arena, i, variable) {
            return Some(ExprId(i));
        }
    }
    None
}

/// An input byte that isn't there yet.
pub(crate) fn new_input(arena: &mut Arena, variable: usize) -> Result<ExprId, AllocError>
    requires { (i : ℕ) → slice_get arena.old i ≡ Some (Input variable) → ⊥ }
    ensures built { IfOk result (λ id. IsBuilt arena.new id.0 (Input variable)) }
    ensures extends { Extends arena.old arena.new 1 }
    ensures inputs { AddsOnly arena.old arena.new (Input variable) }
{
    let id = arena.input(variable)?;
    Ok(id)
}

/// An input byte.
fn input(arena: &mut Arena, variable: usize) -> Result<ExprId, AllocError>
    ensures built { IfOk result (λ id. IsBuilt arena.new id.0 (Input variable)) }
    ensures extends { Extends arena.old arena.new 1 }
    ensures inputs { AddsOnly arena.old arena.new (Input variable) }
{
    match input_at(arena, variable) {
        Some(id) => Ok(id),
        None => {
            let id = new_input(arena, variable)?;
            Ok(id)
        }
    }
}

/// One node, by its kind: a constant where all its operands are constants.
pub(crate) fn build(arena: &mut Arena, what: QNode) -> Result<ExprId, AllocError>
    requires operands { HasOperands arena.old what }
    ensures built { IfOk result (λ id. IsBuilt arena.new id.0 what) }
    ensures extends { Extends arena.old arena.new 1 }
    ensures inputs { AddsOnly arena.old arena.new what }
{
    arena.law();
    match what {
        QNode::Constant { width, value } => {
            let constant = arena.constant(width, value)?;
            Ok(constant)
        }
        QNode::Input { variable } => {
            let byte = input(arena, variable)?;
            Ok(byte)
        }
        QNode::Alu { op, a, b } => {
            let word = arena.alu(op, ExprId(a), ExprId(b))?;
            Ok(word)
        }
        QNode::Test { cond, a, b } => {
            let bit = arena.test(cond, ExprId(a), ExprId(b))?;
            Ok(bit)
        }
        QNode::Not { a } => {
            let other = arena.not(ExprId(a))?;
            Ok(other)
        }
        QNode::Both { a, b } => {
            let all = arena.both(ExprId(a), ExprId(b))?;
            Ok(all)
        }
        QNode::Pick { when, yes, no } => {
            let choice = arena.pick(ExprId(when), ExprId(yes), ExprId(no))?;
            Ok(choice)
        }
        QNode::Join { b0, b1, b2, b3 } => {
            let joined = arena.join(ExprId(b0), ExprId(b1), ExprId(b2), ExprId(b3))?;
            Ok(joined)
        }
        QNode::Byte { of, index } => {
            let part = arena.byte(ExprId(of), index)?;
            Ok(part)
        }
    }
}
