//! The pass over expressions whose value is known.

ghost use Rattle.std.specs.Prelude.{◌≡◌, ◌≢◌, ◌↔◌, ℕ, ◌<◌, ◌+◌, length, Some, None, slice_get, IfOk, OnOk, OnErr, IsTrue, nat_eq};
ghost use Rattle.indexmap.specs.IndexSet.{insert_all};
ghost use Rattle.bv_expr.specs.Nodes.{HasWidth};
ghost use Rattle.bv_expr.specs.Walk.{operands_of_node};
ghost use Rattle.bv_expr.specs.Folding.{constant_in};
ghost use Rattle.bv_expr.specs.Growth.{Extends, AddsNoInput};
ghost use Rattle.bv_expr.specs.declared.q_node.QNode.TheVariants.{Constant};
ghost use Rattle.bv_range.specs.Fixed.{fixed_of};
ghost use Rattle.bv_passes.specs.Answering.{IsAnswer};
ghost use Rattle.bv_passes.specs.Counting.{counted};
ghost use Rattle.bv_passes.specs.Rewriting.{IsRight, IsKeepOrNumber};
ghost use Rattle.bv_passes.specs.Knowing.{HasFewNodes, AreAllFixed, IsFixedAnswer, IsLooking};
ghost use Rattle.bv_passes.specs.declared.rewrite.Rewrite.TheVariants.{Keep, Number};

use crate::changes::counted;
use crate::pass::{MOST_NEW, Pass};
use crate::rewrite::Rewrite;
use bv_expr::{Arena, ExprId, QNode};
use bv_range::{Ranges, fixed_law};
use indexmap::IndexSet;
use std::alloc::{AllocError, Global};
use std::marker::Model;

/// How many nodes a call of `KnownBits` looks at, at most.
pub const MOST_LOOKED: usize = 32;

/// Gives the constant for an expression whose range holds one number. The ranges are found anew
/// at each call, so an expression of more than 32 nodes, its own and those on which it depends,
/// stays as it is: without this limit, calls for all n nodes of a chain would take n² steps.
#[derive(Drop)]
pub struct KnownBits {
    changes: u64,
    alloc: Global,
}

impl Model for KnownBits {
    ghost use Rattle.std.specs.Prelude.{ℕ};

    ghost Value = { ℕ };

    ghost view = { λ pass. pass.changes };
}

// Notes the operands of a node, each once.
fn note_operands(node: QNode, seen: &mut IndexSet<usize>) -> Result<(), AllocError>
    ensures { OnOk result (seen.new.keys ≡ insert_all nat_eq seen.old.keys (operands_of_node node)) }
{
    match node {
        QNode::Constant { .. } | QNode::Input { .. } => {}
        QNode::Alu { a, b, .. } | QNode::Test { a, b, .. } | QNode::Both { a, b } => {
            seen.insert(a)?;
            seen.insert(b)?;
        }
        QNode::Not { a } | QNode::Byte { of: a, .. } => {
            seen.insert(a)?;
        }
        QNode::Pick { when, yes, no } => {
            seen.insert(when)?;
            seen.insert(yes)?;
            seen.insert(no)?;
        }
        QNode::Join { b0, b1, b2, b3 } => {
            seen.insert(b0)?;
            seen.insert(b1)?;
            seen.insert(b2)?;
            seen.insert(b3)?;
        }
    }
    Ok(())
}

// Looks at the next of the nodes that are seen.
fn look(
    arena: &Arena,
    id: ExprId,
    seen: &mut IndexSet<usize>,
    looked: usize,
) -> Result<(), AllocError>
    requires next { looked < length seen.old.keys }
    requires looking { IsLooking arena.now id.0 seen.old.keys looked }
    ensures { OnOk result (IsLooking arena.now id.0 seen.new.keys (looked + 1)) }
{
    arena.law();
    let at = seen.as_slice()[looked];
    note_operands(arena.node(ExprId(at)), seen)?;
    Ok(())
}

// Whether an expression depends on few nodes.
fn has_few_nodes(alloc: Global, arena: &Arena, id: ExprId) -> Result<bool, AllocError>
    requires { id.0 < length arena.now }
    ensures { IfOk result (λ few. IsTrue few ↔ HasFewNodes arena.now MOST_LOOKED id.0) }
{
    let mut seen = IndexSet::new(alloc);
    seen.insert(id.0)?;
    for looked in 0..MOST_LOOKED {
        if looked >= seen.len() {
            return Ok(true);
        }
        if seen.len() > MOST_LOOKED {
            return Ok(false);
        }
        look(arena, id, &mut seen, looked)?;
    }
    Ok(seen.len() <= MOST_LOOKED)
}

// What is said of an expression, from its range.
fn known(alloc: Global, arena: &Arena, id: ExprId, width: u32) -> Result<Rewrite, AllocError>
    requires { HasWidth arena.now id.0 width }
    ensures kind { IfOk result IsKeepOrNumber }
    ensures right { IfOk result (λ rewrite. IsRight arena.now width (λ v. v id.0) rewrite) }
    ensures fixed { IfOk result (λ rewrite. AreAllFixed width (fixed_of arena.now id.0) → rewrite ≡ Number (fixed_of arena.now id.0).ones) }
{
    arena.law();
    fixed_law(arena);
    let mut ranges = Ranges::new(alloc)?;
    let range = ranges.of(arena, id)?;
    if range.least == range.most {
        Ok(Rewrite::Number(range.least))
    } else {
        Ok(Rewrite::Keep)
    }
}

impl KnownBits {
    /// A pass that has changed nothing so far.
    pub fn new(alloc: Global) -> Result<KnownBits, AllocError>
        ensures { IfOk result (λ pass. pass ≡ 0) }
    {
        Ok(KnownBits { changes: 0, alloc })
    }

    // What is said of an expression.
    fn said(alloc: Global, arena: &Arena, id: ExprId, width: u32) -> Result<Rewrite, AllocError>
        requires { HasWidth arena.now id.0 width }
        ensures kind { IfOk result IsKeepOrNumber }
        ensures right { IfOk result (λ rewrite. IsRight arena.now width (λ v. v id.0) rewrite) }
        ensures many { IfOk result (λ rewrite. (HasFewNodes arena.now MOST_LOOKED id.0 → ⊥) → rewrite ≡ Keep) }
        ensures fixed { IfOk result (λ rewrite. HasFewNodes arena.now MOST_LOOKED id.0 → AreAllFixed width (fixed_of arena.now id.0) → rewrite ≡ Number (fixed_of arena.now id.0).ones) }
    {
        if has_few_nodes(alloc, arena, id)? {
            known(alloc, arena, id, width)
        } else {
            Ok(Rewrite::Keep)
        }
    }
}

impl Pass for KnownBits {
    ghost count = { λ pass. pass };

    fn apply(&mut self, arena: &mut Arena, id: ExprId) -> Result<ExprId, AllocError>
        requires inside { id.0 < length arena.old }
        requires varies { constant_in arena.old id.0 ≡ None }
        ensures answer { IfOk result (λ answer. IsAnswer arena.old arena.new id.0 answer.0) }
        ensures constant { IfOk result (λ answer. answer.0 ≢ id.0 → (w : ℕ) → HasWidth arena.old id.0 w → (x : ℕ) × (slice_get arena.new answer.0 ≡ Some (Constant w x))) }
        ensures many { IfOk result (λ answer. (HasFewNodes arena.old MOST_LOOKED id.0 → ⊥) → answer.0 ≡ id.0) }
        ensures fixed { IfOk result (λ answer. IsFixedAnswer arena.old arena.new MOST_LOOKED id.0 answer.0) }
        ensures extends { Extends arena.old arena.new MOST_NEW }
        ensures one { Extends arena.old arena.new 1 }
        ensures no_input { AddsNoInput arena.old arena.new }
        ensures counts { IfOk result (λ answer. self.new ≡ counted id.0 answer.0 self.old) }
        ensures refused { OnErr result (self.new ≡ self.old) }
    {
        let width = arena.width(id);
        let said = KnownBits::said(self.alloc, arena, id, width)?;
        let answer = said.made(arena, id, width)?;
        self.changes = counted(self.changes, id, answer);
        Ok(answer)
    }

    fn changed(&self) -> u64
        ensures { result ≡ self.now }
    {
        self.changes
    }
}
