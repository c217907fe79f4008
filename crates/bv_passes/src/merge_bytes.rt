//! The pass over bytes that are taken of a word and joined again.

ghost use Rattle.std.specs.Prelude.{◌≡◌, ◌↔◌, ℕ, ◌<◌, length, Some, None, slice_get, IfOk, OnErr, IfSome, IsTrue};
ghost use Rattle.bv_expr.specs.Nodes.{HasWidth, IsValuation, joined_bytes, byte_at};
ghost use Rattle.bv_expr.specs.declared.q_node.QNode.TheVariants.{Join};
ghost use Rattle.bv_expr.specs.Folding.{constant_in};
ghost use Rattle.bv_expr.specs.Growth.{Extends, AddsNoInput};
ghost use Rattle.bv_passes.specs.Answering.{IsAnswer};
ghost use Rattle.bv_passes.specs.Counting.{counted};
ghost use Rattle.bv_passes.specs.Rewriting.{IsRight, IsOther, IsByTable};
ghost use Rattle.bv_passes.specs.Bytes.{word_at, joined_again, member_of, bytes_table, is_word};

use crate::changes::counted;
use crate::pass::{MOST_NEW, Pass};
use crate::rewrite::Rewrite;
use bv_expr::{Arena, ExprId, QNode};
use std::alloc::{AllocError, Global};
use std::marker::Model;

/// Gives a word for its own bytes joined again, and a member for a byte of joined bytes.
#[derive(Drop)]
pub struct MergeBytes {
    changes: u64,
}

impl Model for MergeBytes {
    ghost use Rattle.std.specs.Prelude.{ℕ};

    ghost Value = { ℕ };

    ghost view = { λ pass. pass.changes };
}

// The word of which a node is the byte at this place.
fn word_at(arena: &Arena, at: usize, place: u32) -> Option<usize>
    requires { at < length arena.now }
    ensures word { result ≡ word_at arena.now at place }
    ensures width { IfSome result (λ word. HasWidth arena.now word 32) }
    ensures value { IfSome result (λ word. (env v : ℕ → ℕ) → IsValuation env v arena.now → v at ≡ byte_at (v word) place) }
    ensures earlier { IfSome result (λ word. word < at) }
{
    arena.law();
    match arena.node(ExprId(at)) {
        QNode::Byte { of, index } if index == place => Some(of),
        _ => None,
    }
}

// Whether a node is the byte of a word at this place.
fn is_byte_of(arena: &Arena, at: usize, place: u32, word: usize) -> bool
    requires { at < length arena.now }
    ensures test { result ≡ is_word word (word_at arena.now at place) }
    ensures value { IsTrue result → (env v : ℕ → ℕ) → IsValuation env v arena.now → v at ≡ byte_at (v word) place }
{
    match word_at(arena, at, place) {
        Some(other) => other == word,
        None => false,
    }
}

// What the table says of four bytes joined.
fn joined_again(arena: &Arena, b0: usize, b1: usize, b2: usize, b3: usize) -> Rewrite
    requires byte0 { b0 < length arena.now }
    requires byte1 { b1 < length arena.now }
    requires byte2 { b2 < length arena.now }
    requires byte3 { b3 < length arena.now }
    ensures table { result ≡ joined_again arena.now b0 b1 b2 b3 }
    ensures right { IsRight arena.now 32 (λ v. joined_bytes (v b0) (v b1) (v b2) (v b3)) result }
    ensures other { (i : ℕ) → b0 < i → IsOther arena.now i result }
{
    arena.law();
    match word_at(arena, b0, 0) {
        Some(word)
            if is_byte_of(arena, b1, 1, word)
                && is_byte_of(arena, b2, 2, word)
                && is_byte_of(arena, b3, 3, word) => { Rewrite::Old(word) }
        _ => Rewrite::Keep,
    }
}

// The member of four joined bytes at this place.
fn member(arena: &Arena, index: u32, b0: usize, b1: usize, b2: usize, b3: usize) -> Rewrite
    requires place { index < 4 }
    requires byte0 { HasWidth arena.now b0 8 }
    requires byte1 { HasWidth arena.now b1 8 }
    requires byte2 { HasWidth arena.now b2 8 }
    requires byte3 { HasWidth arena.now b3 8 }
    ensures table { result ≡ member_of index (Join b0 b1 b2 b3) }
    ensures right { IsRight arena.now 8 (λ v. byte_at (joined_bytes (v b0) (v b1) (v b2) (v b3)) index) result }
    ensures other { (i : ℕ) → b0 < i → b1 < i → b2 < i → b3 < i → IsOther arena.now i result }
{
    arena.law();
    match index {
        0 => Rewrite::Old(b0),
        1 => Rewrite::Old(b1),
        2 => Rewrite::Old(b2),
        _ => Rewrite::Old(b3),
    }
}

impl MergeBytes {
    /// A pass that has changed nothing so far.
    pub fn new(_alloc: Global) -> Result<MergeBytes, AllocError>
        ensures { IfOk result (λ pass. pass ≡ 0) }
    {
        Ok(MergeBytes { changes: 0 })
    }

    // What the table says of an expression.
    fn said(arena: &Arena, id: ExprId, width: u32) -> Rewrite
        requires { HasWidth arena.now id.0 width }
        ensures table { result ≡ bytes_table arena.now id.0 }
        ensures right { IsRight arena.now width (λ v. v id.0) result }
        ensures other { IsOther arena.now id.0 result }
    {
        arena.law();
        match arena.node(id) {
            QNode::Join { b0, b1, b2, b3 } => joined_again(arena, b0, b1, b2, b3),
            QNode::Byte { of, index } => match arena.node(ExprId(of)) {
                QNode::Join { b0, b1, b2, b3 } => member(arena, index, b0, b1, b2, b3),
                _ => Rewrite::Keep,
            },
            _ => Rewrite::Keep,
        }
    }
}

impl Pass for MergeBytes {
    ghost count = { λ pass. pass };

    fn apply(&mut self, arena: &mut Arena, id: ExprId) -> Result<ExprId, AllocError>
        requires inside { id.0 < length arena.old }
        requires varies { constant_in arena.old id.0 ≡ None }
        ensures answer { IfOk result (λ answer. IsAnswer arena.old arena.new id.0 answer.0) }
        ensures table { IfOk result (λ answer. IsByTable arena.old arena.new id.0 (bytes_table arena.old id.0) answer.0) }
        ensures extends { Extends arena.old arena.new MOST_NEW }
        ensures no_input { AddsNoInput arena.old arena.new }
        ensures counts { IfOk result (λ answer. self.new ≡ counted id.0 answer.0 self.old) }
        ensures refused { OnErr result (self.new ≡ self.old) }
    {
        let width = arena.width(id);
        let answer = MergeBytes::said(arena, id, width).made(arena, id, width)?;
        self.changes = counted(self.changes, id, answer);
        Ok(answer)
    }

    fn changed(&self) -> u64
        ensures { result ≡ self.now }
    {
        self.changes
    }
}
