//! The list of all expressions.

use crate::bytes::{byte_of, chosen, joined};
use crate::expr_id::ExprId;
use crate::q_node::QNode;
use crate::values::Values;
use crate::width::{BIT, BYTE, WORD};
use ct_words::{AluOp, Cond, alu, test};
use indexmap::IndexSet;
use std::alloc::{AllocError, Global};
use std::marker::Model;

/// Expressions, each kept once: the same operation on the same operands has the same number.
/// The contracts see an arena as the list of its nodes. Nothing is ever taken out, so what was
/// said of an expression stays true.
#[derive(Drop)]
pub struct Arena {
    nodes: IndexSet<QNode>,
    widths: Vec<u8>,
}

impl Model for Arena {
    ghost use Rattle.std.specs.Prelude.{◌≡◌, List, length, slice_index};
    ghost use Rattle.bv_expr.specs.Nodes.{AreWidths};
    ghost use Rattle.bv_expr.specs.Typing.{IsTyped};
    ghost use Rattle.bv_expr.specs.declared.q_node.QNode.{QNode};

    ghost Value = { List QNode };

    ghost view = { λ arena. arena.nodes.keys };

    ghost invariant = { λ arena. IsTyped arena.nodes.keys × AreWidths (slice_index arena.widths.items) arena.nodes.keys × (length arena.widths.items ≡ length arena.nodes.keys) };
}

impl Arena {
    ghost use Rattle.std.specs.Prelude.{◌≡◌, ℕ, ◌^◌, ◌<◌, ◌==◌, false, length, [], IfOk, OnErr, IfSome, Some, slice_get, slice_index, if◌then◌else◌};
    ghost use Rattle.std.specs.Option.{option_zip};
    ghost use Rattle.ct_words.specs.Words.{alu_value, test_value, flag};
    ghost use Rattle.bv_expr.specs.Nodes.{IsValuation, AreBytes, AreWidths, HasWidth, node_width, joined_bytes, byte_at};
    ghost use Rattle.bv_expr.specs.Typing.{IsWidth, IsTypedAt, IsTyped, HasOperands, HaveOneWidth, AreDifferent};
    ghost use Rattle.bv_expr.specs.Growth.{Extends, AddsNoInput, is_input};
    ghost use Rattle.bv_expr.specs.Folding.{constant_in, alu_node, test_node, not_node, both_node, pick_node, join_node, byte_node};
    ghost use Rattle.bv_expr.specs.Valuations.{values_of, widths_of};
    ghost use Rattle.bv_expr.specs.declared.q_node.QNode.{QNode};
    ghost use Rattle.bv_expr.specs.declared.q_node.QNode.TheVariants.{Constant, Input};

    /// An arena with no expression.
    pub fn new(alloc: Global) -> Result<Arena, AllocError>
        ensures { IfOk result (λ arena. arena ≡ []) }
    {
        Ok(Arena {
            nodes: IndexSet::new(alloc),
            widths: Vec::new(alloc),
        })
    }

    /// Every node, by its number.
    pub fn nodes(&self) -> &[QNode]
        ensures all { result.now ≡ self.now }
        ensures typed { IsTyped self.now }
    {
        self.nodes.as_slice()
    }

    /// The node of an expression.
    pub fn node(&self, id: ExprId) -> QNode
        requires { id.0 < length self.now }
        ensures node { slice_get self.now id.0 ≡ Some result }
        ensures operands { HasOperands self.now result }
    {
        self.nodes.as_slice()[id.0]
    }

    /// How many bits an expression has: 1, 8 or 32.
    pub fn width(&self, id: ExprId) -> u32
        requires { id.0 < length self.now }
        ensures width { HasWidth self.now id.0 result }
        ensures only { (w : ℕ) → HasWidth self.now id.0 w → w ≡ result }
        ensures known { IsWidth result }
    {
        let _size = self.nodes.len();
        u32::from(self.widths[id.0])
    }

    // The value of a constant.
    fn constant_at(&self, id: ExprId) -> Option<u32>
        requires { id.0 < length self.now }
        ensures constant { result ≡ constant_in self.now id.0 }
        ensures value { IfSome result (λ x. (env v : ℕ → ℕ) → IsValuation env v self.now → v id.0 ≡ x) }
        ensures fits { IfSome result (λ x. (w : ℕ) → HasWidth self.now id.0 w → x < 2 ^ w) }
    {
        let _size = self.nodes.len();
        match self.node(id) {
            QNode::Constant { value, .. } => Some(value),
            _ => None,
        }
    }

    // The values of two constants.
    fn constants_at(&self, a: ExprId, b: ExprId) -> Option<(u32, u32)>
        requires left { a.0 < length self.now }
        requires right { b.0 < length self.now }
        ensures constants { result ≡ option_zip (constant_in self.now a.0) (constant_in self.now b.0) }
        ensures values { IfSome result (λ p. (env v : ℕ → ℕ) → IsValuation env v self.now → (v a.0 ≡ p.0) × (v b.0 ≡ p.1)) }
        ensures fits { IfSome result (λ p. (w : ℕ) → HasWidth self.now a.0 w → HasWidth self.now b.0 w → (p.0 < 2 ^ w) × (p.1 < 2 ^ w)) }
    {
        self.constant_at(a).zip(self.constant_at(b))
    }

    // The values of two constants that are bytes.
    fn bytes_at(&self, a: ExprId, b: ExprId) -> Option<(u32, u32)>
        requires left { HasWidth self.now a.0 8 }
        requires right { HasWidth self.now b.0 8 }
        ensures constants { result ≡ option_zip (constant_in self.now a.0) (constant_in self.now b.0) }
        ensures fits { IfSome result (λ p. (p.0 < 2 ^ 8) × (p.1 < 2 ^ 8)) }
    {
        self.constants_at(a, b)
    }

    // Puts a node in, where it isn't there. The widths are as many as the nodes again on every way out.
    fn add(&mut self, node: QNode, width: u32) -> Result<ExprId, AllocError>
        requires typed { (ws : ℕ → ℕ) → AreWidths ws self.old → IsTypedAt ws (length self.old) node }
        requires width { (ws : ℕ → ℕ) → AreWidths ws self.old → node_width ws node ≡ width }
        requires known { IsWidth width }
        ensures stored { IfOk result (λ id. slice_get self.new id.0 ≡ Some node) }
        ensures inside { IfOk result (λ id. id.0 < length self.new) }
        ensures extends { Extends self.old self.new 1 }
        ensures no_input { is_input node ≡ false → AddsNoInput self.old self.new }
        ensures unchanged { OnErr result (self.new ≡ self.old) }
    {
        self.widths.push(width as u8)?;
        let placed = self.nodes.insert_full(node);
        self.widths.truncate(self.nodes.len());
        let (index, _) = placed?;
        Ok(ExprId(index))
    }

    /// A number, below 2 to the power of its width, which is 1, 8 or 32.
    pub fn constant(&mut self, width: u32, value: u32) -> Result<ExprId, AllocError>
        requires width { IsWidth width }
        requires value { value < 2 ^ width }
        ensures value { IfOk result (λ id. (env v : ℕ → ℕ) → IsValuation env v self.new → v id.0 ≡ value) }
        ensures width { IfOk result (λ id. HasWidth self.new id.0 width) }
        ensures node { IfOk result (λ id. slice_get self.new id.0 ≡ Some (Constant width value)) }
        ensures extends { Extends self.old self.new 1 }
        ensures no_input { AddsNoInput self.old self.new }
        ensures unchanged { OnErr result (self.new ≡ self.old) }
    {
        self.add(QNode::Constant { width, value }, width)
    }

    /// An input byte, by its number.
    pub fn input(&mut self, variable: usize) -> Result<ExprId, AllocError>
        ensures value { IfOk result (λ id. (env v : ℕ → ℕ) → IsValuation env v self.new → v id.0 ≡ env variable) }
        ensures width { IfOk result (λ id. HasWidth self.new id.0 8) }
        ensures node { IfOk result (λ id. slice_get self.new id.0 ≡ Some (Input variable)) }
        ensures extends { Extends self.old self.new 1 }
        ensures unchanged { OnErr result (self.new ≡ self.old) }
    {
        self.add(QNode::Input { variable }, BYTE)
    }

    /// An operation on two words.
    pub fn alu(&mut self, op: AluOp, a: ExprId, b: ExprId) -> Result<ExprId, AllocError>
        requires left { HasWidth self.old a.0 32 }
        requires right { HasWidth self.old b.0 32 }
        ensures value { IfOk result (λ id. (env v : ℕ → ℕ) → IsValuation env v self.new → v id.0 ≡ alu_value op (v a.0) (v b.0)) }
        ensures width { IfOk result (λ id. HasWidth self.new id.0 32) }
        ensures node { IfOk result (λ id. slice_get self.new id.0 ≡ Some (alu_node self.old op a.0 b.0)) }
        ensures extends { Extends self.old self.new 1 }
        ensures no_input { AddsNoInput self.old self.new }
        ensures unchanged { OnErr result (self.new ≡ self.old) }
    {
        match self.constants_at(a, b) {
            Some((x, y)) => self.add(
                QNode::Constant {
                    width: WORD,
                    value: alu(op, x, y),
                },
                WORD,
            ),
            None => self.add(QNode::Alu { op, a: a.0, b: b.0 }, WORD),
        }
    }

    /// Whether a condition holds of two words: 1 or 0.
    pub fn test(&mut self, cond: Cond, a: ExprId, b: ExprId) -> Result<ExprId, AllocError>
        requires left { HasWidth self.old a.0 32 }
        requires right { HasWidth self.old b.0 32 }
        ensures value { IfOk result (λ id. (env v : ℕ → ℕ) → IsValuation env v self.new → v id.0 ≡ flag (test_value cond (v a.0) (v b.0))) }
        ensures width { IfOk result (λ id. HasWidth self.new id.0 1) }
        ensures node { IfOk result (λ id. slice_get self.new id.0 ≡ Some (test_node self.old cond a.0 b.0)) }
        ensures extends { Extends self.old self.new 1 }
        ensures no_input { AddsNoInput self.old self.new }
        ensures unchanged { OnErr result (self.new ≡ self.old) }
    {
        match self.constants_at(a, b) {
            Some((x, y)) => self.add(
                QNode::Constant {
                    width: BIT,
                    value: u32::from(test(cond, x, y)),
                },
                BIT,
            ),
            None => self.add(
                QNode::Test {
                    cond,
                    a: a.0,
                    b: b.0,
                },
                BIT,
            ),
        }
    }

    /// The other bit.
    pub fn not(&mut self, a: ExprId) -> Result<ExprId, AllocError>
        requires { HasWidth self.old a.0 1 }
        ensures value { IfOk result (λ id. (env v : ℕ → ℕ) → IsValuation env v self.new → v id.0 ≡ flag (v a.0 == 0)) }
        ensures width { IfOk result (λ id. HasWidth self.new id.0 1) }
        ensures node { IfOk result (λ id. slice_get self.new id.0 ≡ Some (not_node self.old a.0)) }
        ensures extends { Extends self.old self.new 1 }
        ensures no_input { AddsNoInput self.old self.new }
        ensures unchanged { OnErr result (self.new ≡ self.old) }
    {
        match self.constant_at(a) {
            Some(x) => self.add(
                QNode::Constant {
                    width: BIT,
                    value: u32::from(x == 0),
                },
                BIT,
            ),
            None => self.add(QNode::Not { a: a.0 }, BIT),
        }
    }

    /// 1 where both bits are 1, and else 0.
    pub fn both(&mut self, a: ExprId, b: ExprId) -> Result<ExprId, AllocError>
        requires left { HasWidth self.old a.0 1 }
        requires right { HasWidth self.old b.0 1 }
        ensures value { IfOk result (λ id. (env v : ℕ → ℕ) → IsValuation env v self.new → v id.0 ≡ (if v a.0 == 0 then 0 else v b.0)) }
        ensures width { IfOk result (λ id. HasWidth self.new id.0 1) }
        ensures node { IfOk result (λ id. slice_get self.new id.0 ≡ Some (both_node self.old a.0 b.0)) }
        ensures extends { Extends self.old self.new 1 }
        ensures no_input { AddsNoInput self.old self.new }
        ensures unchanged { OnErr result (self.new ≡ self.old) }
    {
        match self.constants_at(a, b) {
            Some((x, y)) => self.add(
                QNode::Constant {
                    width: BIT,
                    value: chosen(x, y, 0),
                },
                BIT,
            ),
            None => self.add(QNode::Both { a: a.0, b: b.0 }, BIT),
        }
    }

    /// `yes` where the bit `when` is 1, and `no` where it is 0. Both sides have one width, which
    /// is that of the choice.
    pub fn pick(&mut self, when: ExprId, yes: ExprId, no: ExprId) -> Result<ExprId, AllocError>
        requires when { HasWidth self.old when.0 1 }
        requires sides { HaveOneWidth self.old yes.0 no.0 }
        ensures value { IfOk result (λ id. (env v : ℕ → ℕ) → IsValuation env v self.new → v id.0 ≡ (if v when.0 == 0 then v no.0 else v yes.0)) }
        ensures inside { IfOk result (λ id. id.0 < length self.new) }
        ensures width { IfOk result (λ id. (w : ℕ) → HasWidth self.old yes.0 w → HasWidth self.new id.0 w) }
        ensures node { IfOk result (λ id. (w : ℕ) → HasWidth self.old yes.0 w → slice_get self.new id.0 ≡ Some (pick_node self.old w when.0 yes.0 no.0)) }
        ensures extends { Extends self.old self.new 1 }
        ensures no_input { AddsNoInput self.old self.new }
        ensures unchanged { OnErr result (self.new ≡ self.old) }
    {
        let width = self.width(yes);
        match self.constant_at(when).zip(self.constants_at(yes, no)) {
            Some((bit, (x, y))) => self.add(
                QNode::Constant {
                    width,
                    value: chosen(bit, x, y),
                },
                width,
            ),
            None => self.add(
                QNode::Pick {
                    when: when.0,
                    yes: yes.0,
                    no: no.0,
                },
                width,
            ),
        }
    }

    /// Four bytes as a word, the least byte first.
    pub fn join(
        &mut self,
        b0: ExprId,
        b1: ExprId,
        b2: ExprId,
        b3: ExprId,
    ) -> Result<ExprId, AllocError>
        requires byte0 { HasWidth self.old b0.0 8 }
        requires byte1 { HasWidth self.old b1.0 8 }
        requires byte2 { HasWidth self.old b2.0 8 }
        requires byte3 { HasWidth self.old b3.0 8 }
        ensures value { IfOk result (λ id. (env v : ℕ → ℕ) → IsValuation env v self.new → v id.0 ≡ joined_bytes (v b0.0) (v b1.0) (v b2.0) (v b3.0)) }
        ensures width { IfOk result (λ id. HasWidth self.new id.0 32) }
        ensures node { IfOk result (λ id. slice_get self.new id.0 ≡ Some (join_node self.old b0.0 b1.0 b2.0 b3.0)) }
        ensures extends { Extends self.old self.new 1 }
        ensures no_input { AddsNoInput self.old self.new }
        ensures unchanged { OnErr result (self.new ≡ self.old) }
    {
        match self.bytes_at(b0, b1).zip(self.bytes_at(b2, b3)) {
            Some(((x0, x1), (x2, x3))) => self.add(
                QNode::Constant {
                    width: WORD,
                    value: joined(x0, x1, x2, x3),
                },
                WORD,
            ),
            None => self.add(
                QNode::Join {
                    b0: b0.0,
                    b1: b1.0,
                    b2: b2.0,
                    b3: b3.0,
                },
                WORD,
            ),
        }
    }

    /// A byte of a word, by its place from 0, the least byte, to 3.
    pub fn byte(&mut self, of: ExprId, index: u32) -> Result<ExprId, AllocError>
        requires word { HasWidth self.old of.0 32 }
        requires index { index < 4 }
        ensures value { IfOk result (λ id. (env v : ℕ → ℕ) → IsValuation env v self.new → v id.0 ≡ byte_at (v of.0) index) }
        ensures width { IfOk result (λ id. HasWidth self.new id.0 8) }
        ensures node { IfOk result (λ id. slice_get self.new id.0 ≡ Some (byte_node self.old of.0 index)) }
        ensures extends { Extends self.old self.new 1 }
        ensures no_input { AddsNoInput self.old self.new }
        ensures unchanged { OnErr result (self.new ≡ self.old) }
    {
        match self.constant_at(of) {
            Some(x) => self.add(
                QNode::Constant {
                    width: BYTE,
                    value: byte_of(x, index),
                },
                BYTE,
            ),
            None => self.add(QNode::Byte { of: of.0, index }, BYTE),
        }
    }

    /// The value of an expression for these input bytes. Takes time and memory in proportion to
    /// the expression's number, and no recursion.
    pub fn value(&self, alloc: Global, id: ExprId, values: &Values) -> Result<u32, AllocError>
        requires { id.0 < length self.now }
        ensures { IfOk result (λ value. (v : ℕ → ℕ) → IsValuation (slice_index values.now.0) v self.now → v id.0 ≡ value) }
    {
        let mut results = Vec::new(alloc);
        for node in &self.nodes()[..id.0 + 1] {
            results.push(node.value(values, results.as_slice()))?;
        }
        Ok(results[id.0])
    }

    /// The laws of the type: every node has the operands that its kind asks for, no two are
    /// equal, each has one width, and each choice of input bytes gives exactly one valuation,
    /// whose values are below 2 to the power of their widths.
    pub fn law(&self)
        ensures typed { IsTyped self.now }
        ensures different { AreDifferent self.now }
        ensures widths { AreWidths (slice_index (widths_of self.now)) self.now }
        ensures operands { (i : ℕ) (n : QNode) → slice_get self.now i ≡ Some n → HasOperands self.now n }
        ensures exists { (env : ℕ → ℕ) → IsValuation env (slice_index (values_of env self.now)) self.now }
        ensures only { (env v w : ℕ → ℕ) → IsValuation env v self.now → IsValuation env w self.now → (i : ℕ) → i < length self.now → v i ≡ w i }
        ensures fits { (env v : ℕ → ℕ) → AreBytes env → IsValuation env v self.now → (i w : ℕ) → HasWidth self.now i w → v i < 2 ^ w }
    {
        let _nodes = self.nodes.as_slice();
    }
}
