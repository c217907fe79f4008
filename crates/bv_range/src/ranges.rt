//! The ranges of expressions, each found once.

use crate::bits::NONE;
use crate::bytes::{range_of_byte, range_of_join};
use crate::choices::{range_of_both, range_of_not, range_of_pick};
use crate::comparisons::range_of_test;
use crate::range::Range;
use crate::settling::{constant_range, settled};
use crate::words::range_of_alu;
use bv_expr::{Arena, BYTE, ExprId, QNode};
use indexmap::IndexMap;
use std::alloc::{AllocError, Global};
use std::marker::Model;

/// The ranges of expressions of one arena, each found once and remembered: a list of numbers of
/// expressions with their ranges. New expressions of the arena leave them right.
#[derive(Drop)]
pub struct Ranges {
    known: IndexMap<usize, Range>,
    alloc: Global,
}

impl Model for Ranges {
    ghost use Rattle.std.specs.Prelude.{List, ℕ};
    ghost use Rattle.bv_range.specs.declared.range.Range.{Range};

    ghost Value = { List (ℕ × Range) };

    ghost view = { λ ranges. ranges.known.entries };
}

impl Ranges {
    ghost use Rattle.std.specs.Prelude.{◌≡◌, ℕ, ◌<◌, ◌==◌, List, [], length, IfOk, OnOk, OnErr, MatchResult, MatchOption, true, false, Some, if◌then◌else◌};
    ghost use Rattle.bv_expr.specs.Walk.{IsWalking, IsOpenBelow};
    ghost use Rattle.bv_range.specs.Remembered.{IsRangeOf, AreRight, remembered, is_remembered, Moves};
    ghost use Rattle.bv_expr.specs.declared.q_node.QNode.{QNode};

    /// Nothing is remembered yet.
    pub fn new(alloc: Global) -> Result<Ranges, AllocError>
        ensures nothing { IfOk result (λ ranges. ranges ≡ []) }
        ensures right { IfOk result (λ ranges. (nodes : List QNode) → AreRight nodes ranges) }
    {
        Ok(Ranges {
            known: IndexMap::new(alloc),
            alloc,
        })
    }

    // The range of an operand, or its number where none is remembered.
    fn operand(&self, arena: &Arena, top: usize, id: usize) -> Result<Range, usize>
        requires earlier { id < top }
        requires right { AreRight arena.now self.now }
        ensures { MatchResult result (IsRangeOf arena.now id) (IsOpenBelow (is_remembered self.now) top) }
    {
        match self.known.get(&id) {
            Some(range) => Ok(*range),
            None => Err(id),
        }
    }

    fn remember(&mut self, id: usize, range: Range) -> Result<(), AllocError>
        ensures added { OnOk result ((q : ℕ) → remembered self.new q ≡ (if q == id then Some range else remembered self.old q)) }
        ensures unchanged { OnErr result (self.new ≡ self.old) }
    {
        self.known.insert(id, range)?;
        Ok(())
    }

    // The range of a node from those of its operands, or an operand whose range isn't known.
    fn range_of_node(&self, arena: &Arena, top: usize) -> Result<Range, usize>
        requires inside { top < length arena.now }
        requires right { AreRight arena.now self.now }
        ensures { MatchResult result (IsRangeOf arena.now top) (IsOpenBelow (is_remembered self.now) top) }
    {
        arena.law();
        let width = arena.width(ExprId(top));
        Ok(match arena.node(ExprId(top)) {
            QNode::Constant { width, value } => constant_range(width, value),
            QNode::Input { .. } => settled(BYTE, NONE, 0, 0xff),
            QNode::Alu { op, a, b } => range_of_alu(
                op,
                self.operand(arena, top, a)?,
                self.operand(arena, top, b)?,
            ),
            QNode::Test { cond, a, b } => range_of_test(
                cond,
                self.operand(arena, top, a)?,
                self.operand(arena, top, b)?,
            ),
            QNode::Not { a } => range_of_not(self.operand(arena, top, a)?),
            QNode::Both { a, b } => range_of_both(
                self.operand(arena, top, a)?,
                self.operand(arena, top, b)?,
            ),
            QNode::Pick { when, yes, no } => range_of_pick(
                width,
                self.operand(arena, top, when)?,
                self.operand(arena, top, yes)?,
                self.operand(arena, top, no)?,
            ),
            QNode::Join { b0, b1, b2, b3 } => range_of_join(
                self.operand(arena, top, b0)?,
                self.operand(arena, top, b1)?,
                self.operand(arena, top, b2)?,
                self.operand(arena, top, b3)?,
            ),
            QNode::Byte { of, index } => range_of_byte(self.operand(arena, top, of)?, index),
        })
    }

    // Where a walk for an expression begins, if its range isn't remembered.
    fn start(&self, id: usize) -> Option<usize>
        ensures { MatchOption result (is_remembered self.now id ≡ true) (λ s. (s ≡ id) × (is_remembered self.now id ≡ false)) }
    {
        match self.known.get(&id) {
            Some(_) => None,
            None => Some(id),
        }
    }

    // One step of the walk: the node where it stands next.
    fn step(
        &mut self,
        arena: &Arena,
        below: &mut Vec<usize>,
        top: usize,
    ) -> Result<Option<usize>, AllocError>
        requires right { AreRight arena.now self.old }
        requires walking { IsWalking (length arena.now) (is_remembered self.old) below.old.items top }
        ensures right { AreRight arena.now self.new }
        ensures moves { IfOk result (Moves arena.now self.old below.old.items top self.new below.new.items) }
    {
        match self.range_of_node(arena, top) {
            Err(operand) => {
                below.push(top)?;
                Ok(Some(operand))
            }
            Ok(range) => {
                self.remember(top, range)?;
                Ok(below.pop())
            }
        }
    }

    /// What is known of an expression's value under every choice of input bytes. Each expression
    /// below it is looked at once in the life of the `Ranges`, with no recursion, and only those
    /// take memory.
    pub fn of(&mut self, arena: &Arena, id: ExprId) -> Result<Range, AllocError>
        requires inside { id.0 < length arena.now }
        requires right { AreRight arena.now self.old }
        ensures range { IfOk result (IsRangeOf arena.now id.0) }
        ensures kept { AreRight arena.now self.new }
    {
        let mut below = Vec::new(self.alloc);
        let mut next = self.start(id.0);
        while let Some(top) = next {
            next = self.step(arena, &mut below, top)?;
        }
        match self.known.get(&id.0) {
            Some(range) => Ok(*range),
            None => unreachable!(),
        }
    }
}
