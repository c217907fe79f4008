//! The nodes on which others depend, numbered in the order of first visits.

use bv_expr::QNode;
use indexmap::IndexSet;
use std::alloc::{AllocError, Global};
use std::marker::Model;

/// Copies of nodes, each after its operands, with where each comes from.
#[derive(Drop)]
pub struct Cone {
    pub vars: usize,
    pub origins: IndexSet<usize>,
    pub copies: Vec<QNode>,
}

impl Cone {
    ghost use Rattle.std.specs.Prelude.{◌≡◌, ℕ, ◌<◌, ◌∷◌, ◌++◌, [], true, false, List, Some, Contains, length, slice_get, slice_index, IfOk, OnOk, MatchResult, MatchOption, All};
    ghost use Rattle.std.specs.Option.{option_to_list};
    ghost use Rattle.bv_expr.specs.declared.q_node.QNode.{QNode};
    ghost use Rattle.bv_expr.specs.declared.q_node.QNode.TheVariants.{Join};
    ghost use Rattle.bv_expr.specs.Typing.{HasEarlier, IsTyped};
    ghost use Rattle.bv_expr.specs.Walk.{IsWalking, operands_of_node};
    ghost use Rattle.bit_blast.specs.Blasting.{Moves};
    ghost use Rattle.query_ask.specs.Copies.{renumbered, AreCopies, HasVars, IsCopying, is_copied, KeepsNumbers};

    /// No copy yet.
    pub fn new(alloc: Global, nodes: &[QNode], vars: usize) -> Cone
        ensures vars { result.vars ≡ vars }
        ensures copies { AreCopies nodes.now result.origins.keys result.copies.items }
        ensures none { result.origins.keys ≡ [] }
    {
        let _count = nodes.len();
        Cone {
            vars,
            origins: IndexSet::new(alloc),
            copies: Vec::new(alloc),
        }
    }

    // The number of the copy of a node, or the node where it has none.
    fn number(&self, at: usize) -> Result<usize, usize>
        ensures { MatchResult result (λ k. (k < length self.now.origins.keys) × (slice_index self.now.origins.keys k ≡ at))
            (λ a. (a ≡ at) × (is_copied self.now.origins.keys a ≡ false)) }
    {
        match self.origins.get_index_of(&at) {
            Some(number) => Ok(number),
            None => Err(at),
        }
    }

    // The copy of four joined bytes.
    fn join(&self, b0: usize, b1: usize, b2: usize, b3: usize) -> Result<QNode, usize>
        ensures { MatchResult result (λ n. (Join b0 b1 b2 b3 ≡ renumbered (slice_index self.now.origins.keys) n) × HasEarlier (length self.now.origins.keys) n)
            (λ a. Contains (b0 ∷ b1 ∷ b2 ∷ b3 ∷ []) a × (is_copied self.now.origins.keys a ≡ false)) }
    {
        Ok(QNode::Join {
            b0: self.number(b0)?,
            b1: self.number(b1)?,
            b2: self.number(b2)?,
            b3: self.number(b3)?,
        })
    }

    // The copy of a node, or an operand of it that has none.
    fn copy(&self, node: QNode) -> Result<QNode, usize>
        ensures { MatchResult result (λ n. (node ≡ renumbered (slice_index self.now.origins.keys) n) × HasEarlier (length self.now.origins.keys) n)
            (λ a. Contains (operands_of_node node) a × (is_copied self.now.origins.keys a ≡ false)) }
    {
        Ok(match node {
            QNode::Constant { width, value } => QNode::Constant { width, value },
            QNode::Input { variable } => QNode::Input { variable },
            QNode::Alu { op, a, b } => QNode::Alu {
                op,
                a: self.number(a)?,
                b: self.number(b)?,
            },
            QNode::Test { cond, a, b } => QNode::Test {
                cond,
                a: self.number(a)?,
                b: self.number(b)?,
            },
            QNode::Not { a } => QNode::Not { a: self.number(a)? },
            QNode::Both { a, b } => QNode::Both {
                a: self.number(a)?,
                b: self.number(b)?,
            },
            QNode::Pick { when, yes, no } => QNode::Pick {
                when: self.number(when)?,
                yes: self.number(yes)?,
                no: self.number(no)?,
            },
            QNode::Join { b0, b1, b2, b3 } => self.join(b0, b1, b2, b3)?,
            QNode::Byte { of, index } => QNode::Byte {
                of: self.number(of)?,
                index,
            },
        })
    }

    // One copy more.
    fn add(&mut self, nodes: &[QNode], top: usize, copy: QNode) -> Result<(), AllocError>
        requires copies { AreCopies nodes.now self.old.origins.keys self.old.copies.items }
        requires new { is_copied self.old.origins.keys top ≡ false }
        requires node { slice_get nodes.now top ≡ Some (renumbered (slice_index self.old.origins.keys) copy) }
        requires earlier { HasEarlier (length self.old.origins.keys) copy }
        ensures vars { self.new.vars ≡ self.old.vars }
        ensures copies { OnOk result (AreCopies nodes.now self.new.origins.keys self.new.copies.items) }
        ensures origins { OnOk result (self.new.origins.keys ≡ self.old.origins.keys ++ top ∷ []) }
    {
        let _count = nodes.len();
        self.origins.insert(top)?;
        self.copies.push(copy)?;
        Ok(())
    }

    // One step of the walk, which stands at `top`: to an operand that has no copy, or back to the node that waits.
    fn step(
        &mut self,
        nodes: &[QNode],
        below: &mut Vec<usize>,
        top: usize,
    ) -> Result<Option<usize>, AllocError>
        requires typed { IsTyped nodes.now }
        requires copying { IsCopying nodes.now self.old.vars self.old.origins.keys self.old.copies.items }
        requires walking { IsWalking (length nodes.now) (is_copied self.old.origins.keys) below.old.items top }
        requires known { All (HasVars nodes.now self.old.vars) (below.old.items ++ top ∷ []) }
        ensures vars { self.new.vars ≡ self.old.vars }
        ensures copying { OnOk result (IsCopying nodes.now self.new.vars self.new.origins.keys self.new.copies.items) }
        ensures kept { OnOk result (KeepsNumbers self.old.origins.keys self.new.origins.keys) }
        ensures moves { IfOk result (Moves (length nodes.now) (is_copied self.old.origins.keys) below.old.items top (is_copied self.new.origins.keys) below.new.items) }
        ensures known { IfOk result (λ o. All (HasVars nodes.now self.old.vars) (below.new.items ++ option_to_list o)) }
    {
        match self.copy(nodes[top]) {
            Err(operand) => {
                below.push(top)?;
                Ok(Some(operand))
            }
            Ok(copy) => {
                self.add(nodes, top, copy)?;
                Ok(below.pop())
            }
        }
    }

    // Where a walk for a node begins, if the node has no copy.
    fn start(&self, root: usize) -> Option<usize>
        ensures { MatchOption result (is_copied self.now.origins.keys root ≡ true) (λ s. (s ≡ root) × (is_copied self.now.origins.keys root ≡ false)) }
    {
        if self.origins.contains(&root) {
            None
        } else {
            Some(root)
        }
    }

    // Gives a node its copy, and first all nodes on which it depends.
    fn walk(&mut self, alloc: Global, nodes: &[QNode], root: usize) -> Result<(), AllocError>
        requires typed { IsTyped nodes.now }
        requires inside { root < length nodes.now }
        requires known { HasVars nodes.now self.old.vars root }
        requires copying { IsCopying nodes.now self.old.vars self.old.origins.keys self.old.copies.items }
        ensures vars { self.new.vars ≡ self.old.vars }
        ensures copying { OnOk result (IsCopying nodes.now self.new.vars self.new.origins.keys self.new.copies.items) }
        ensures kept { OnOk result (KeepsNumbers self.old.origins.keys self.new.origins.keys) }
        ensures copied { OnOk result (is_copied self.new.origins.keys root ≡ true) }
    {
        let mut below = Vec::new(alloc);
        let mut next = self.start(root);
        while let Some(top) = next {
            next = self.step(nodes, &mut below, top)?;
        }
        Ok(())
    }

    /// The number of a node's copy, which is made if it isn't there.
    pub fn visit(
        &mut self,
        alloc: Global,
        nodes: &[QNode],
        root: usize,
    ) -> Result<usize, AllocError>
        requires typed { IsTyped nodes.now }
        requires inside { root < length nodes.now }
        requires known { HasVars nodes.now self.old.vars root }
        requires copying { IsCopying nodes.now self.old.vars self.old.origins.keys self.old.copies.items }
        ensures vars { self.new.vars ≡ self.old.vars }
        ensures copying { OnOk result (IsCopying nodes.now self.new.vars self.new.origins.keys self.new.copies.items) }
        ensures kept { OnOk result (KeepsNumbers self.old.origins.keys self.new.origins.keys) }
        ensures number { IfOk result (λ k. (k < length self.new.origins.keys) × (slice_index self.new.origins.keys k ≡ root)) }
    {
        self.walk(alloc, nodes, root)?;
        match self.number(root) {
            Ok(number) => Ok(number),
            Err(_) => unreachable!(),
        }
    }
}
