//! The walk over the nodes on which the roots depend.

use crate::inputs::{BYTE_BITS, new_byte};
use crate::limits::NODE_GATES;
use crate::node_word::node_word;
use crate::word_map::WordMap;
use bit_arith::Word;
use bv_expr::QNode;
use gate_form::{Gates, Wire};
use std::alloc::{AllocError, Global};

/// Gates, and the words of the nodes and of the variables that have some.
#[derive(Drop)]
pub struct Blaster {
    pub gates: Gates,
    pub vars: Vec<usize>,
    pub bytes: WordMap,
    pub words: WordMap,
}

impl Blaster {
    ghost use Rattle.std.specs.Prelude.{ℕ, ◌≡◌, ◌+◌, ◌<◌, ◌≤◌, ◌∷◌, ◌++◌, [], true, false, not, List, Some, length, slice_get, find, IfOk, OnOk, MatchOption, All};
    ghost use Rattle.std.specs.Option.{option_to_list};
    ghost use Rattle.bv_expr.specs.declared.q_node.QNode.{QNode};
    ghost use Rattle.bv_expr.specs.Nodes.{HasWidth};
    ghost use Rattle.bv_expr.specs.Typing.{IsTyped};
    ghost use Rattle.bv_expr.specs.Walk.{operands_of_node};
    ghost use Rattle.bit_blast.specs.Bytes.{IsByteWord};
    ghost use Rattle.bit_blast.specs.Cone.{IsInCone};
    ghost use Rattle.bit_blast.specs.NodeWords.{has_word};
    ghost use Rattle.bit_blast.specs.WordMaps.{words_of};
    ghost use Rattle.bit_blast.specs.Blasting.{IsNodeWord, AreRight, IsBlasting, IsAt, KeepsWords, Moves};
    ghost use Rattle.bit_blast.specs.Roots.{AreRoots};

    /// Gate 0 alone.
    pub fn new(alloc: Global, nodes: &[QNode]) -> Result<Blaster, AllocError>
        ensures { IfOk result (λ b. (roots : List ℕ) → IsBlasting nodes.now roots b) }
    {
        let _count = nodes.len();
        Ok(Blaster {
            gates: Gates::new(alloc)?,
            vars: Vec::new(alloc),
            bytes: WordMap::new(alloc),
            words: WordMap::new(alloc),
        })
    }

    // The word of a variable, with eight new inputs where it has none yet.
    fn byte(&mut self, alloc: Global, nodes: &[QNode], variable: usize) -> Result<Word, AllocError>
        requires { AreRight nodes.now self.old }
        ensures word { IfOk result (λ r. IsByteWord self.new.gates self.new.vars.items variable r.items) }
        ensures right { OnOk result (AreRight nodes.now self.new) }
        ensures words { self.new.words ≡ self.old.words }
        ensures few { OnOk result (length self.new.gates ≤ length self.old.gates + BYTE_BITS) }
    {
        let _count = nodes.len();
        if self.bytes.has(variable) {
            let word = Vec::from_slice(alloc, self.bytes.word(variable))?;
            return Ok(word);
        }
        let word = new_byte(alloc, &mut self.gates, &mut self.vars, variable)?;
        let copy = Vec::from_slice(alloc, word.as_slice())?;
        self.bytes.insert(variable, copy)?;
        Ok(word)
    }

    // The word of a node whose operands have theirs.
    fn word(&mut self, alloc: Global, nodes: &[QNode], at: usize) -> Result<Word, AllocError>
        requires typed { IsTyped nodes.now }
        requires inside { at < length nodes.now }
        requires right { AreRight nodes.now self.old }
        requires ready { (n : QNode) → slice_get nodes.now at ≡ Some n → All (λ a. has_word (words_of self.old.words) a ≡ true) (operands_of_node n) }
        ensures word { IfOk result (λ r. IsNodeWord self.new.gates self.new.vars.items nodes.now at r.items) }
        ensures right { OnOk result (AreRight nodes.now self.new) }
        ensures words { self.new.words ≡ self.old.words }
        ensures few { OnOk result (length self.new.gates ≤ length self.old.gates + NODE_GATES) }
    {
        match nodes[at] {
            QNode::Input { variable } => {
                let word = self.byte(alloc, nodes, variable)?;
                Ok(word)
            }
            node => {
                let word = node_word(alloc, &mut self.gates, &self.words, node)?;
                Ok(word)
            }
        }
    }

    // The first of the numbers that has no word.
    fn first_missing(&self, numbers: &[usize]) -> Option<usize>
        ensures { result ≡ find (λ a. not (has_word (words_of self.now.words) a)) numbers.now }
    {
        numbers.iter().copied().find(|a| !self.words.has(*a))
    }

    // The first operand of a node that has no word.
    fn missing(&self, node: QNode) -> Option<usize>
        ensures { result ≡ find (λ a. not (has_word (words_of self.now.words) a)) (operands_of_node node) }
    {
        match node {
            QNode::Constant { .. } | QNode::Input { .. } => self.first_missing(&[]),
            QNode::Alu { a, b, .. } | QNode::Test { a, b, .. } | QNode::Both { a, b } =>
                self.first_missing(&[a, b]),
            QNode::Not { a } => self.first_missing(&[a]),
            QNode::Pick { when, yes, no } => self.first_missing(&[when, yes, no]),
            QNode::Join { b0, b1, b2, b3 } => self.first_missing(&[b0, b1, b2, b3]),
            QNode::Byte { of, .. } => self.first_missing(&[of]),
        }
    }

    // One step of the walk, which stands at `top`: to an operand without a word, or back to the node that waits.
    fn step(
        &mut self,
        alloc: Global,
        nodes: &[QNode],
        below: &mut Vec<usize>,
        top: usize,
    ) -> Result<Option<usize>, AllocError>
        ghost roots: { List ℕ }
        requires typed { IsTyped nodes.now }
        requires stands { IsAt nodes.now roots self.old below.old.items top }
        ensures blasting { OnOk result (IsBlasting nodes.now roots self.new) }
        ensures kept { OnOk result (KeepsWords (words_of self.old.words) (words_of self.new.words)) }
        ensures moves { IfOk result (Moves (length nodes.now) (has_word (words_of self.old.words)) below.old.items top (has_word (words_of self.new.words)) below.new.items) }
        ensures needed { IfOk result (λ o. All (IsInCone nodes.now roots) (below.new.items ++ option_to_list o)) }
    {
        match self.missing(nodes[top]) {
            Some(operand) => {
                below.push(top)?;
                Ok(Some(operand))
            }
            None => {
                let word = self.word(alloc, nodes, top)?;
                self.words.insert(top, word)?;
                Ok(below.pop())
            }
        }
    }

    // Where a walk for a node begins, if the node has no word.
    fn start(&self, root: usize) -> Option<usize>
        ensures { MatchOption result (has_word (words_of self.now.words) root ≡ true) (λ s. (s ≡ root) × (has_word (words_of self.now.words) root ≡ false)) }
    {
        if self.words.has(root) {
            None
        } else {
            Some(root)
        }
    }

    /// Gives a node its word, and first all nodes on which it depends.
    pub fn visit(&mut self, alloc: Global, nodes: &[QNode], root: usize) -> Result<(), AllocError>
        ghost roots: { List ℕ }
        requires typed { IsTyped nodes.now }
        requires inside { root < length nodes.now }
        requires needed { IsInCone nodes.now roots root }
        requires blasting { IsBlasting nodes.now roots self.old }
        ensures blasting { OnOk result (IsBlasting nodes.now roots self.new) }
        ensures kept { OnOk result (KeepsWords (words_of self.old.words) (words_of self.new.words)) }
        ensures word { OnOk result (has_word (words_of self.new.words) root ≡ true) }
    {
        let mut below = Vec::new(alloc);
        let mut next = self.start(root);
        while let Some(top) = next {
            next = self.step(alloc, nodes, &mut below, top)?;
        }
        Ok(())
    }

    /// Gives nodes their words, and first all nodes on which they depend.
    pub fn visit_all(
        &mut self,
        alloc: Global,
        nodes: &[QNode],
        numbers: &[usize],
    ) -> Result<(), AllocError>
        ghost roots: { List ℕ }
        requires typed { IsTyped nodes.now }
        requires inside { All (λ k. k < length nodes.now) numbers.now }
        requires needed { All (IsInCone nodes.now roots) numbers.now }
        requires blasting { IsBlasting nodes.now roots self.old }
        ensures blasting { OnOk result (IsBlasting nodes.now roots self.new) }
        ensures words { OnOk result (All (λ k. has_word (words_of self.new.words) k ≡ true) numbers.now) }
    {
        for number in numbers {
            self.visit(alloc, nodes, *number)?;
        }
        Ok(())
    }

    // The word of a node of one bit that has a word.
    fn bit_word(&self, nodes: &[QNode], root: usize) -> &[Wire]
        requires typed { IsTyped nodes.now }
        requires right { AreRight nodes.now self.now }
        requires bit { HasWidth nodes.now root 1 }
        requires word { has_word (words_of self.now.words) root ≡ true }
        ensures found { words_of self.now.words root ≡ Some result.now }
        ensures one { length result.now ≡ 1 }
    {
        let _count = nodes.len();
        self.words.word(root)
    }

    /// The wires of nodes of one bit that have words.
    pub fn wires(
        &self,
        alloc: Global,
        nodes: &[QNode],
        roots: &[usize],
    ) -> Result<Vec<Wire>, AllocError>
        requires typed { IsTyped nodes.now }
        requires right { AreRight nodes.now self.now }
        requires bits { All (λ r. HasWidth nodes.now r 1) roots.now }
        requires words { All (λ r. has_word (words_of self.now.words) r ≡ true) roots.now }
        ensures { IfOk result (λ wires. AreRoots nodes.now roots.now self.now.gates self.now.vars.items wires.items) }
    {
        let mut wires = Vec::new(alloc);
        for root in roots {
            wires.push(self.bit_word(nodes, *root)[0])?;
        }
        Ok(wires)
    }
}
