//! The word of one node, from those of its operands.

ghost use Rattle.std.specs.Prelude.{ℕ, ◌≡◌, Bool, length, IfOk, OnOk};
ghost use Rattle.gate_form.specs.Net.{AreIn};
ghost use Rattle.gate_form.specs.Run.{IsRun, Grows};
ghost use Rattle.bit_arith.specs.Number.{word};
ghost use Rattle.bv_expr.specs.Nodes.{node_value, node_width};
ghost use Rattle.bit_blast.specs.NodeWords.{IsReady, value_in, width_in};
ghost use Rattle.bit_blast.specs.WordMaps.{words_of};

use crate::parts::{byte_of, constant, joined, one};
use crate::word_map::WordMap;
use bit_arith::{Word, arith, compare, pick_word};
use bv_expr::QNode;
use gate_form::Gates;
use std::alloc::{AllocError, Global};

/// The word of a node that is no input.
pub fn node_word(
    alloc: Global,
    gates: &mut Gates,
    words: &WordMap,
    node: QNode,
) -> Result<Word, AllocError>
    requires { IsReady gates.old (words_of words.now) node }
    ensures inside { IfOk result (λ r. AreIn gates.new r.items) }
    ensures width { IfOk result (λ r. (ws : ℕ → ℕ) → length r.items ≡ node_width (width_in (words_of words.now) ws) node) }
    ensures value { IfOk result (λ r. (env v : ℕ → ℕ) (g : ℕ → Bool) → IsRun g gates.new → word g r.items ≡ node_value env (value_in g (words_of words.now) v) node) }
    ensures grows { OnOk result (Grows gates.old gates.new 20000) }
{
    gates.net_law();
    match node {
        QNode::Constant { width, value } => {
            let word = constant(alloc, width, value)?;
            Ok(word)
        }
        QNode::Input { .. } => unreachable!(),
        QNode::Alu { op, a, b } => {
            let word = arith(alloc, gates, op, words.word(a), words.word(b))?;
            Ok(word)
        }
        QNode::Test { cond, a, b } => {
            let bit = compare(alloc, gates, cond, words.word(a), words.word(b))?;
            let word = one(alloc, bit)?;
            Ok(word)
        }
        QNode::Not { a } => {
            let word = one(alloc, Gates::not(words.word(a)[0]))?;
            Ok(word)
        }
        QNode::Both { a, b } => {
            let bit = gates.and(words.word(a)[0], words.word(b)[0])?;
            let word = one(alloc, bit)?;
            Ok(word)
        }
        QNode::Pick { when, yes, no } => {
            let bit = words.word(when)[0];
            let word = pick_word(alloc, gates, bit, words.word(yes), words.word(no))?;
            Ok(word)
        }
        QNode::Join { b0, b1, b2, b3 } => {
            let word = joined(
                alloc,
                words.word(b0),
                words.word(b1),
                words.word(b2),
                words.word(b3),
            )?;
            Ok(word)
        }
        QNode::Byte { of, index } => {
            let word = byte_of(alloc, words.word(of), index)?;
            Ok(word)
        }
    }
}
