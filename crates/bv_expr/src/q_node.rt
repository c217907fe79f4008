//! One operation of an expression.

ghost use Rattle.std.specs.Prelude.{◌≡◌, ℕ, ◌<◌, ◌^◌, slice_index};
ghost use Rattle.bv_expr.specs.Nodes.{node_value};
ghost use Rattle.bv_expr.specs.Typing.{CanEvaluate};
ghost use Rattle.bv_expr.specs.declared.q_node.QNode.TheVariants.{Input};

use crate::bytes::{byte_of, chosen, joined};
use crate::values::Values;
use ct_words::{AluOp, Cond, alu, test};

/// One operation, with its operands as the numbers of their nodes.
#[derive(Clone, Copy, Debug, PartialEq, Eq, Hash)]
pub enum QNode {
    /// A number below 2 to the power of its width, which is 1, 8 or 32.
    Constant {
        width: u32,
        value: u32,
    },
    /// An input byte, by its number.
    Input {
        variable: usize,
    },
    /// An operation on two words.
    Alu {
        op: AluOp,
        a: usize,
        b: usize,
    },
    /// 1 where a condition holds of two words, and else 0.
    Test {
        cond: Cond,
        a: usize,
        b: usize,
    },
    /// 1 where a bit is 0, and else 0.
    Not {
        a: usize,
    },
    /// 1 where two bits are 1, and else 0.
    Both {
        a: usize,
        b: usize,
    },
    /// The one side where a bit is 1, and the other where it is 0.
    Pick {
        when: usize,
        yes: usize,
        no: usize,
    },
    /// Four bytes as a word, the least byte first.
    Join {
        b0: usize,
        b1: usize,
        b2: usize,
        b3: usize,
    },
    /// A byte of a word, by its place from 0, the least byte, to 3.
    Byte {
        of: usize,
        index: u32,
    },
}

impl QNode {
    /// The value of a node whose operands have these values, by their numbers.
    pub fn value(&self, values: &Values, operands: &[u32]) -> u32
        requires { CanEvaluate operands.now self.now }
        ensures value { result ≡ node_value (slice_index values.now.0) (slice_index operands.now) self.now }
        ensures byte { (k : ℕ) → self.now ≡ Input k → result < 2 ^ 8 }
    {
        match *self {
            QNode::Constant { value, .. } => value,
            QNode::Input { variable } => u32::from(values.byte(variable)),
            QNode::Alu { op, a, b } => alu(op, operands[a], operands[b]),
            QNode::Test { cond, a, b } => u32::from(test(cond, operands[a], operands[b])),
            QNode::Not { a } => u32::from(operands[a] == 0),
            QNode::Both { a, b } => chosen(operands[a], operands[b], 0),
            QNode::Pick { when, yes, no } => chosen(operands[when], operands[yes], operands[no]),
            QNode::Join { b0, b1, b2, b3 } => {
                joined(operands[b0], operands[b1], operands[b2], operands[b3])
            }
            QNode::Byte { of, index } => byte_of(operands[of], index),
        }
    }
}
