//! What a table says of an expression.

use ct_words::AluOp;

/// A word that a table names.
#[derive(Clone, Copy, Debug, PartialEq, Eq)]
pub enum Operand {
    /// An expression that is there, by its number.
    Node(usize),
    /// A number.
    Word(u32),
}

/// What a table says of an expression: with which other of the same value it is to be replaced.
#[derive(Clone, Copy, Debug, PartialEq, Eq)]
pub enum Rewrite {
    /// No rule matches, and the expression stays.
    Keep,
    /// An expression that is there, by its number.
    Old(usize),
    /// A number, of the width of the expression.
    Number(u32),
    /// An operation on two words.
    Operation {
        op: AluOp,
        a: Operand,
        b: Operand,
    },
    /// An operation on two expressions, with a number added.
    Raised {
        op: AluOp,
        a: usize,
        b: usize,
        by: u32,
    },
}
