//! The number of an expression.

/// The number of a node in its arena. Equal expressions of one arena have one number.
#[derive(Clone, Copy, Debug, PartialEq, Eq, Hash)]
pub struct ExprId(pub usize);
