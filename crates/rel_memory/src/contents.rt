//! What a memory keeps.

use bv_expr::ExprId;
use rel_store::RelValue;

/// A byte that was put at an address that is a number.
#[derive(Clone, Copy, Debug, PartialEq, Eq)]
pub struct Kept {
    pub held: RelValue,
    /// How many writes at addresses that are no numbers came before.
    pub before: usize,
}

/// A write of a byte at an address that is no number.
#[derive(Clone, Copy, Debug, PartialEq, Eq)]
pub struct Written {
    pub address: ExprId,
    pub held: RelValue,
}
