//! The widths of expressions, in bits.

/// The width of a condition.
pub const BIT: u32 = 1;

/// The width of an input and of a byte of a word.
pub const BYTE: u32 = 8;

/// The width of a word.
pub const WORD: u32 = 32;
