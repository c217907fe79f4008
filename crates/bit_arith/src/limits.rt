//! How wide words are, and how many gates an operation may take.

/// How many wires a word has.
pub const WORD_BITS: usize = 32;

/// How many wires of a word say how far a shift goes.
pub const SHIFT_BITS: usize = 5;

/// The most gates of a sum, a difference, a comparison or an operation bit by bit.
pub const SUM_GATES: usize = 320;

/// The most gates of a shift.
pub const SHIFT_GATES: usize = 640;

/// The most gates of a product.
pub const PRODUCT_GATES: usize = 20_000;

/// The most gates of a quotient or a remainder.
pub const QUOTIENT_GATES: usize = 16_000;
