//! What is known of a number.

/// What is known of a number of 1, 8 or 32 bits: bits that are 0, bits that are 1, and the least
/// and the most that it may be.
#[derive(Clone, Copy, Debug, PartialEq, Eq)]
pub struct Range {
    pub zeros: u32,
    pub ones: u32,
    pub least: u32,
    pub most: u32,
}
