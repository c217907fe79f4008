//! What may be done with the byte at an address.

/// A right that the bytes of a segment have or not (System V ABI, "Program Header", PF_R, PF_W and PF_X).
#[derive(Clone, Copy, Debug, PartialEq, Eq)]
pub enum Right {
    /// The byte may be loaded.
    Read,
    /// The byte may be stored to.
    Write,
    /// The byte may be executed.
    Execute,
}
