//! A loaded part of memory.
use ct_rows::Row;

/// A loaded part of memory: the bytes that a program header of type PT_LOAD puts at its addresses
/// (System V ABI, "Program Header").
#[derive(Debug, Drop)]
pub struct Segment {
    /// The address of the first byte.
    pub address: u32,
    /// The bytes, in ascending address: those of the file, then zeros.
    pub bytes: Row<u8>,
    /// PF_R: the bytes may be loaded from.
    pub read: bool,
    /// PF_W: the bytes may be stored to.
    pub write: bool,
    /// PF_X: the bytes may be executed.
    pub exec: bool,
}
