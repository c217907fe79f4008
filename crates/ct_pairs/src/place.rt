//! Where an input byte stands.
/// Where an input byte stands at the start.
#[derive(Clone, Copy, Debug, PartialEq, Eq)]
pub enum Place {
    /// A byte of one of the registers x1 to x31; byte 0 is the least.
    Register { reg: u32, byte: u32 },
    /// The byte at an accessible address.
    Memory { address: u32 },
}
