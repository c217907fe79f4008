//! Why a run ended.
/// Why a run ended.
#[derive(Clone, Copy, Debug, PartialEq, Eq)]
pub enum End {
    /// The pc is a stop address.
    Stop,
    /// The pc isn't a multiple of four, or a byte of the instruction isn't executable.
    BadFetch,
    /// The word at the pc is no instruction of RV32IM.
    Illegal,
    /// ECALL or EBREAK.
    Call,
    /// A load or store touched a byte without the right for it.
    Fault,
}
