//! Why a file is refused.
ghost use Rattle.std.specs.Prelude.{◌≡◌};
ghost use Rattle.elf_load.specs.declared.refusal.ElfRefusal.TheVariants.{Memory};

use std::alloc::{AllocError, AllocFailed};
use thiserror::Error;

/// Why a file was not loaded: memory ran out, or the first of the rules E1 to E13 that fails. As
/// text it is the rule with its numbers.
#[derive(Clone, Copy, Debug, PartialEq, Eq, Error)]
pub enum ElfRefusal {
    /// Memory ran out.
    #[error("memory")]
    Memory,
    /// E1: the file has fewer bytes than the ELF header.
    #[error("E1")]
    Short,
    /// E2: the file does not begin with the magic number.
    #[error("E2")]
    Magic,
    /// E3: the file is not for 32 bits.
    #[error("E3")]
    Class,
    /// E4: its numbers are not little-endian.
    #[error("E4")]
    Order,
    /// E5: its version is not 1.
    #[error("E5")]
    Version,
    /// E6: it is no executable file.
    #[error("E6")]
    Kind,
    /// E7: it is not for RISC-V.
    #[error("E7")]
    Machine,
    /// E8: it has compressed instructions (RISC-V psABI, EF_RISCV_RVC).
    #[error("E8")]
    Compressed,
    /// E9: there is no table of 1 to 64 program headers of 32 bytes within the file.
    #[error("E9")]
    Table,
    /// E10: a program header asks for dynamic linking or an interpreter.
    #[error("E10")]
    Dynamic,
    /// E11: this program header, by its index in the table, is the first whose segment has more
    /// bytes in the file than in memory, or ends outside the file or above 2^32.
    #[error("E11 {0}")]
    Segment(u32),
    /// E12: these two program headers are the first whose segments share an address.
    #[error("E12 {0} {1}")]
    Overlap(u32, u32),
    /// E13: the segments have more than 2^24 bytes together.
    #[error("E13")]
    Large,
}

impl From<AllocError> for ElfRefusal {
    ghost from_gives = { λ _ refusal. refusal ≡ Memory };

    fn from(_error: AllocError) -> ElfRefusal {
        ElfRefusal::Memory
    }
}

impl<T: Drop> From<AllocFailed<T>> for ElfRefusal {
    ghost from_gives = { λ _ refusal. refusal ≡ Memory };

    fn from(_error: AllocFailed<T>) -> ElfRefusal {
        ElfRefusal::Memory
    }
}
