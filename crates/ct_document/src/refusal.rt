//! Why a policy is refused.
ghost use Rattle.std.specs.Prelude.{◌≡◌};
ghost use Rattle.ct_document.specs.declared.refusal.PolicyRefusal.TheVariants.{Memory};

use std::alloc::{AllocError, AllocFailed};
use thiserror::Error;

/// Why a policy gave no job: memory ran out, or the first of the rules P1 to P10 that fails.
#[derive(Clone, Copy, Debug, PartialEq, Eq, Error)]
pub enum PolicyRefusal {
    /// Memory ran out.
    #[error("memory")]
    Memory,
    /// P1: the bytes are no TOML document.
    #[error("P1")]
    Toml,
    /// P2: a key is unknown or missing, or its value has another type or text.
    #[error("P2")]
    Field,
    /// P3: a text in the place of an address names no symbol.
    #[error("P3")]
    NoSymbol,
    /// P4: a number is outside its range, or a list is longer than 64.
    #[error("P4")]
    Number,
    /// P5: a name is none of the registers x1 to x31, or a register is named twice.
    #[error("P5")]
    Register,
    /// P6: this input, by its index among all inputs, is the first with an address that is not accessible.
    #[error("P6 {0}")]
    Region(u32),
    /// P7: these two inputs, by their indices among all inputs, are the first that share an address.
    #[error("P7 {0} {1}")]
    RegionOverlap(u32, u32),
    /// P8: there are more than 4,096 input bytes.
    #[error("P8")]
    Inputs,
    /// P9: a memory entry ends above 2^32, or shares an address with a segment or another entry, or
    /// more than 2^24 bytes are accessible.
    #[error("P9")]
    Memories,
    /// P10: no instruction can be fetched at the entry.
    #[error("P10")]
    Entry,
}

impl From<AllocError> for PolicyRefusal {
    ghost from_gives = { λ _ refusal. refusal ≡ Memory };

    fn from(_error: AllocError) -> PolicyRefusal {
        PolicyRefusal::Memory
    }
}

impl<T: Drop> From<AllocFailed<T>> for PolicyRefusal {
    ghost from_gives = { λ _ refusal. refusal ≡ Memory };

    fn from(_error: AllocFailed<T>) -> PolicyRefusal {
        PolicyRefusal::Memory
    }
}
