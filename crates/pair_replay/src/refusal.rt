//! Why a text is no pair.
ghost use Rattle.std.specs.Prelude.{◌≡◌};
ghost use Rattle.pair_replay.specs.declared.refusal.PairRefusal.TheVariants.{Memory};

use std::alloc::AllocError;
use thiserror::Error;

/// Why a text is no pair of a job.
#[derive(Clone, Copy, Debug, PartialEq, Eq, Error)]
pub enum PairRefusal {
    /// There was no memory.
    #[error("memory")]
    Memory,
    /// The first line, counted from 1, that is missing, isn't as it is to be, or has another length; 5
    /// where something follows the fourth.
    #[error("line {0}")]
    Line(u32),
}

impl From<AllocError> for PairRefusal {
    ghost from_gives = { λ _ refusal. refusal ≡ Memory };

    fn from(_error: AllocError) -> PairRefusal {
        PairRefusal::Memory
    }
}
