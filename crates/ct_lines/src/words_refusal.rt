//! Why words gave no command.

ghost use Rattle.std.specs.Prelude.{◌≡◌};
ghost use Rattle.ct_lines.specs.declared.words_refusal.WordsRefusal.TheVariants.{Memory};

use std::alloc::AllocError;
use thiserror::Error;

/// Why words gave no command.
#[derive(Clone, Copy, Debug, PartialEq, Eq, Hash, Error)]
pub enum WordsRefusal {
    /// There was no memory to keep the command.
    #[error("memory")]
    Memory,
    /// The words are no command.
    #[error("words")]
    Refused,
}

impl From<AllocError> for WordsRefusal {
    ghost from_gives = { λ _ refusal. refusal ≡ Memory };

    fn from(_error: AllocError) -> WordsRefusal {
        WordsRefusal::Memory
    }
}
