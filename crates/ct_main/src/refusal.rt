//! Why the program wrote no text, or not the whole of one.

ghost use Rattle.std.specs.Prelude.{◌≡◌};
ghost use Rattle.ct_main.specs.declared.refusal.Refusal.TheVariants.{Memory, WriteFault};
ghost use Rattle.ct_main.specs.Refusals.{words_refusal, read_refusal, elf_refusal, policy_refusal, pair_refusal};

use ct_lines::WordsRefusal;
use ct_outside::{ReadEnd, WriteEnd};
use ct_policy::PolicyRefusal;
use elf_load::ElfRefusal;
use pair_replay::PairRefusal;
use std::alloc::AllocError;
use thiserror::Error;

/// Why the program wrote no text, or not the whole of one. As text it is the line on standard
/// error, without the program's name.
#[derive(Clone, Copy, Debug, PartialEq, Eq, Error)]
pub enum Refusal {
    /// The words are no command.
    #[error("words")]
    Words,
    /// The file is no static RV32IM executable.
    #[error("elf {0}")]
    Elf(ElfRefusal),
    /// The policy, or the entry of a routine, meets not every rule.
    #[error("policy {0}")]
    Policy(PolicyRefusal),
    /// A file has more than `ct_outside::LONGEST` bytes.
    #[error("long")]
    Long,
    /// This line of the pair's text, counted from 1, is the first that isn't as it is to be.
    #[error("pair line {0}")]
    PairText(u32),
    /// There was no memory.
    #[error("memory")]
    Memory,
    /// A file isn't there, or reading it failed.
    #[error("read")]
    ReadFault,
    /// The output failed; what it took is a front of the text.
    #[error("write")]
    WriteFault,
}

impl Refusal {
    ghost use Rattle.ct_main.specs.Status.{refusal_status};

    /// The program's exit status.
    pub fn status(self) -> u8
        ensures { result ≡ refusal_status self }
    {
        match self {
            Refusal::Words => 64,
            Refusal::Elf(_) => 65,
            Refusal::Policy(_) => 66,
            Refusal::Long => 67,
            Refusal::PairText(_) => 68,
            Refusal::Memory => 70,
            Refusal::ReadFault => 74,
            Refusal::WriteFault => 75,
        }
    }
}

impl From<AllocError> for Refusal {
    ghost from_gives = { λ _ refusal. refusal ≡ Memory };

    fn from(_: AllocError) -> Self {
        Refusal::Memory
    }
}

impl From<WordsRefusal> for Refusal {
    ghost from_gives = { λ words refusal. refusal ≡ words_refusal words };

    fn from(words: WordsRefusal) -> Self {
        match words {
            WordsRefusal::Memory => Refusal::Memory,
            WordsRefusal::Refused => Refusal::Words,
        }
    }
}

impl From<ReadEnd> for Refusal {
    ghost from_gives = { λ end refusal. refusal ≡ read_refusal end };

    fn from(end: ReadEnd) -> Self {
        match end {
            ReadEnd::Memory => Refusal::Memory,
            ReadEnd::Fault => Refusal::ReadFault,
            ReadEnd::Long => Refusal::Long,
        }
    }
}

impl From<ElfRefusal> for Refusal {
    ghost from_gives = { λ rule refusal. refusal ≡ elf_refusal rule };

    fn from(rule: ElfRefusal) -> Self {
        match rule {
            ElfRefusal::Memory => Refusal::Memory,
            rule => Refusal::Elf(rule),
        }
    }
}

impl From<PolicyRefusal> for Refusal {
    ghost from_gives = { λ rule refusal. refusal ≡ policy_refusal rule };

    fn from(rule: PolicyRefusal) -> Self {
        match rule {
            PolicyRefusal::Memory => Refusal::Memory,
            rule => Refusal::Policy(rule),
        }
    }
}

impl From<PairRefusal> for Refusal {
    ghost from_gives = { λ pair refusal. refusal ≡ pair_refusal pair };

    fn from(pair: PairRefusal) -> Self {
        match pair {
            PairRefusal::Memory => Refusal::Memory,
            PairRefusal::Line(line) => Refusal::PairText(line),
        }
    }
}

impl From<WriteEnd> for Refusal {
    ghost from_gives = { λ _ refusal. refusal ≡ WriteFault };

    fn from(_: WriteEnd) -> Self {
        Refusal::WriteFault
    }
}
