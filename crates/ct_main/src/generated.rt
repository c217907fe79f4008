//! Generated code and the job that it is checked for.

ghost use Rattle.std.specs.Prelude.{◌≡◌, [], IfOk, IfErr};
ghost use Rattle.ct_lines.specs.Words.{IsWithin};
ghost use Rattle.ct_lines.specs.declared.command.TheConstants.{MOST_BLOCKS};
ghost use Rattle.ct_main.specs.Tasks.{IsGenerated};

use crate::refusal::Refusal;
use ct_gen::build;
use ct_pairs::{Job, USUAL_BUDGET, USUAL_TARGETS};
use ct_policy::{Options, read};
use elf_load::load;
use std::alloc::Global;

/// Generated code and the job that it is checked for.
#[derive(Debug, Drop)]
pub struct Generated {
    /// The number that it was made from.
    pub number: u32,
    /// How many blocks it has.
    pub size: u32,
    /// How many words it has.
    pub words: u32,
    /// The job of the generated file and of its policy.
    pub job: Job,
}

impl Generated {
    /// Builds a file and its policy, and reads them as if they had been given; they are refused for want of memory alone.
    pub(crate) fn of(alloc: Global, number: u32, size: u32) -> Result<Generated, Refusal>
        requires { IsWithin 1 MOST_BLOCKS size }
        ensures generated { IfOk result (IsGenerated number size []) }
        ensures refused { IfErr result (λ refusal. refusal ≡ Refusal.Memory) }
    {
        let options = Options {
            bound: None,
            budget: USUAL_BUDGET,
            targets: USUAL_TARGETS,
        };
        let built = build(alloc, number, size)?;
        let elf = load(alloc, built.file.as_slice())?;
        let job = read(alloc, built.policy.as_slice(), &elf, &options)?;
        Ok(Generated {
            number,
            size,
            words: built.words,
            job,
        })
    }
}
