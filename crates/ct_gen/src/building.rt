//! The file and the policy of a number and a size.
ghost use Rattle.std.specs.Prelude.{◌≡◌, ◌≤◌, None, IfOk};
ghost use Rattle.elf_load.specs.File.{first_refusal};
ghost use Rattle.elf_load.specs.Loading.{elf_of};
ghost use Rattle.ct_policy.specs.Rules.{first_policy_refusal};
ghost use Rattle.ct_gen.specs.Building.{built_of};

use crate::code::code_of;
use crate::file::file_of;
use crate::policy::policy_of;
use ct_rows::Row;
use std::alloc::{AllocError, Global};

/// An executable, and a policy for it.
#[derive(Debug, Drop)]
pub struct Built {
    /// The bytes of the ELF file.
    pub file: Row<u8>,
    /// The text of the policy.
    pub policy: Row<u8>,
    /// How many words the code has.
    pub words: u32,
}

/// The file and the policy of a number and a size of 1 to 20,000 blocks of code. Time and memory grow
/// with the size.
#[tactic(auto, unfolding(crate::specs::Building::built_of))]
pub fn build(alloc: Global, number: u32, size: u32) -> Result<Built, AllocError>
    requires least { 1 ≤ size }
    requires most { size ≤ 20000 }
    ensures built { IfOk result (λ built. built ≡ built_of number size) }
    // The file meets E1 to E13, and the policy meets P1 to P10 in it.
    ensures loads { IfOk result (λ built. first_refusal built.file ≡ None) }
    ensures reads { IfOk result (λ built. first_policy_refusal (elf_of built.file) built.policy ≡ None) }
{
    let code = code_of(alloc, number, size)?;
    let words = code.len() as u32;
    let file = file_of(alloc, &code)?;
    let policy = policy_of(alloc, words)?;
    Ok(Built {
        file: Row::from_vec(file),
        policy: Row::from_vec(policy.into_bytes()),
        words,
    })
}
