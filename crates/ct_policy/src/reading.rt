//! From the bytes of a policy to its job.
ghost use Rattle.std.specs.Prelude.{◌≡◌, ◌≢◌, Some, IfOk, IfErr};
ghost use Rattle.elf_load.specs.Layout.{FitsMemory, segment_extents};
ghost use Rattle.ct_policy.specs.Job.{IsJobOfBytes};
ghost use Rattle.ct_policy.specs.Limits.{AreOptions};
ghost use Rattle.ct_policy.specs.Rules.{first_policy_refusal};

use crate::jobs::job_of;
use crate::memory_rules::memory_refusal;
use crate::options::Options;
use crate::value_rules::value_refusal;
use ct_document::{Policy, PolicyRefusal, read_document};
use ct_pairs::Job;
use elf_load::Elf;
use std::alloc::Global;

/// Reads a policy, a TOML document, and answers the job that it stands for in a file, with the options.
#[tactic(auto, unfolding(crate::specs::Rules::first_policy_refusal))]
pub fn read(alloc: Global, bytes: &[u8], elf: &Elf, options: &Options) -> Result<Job, PolicyRefusal>
    requires fits { FitsMemory (segment_extents elf.now) }
    requires options { AreOptions options.now }
    // The policy meets P1 to P10, and the job is the one for which it stands.
    ensures job { IfOk result (IsJobOfBytes elf.now options.now bytes.now) }
    // The policy fails this rule first, unless memory ran out.
    ensures refused { IfErr result
        (λ refusal. refusal ≢ PolicyRefusal.Memory → first_policy_refusal elf.now bytes.now ≡ Some refusal) }
{
    let document = read_document(alloc, bytes)?;
    let policy = Policy::of(alloc, elf, &document)?;
    if let Some(refusal) = value_refusal(alloc, &policy)? {
        return Err(refusal);
    }
    if let Some(refusal) = memory_refusal(alloc, elf, &policy)? {
        return Err(refusal);
    }
    job_of(alloc, elf, &policy, options)
}
