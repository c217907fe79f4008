//! The job of a routine with one secret byte.
ghost use Rattle.std.specs.Prelude.{◌≡◌, ◌≢◌, ◌≤◌, Some, IfOk, IfErr};
ghost use Rattle.elf_load.specs.Layout.{FitsMemory, segment_extents};
ghost use Rattle.ct_pairs.specs.Limits.{IsBound};
ghost use Rattle.ct_policy.specs.ByteJob.{entry_address, byte_refusal, IsByteJobAt};

use crate::images::startable_image;
use ct_document::PolicyRefusal;
use ct_pairs::{Entry, Job};
use elf_load::Elf;
use std::alloc::Global;

/// The address of an entry.
#[tactic(auto, unfolding(crate::specs::ByteJob::entry_address))]
fn entry_address(elf: &Elf, entry: &Entry) -> Option<u32>
    ensures { result ≡ entry_address elf.now entry.now }
{
    match entry {
        Entry::Number(address) => Some(*address),
        Entry::Name(name) => elf.symbol(name.as_str()),
    }
}

/// The job of one secret byte in a0, with all other registers 0, at a routine of a file.
pub fn byte_job(alloc: Global, elf: &Elf, entry: &Entry, bound: u32) -> Result<Job, PolicyRefusal>
    requires fits { FitsMemory (segment_extents elf.now) }
    requires bound { IsBound bound }
    // The entry is an address at which an instruction can be fetched, and the job is the one of one secret byte there.
    ensures job { IfOk result (IsByteJobAt elf.now entry.now bound) }
    // The entry is a name of no symbol, or no instruction can be fetched there, unless memory ran out.
    ensures refused { IfErr result
        (λ refusal. refusal ≢ PolicyRefusal.Memory → byte_refusal elf.now entry.now ≡ Some refusal) }
{
    let Some(address) = entry_address(elf, entry) else {
        return Err(PolicyRefusal::NoSymbol);
    };
    let image = startable_image(alloc, elf, &[], address)?;
    Ok(ct_pairs::byte_job(alloc, image, address, bound)?)
}
