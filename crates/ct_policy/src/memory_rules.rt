//! The rules on addresses and sizes.
ghost use Rattle.std.specs.Prelude.{◌≡◌, ◌≤◌, ◌++◌, length, map, IfOk, OnOk};
ghost use Rattle.elf_load.specs.Layout.{FitsMemory, segment_extents};
ghost use Rattle.ct_policy.specs.Limits.{HaveWordSizes};
ghost use Rattle.ct_policy.specs.Policy.{accessible, input_regions, memory_region, segment_region};
ghost use Rattle.ct_policy.specs.Rules as rules;

use crate::inputs::{input_region, input_size};
use crate::memory::memory_region;
use crate::region::{Region, first_outside, fit_memory};
use ct_document::{Input, MemoryEntry, Policy, PolicyRefusal};
use ct_pairs::MOST_INPUTS;
use elf_load::{Elf, Segment, first_overlap};
use std::alloc::{AllocError, Global};

fn push_segments(regions: &mut Vec<Region>, segments: &[Segment]) -> Result<(), AllocError>
    requires { HaveWordSizes segments.now }
    ensures { OnOk result (regions.new.items ≡ regions.old.items ++ map segment_region segments.now) }
{
    for segment in segments {
        regions.push(Region {
            at: segment.address,
            offset: 0,
            length: segment.bytes.len() as u32,
        })?;
    }
    Ok(())
}

fn push_entries(regions: &mut Vec<Region>, entries: &[MemoryEntry]) -> Result<(), AllocError>
    ensures { OnOk result (regions.new.items ≡ regions.old.items ++ map memory_region entries.now) }
{
    for entry in entries {
        regions.push(memory_region(*entry))?;
    }
    Ok(())
}

/// The accessible addresses.
#[tactic(auto, unfolding(crate::specs::Policy::accessible))]
fn accessible(alloc: Global, elf: &Elf, policy: &Policy) -> Result<Vec<Region>, AllocError>
    requires { FitsMemory (segment_extents elf.now) }
    ensures { IfOk result (λ regions. regions.items ≡ accessible elf.now policy.now) }
{
    let mut regions = Vec::new(alloc);
    push_segments(&mut regions, elf.segments.as_slice())?;
    push_entries(&mut regions, policy.memory.as_slice())?;
    Ok(regions)
}

/// The addresses of the inputs.
#[tactic(auto, unfolding(crate::specs::Policy::input_regions))]
fn input_regions(alloc: Global, policy: &Policy) -> Result<Vec<Region>, AllocError>
    ensures { IfOk result (λ regions. regions.items ≡ input_regions policy.now) }
{
    policy
        .inputs
        .as_slice()
        .iter()
        .map(|input| input_region(*input))
        .collect(alloc)
}

/// P8: whether there are few input bytes.
#[tactic(auto, unfolding(crate::specs::Rules::are_few))]
fn are_few(inputs: &[Input]) -> bool
    requires { length inputs.now ≤ 64 }
    ensures { result ≡ rules.are_few inputs.now }
{
    let mut total: u64 = 0;
    for input in inputs {
        total += u64::from(input_size(*input));
    }
    total <= u64::from(MOST_INPUTS)
}

/// The first of the rules P6 to P9 that fails.
#[tactic(auto, unfolding(crate::specs::Rules::memory_refusal))]
pub(crate) fn memory_refusal(
    alloc: Global,
    elf: &Elf,
    policy: &Policy,
) -> Result<Option<PolicyRefusal>, AllocError>
    requires fits { FitsMemory (segment_extents elf.now) }
    requires short { length policy.now.inputs ≤ 64 }
    ensures { IfOk result (λ refusal. refusal ≡ rules.memory_refusal elf.now policy.now) }
{
    let accessible = accessible(alloc, elf, policy)?;
    let regions = input_regions(alloc, policy)?;
    if let Some(index) = first_outside(&accessible, &regions) {
        return Ok(Some(PolicyRefusal::Region(index as u32)));
    }
    if let Some((left, right)) = first_overlap(&regions) {
        return Ok(Some(PolicyRefusal::RegionOverlap(left as u32, right as u32)));
    }
    if !are_few(policy.inputs.as_slice()) {
        Ok(Some(PolicyRefusal::Inputs))
    } else if !fit_memory(&accessible) {
        Ok(Some(PolicyRefusal::Memories))
    } else {
        Ok(None)
    }
}
