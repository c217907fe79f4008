//! Ranges of addresses.
ghost use Rattle.std.specs.Prelude.{◌≡◌, ◌<◌, ◌≤◌, ◌^◌, length, find, position, IfSome};
ghost use Rattle.std.specs.Option.{option_copied};
ghost use Rattle.ct_policy.specs.Regions as ranges;

use elf_load::{AddressRange, MEMORY_END, MOST_MEMORY, first_overlap};

/// The addresses of a segment, of a memory entry or of an input: `length` of them from `at + offset` on.
#[derive(Clone, Copy, Debug, Drop, PartialEq, Eq)]
pub(crate) struct Region {
    pub at: u32,
    pub offset: u32,
    pub length: u32,
}

impl Region {
    pub fn holds(self, address: u64) -> bool
        ensures { result ≡ ranges.holds address self }
    {
        self.start() <= address && address < self.end()
    }

    /// Whether each address is below 2^32, and in one of the accessible regions.
    #[tactic(auto, unfolding(crate::specs::Regions::is_accessible))]
    pub fn is_accessible(self, accessible: &[Region]) -> bool
        ensures { result ≡ ranges.is_accessible accessible.now self }
    {
        let end = self.end();
        let mut next = self.start();
        while next < end {
            if next >= MEMORY_END {
                return false;
            }
            let Some(region) = holder(accessible, next) else {
                return false;
            };
            next = region.end().min(MEMORY_END);
        }
        true
    }
}

impl AddressRange for Region {
    ghost first = { ranges.start_of };

    ghost past = { ranges.end_of };

    fn start(&self) -> u64 {
        u64::from(self.at) + u64::from(self.offset)
    }

    fn end(&self) -> u64 {
        u64::from(self.at) + u64::from(self.offset) + u64::from(self.length)
    }
}

/// The first region that has the address.
fn holder(regions: &[Region], address: u64) -> Option<&Region>
    ensures { option_copied result ≡ find (ranges.holds address) regions.now }
{
    regions.iter().find(|region| region.holds(address))
}

/// The first region that is not accessible.
#[tactic(auto, unfolding(crate::specs::Regions::first_outside))]
pub(crate) fn first_outside(accessible: &[Region], regions: &[Region]) -> Option<usize>
    ensures first { result ≡ ranges.first_outside accessible.now regions.now }
    ensures within { IfSome result (λ index. index < length regions.now) }
{
    regions
        .iter()
        .position(|region| !region.is_accessible(accessible))
}

/// Whether the regions have at most 2^24 addresses in all.
fn are_small(regions: &[Region]) -> bool
    ensures { result ≡ ranges.are_small regions.now }
{
    let mut total: u64 = 0;
    for region in regions {
        total += u64::from(region.length);
        if total > MOST_MEMORY {
            return false;
        }
    }
    true
}

fn end_in_memory(regions: &[Region]) -> bool
    ensures { result ≡ ranges.end_in_memory regions.now }
{
    regions.iter().all(|region| region.end() <= MEMORY_END)
}

/// Whether the regions can be memory together.
#[tactic(auto, unfolding(crate::specs::Regions::fit_memory))]
pub(crate) fn fit_memory(regions: &[Region]) -> bool
    ensures { result ≡ ranges.fit_memory regions.now }
{
    end_in_memory(regions) && first_overlap(regions).is_none() && are_small(regions)
}
