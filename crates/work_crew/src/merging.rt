//! What was found and listed, put in order.
ghost use Rattle.std.specs.Prelude.{◌≡◌, IfOk};
ghost use Rattle.std.specs.List.Sorted.{IsPermutation, IsSorted};
ghost use Rattle.ct_report.specs.Outcomes.{cause_rank, place_order};
ghost use Rattle.work_crew.specs.Merging.{IsMerged};

use ct_entries::{Cause, Listed};
use ct_pairs::Found;
use std::alloc::AllocError;

/// The table of what was found: the least step of each site, in ascending address. Takes time in proportion to the
/// entries, times the logarithm of their count.
pub fn merged(found: Vec<Found>) -> Result<Vec<Found>, AllocError>
    ensures { IfOk result (λ table. IsMerged found.items table.items) }
{
    let mut table = found;
    table.sort_by(|one, other| { one.site.cmp(&other.site).then(one.step.cmp(&other.step)) })?;
    table.dedup_by_key(|one| one.site);
    Ok(table)
}

fn rank_of(cause: &Cause) -> u8
    ensures { result ≡ cause_rank cause.now }
{
    match cause {
        Cause::SpentLeak { .. } => 0,
        Cause::SpentNext { .. } => 1,
        Cause::Over { .. } => 2,
    }
}

/// The places in their order.
pub fn put_in_order(listed: Vec<Listed>) -> Result<Vec<Listed>, AllocError>
    ensures permutation { IfOk result (λ places. IsPermutation listed.items places.items) }
    ensures sorted { IfOk result (λ places. IsSorted place_order places.items) }
{
    let mut places = listed;
    places.sort_by(|one, other| {
        one.path
            .as_slice()
            .cmp(other.path.as_slice())
            .then(rank_of(&one.cause).cmp(&rank_of(&other.cause)))
    })?;
    Ok(places)
}
