//! The check of all pairs of one secret byte.
ghost use Rattle.std.specs.Prelude.{◌≡◌, IfOk, All};
ghost use Rattle.ct_pairs.specs.Inputs.{public_count, secret_count};
ghost use Rattle.ct_pairs.specs.Sites.{AreLeakSites};
ghost use Rattle.ct_pairs.specs.LeastPair.{IsLeastPair};
ghost use Rattle.ct_pairs.specs.Paths.{path_count};
ghost use Rattle.ct_pairs.specs.Covered.{sites_of, CoversPairs};

use crate::byte_table::ByteTable;
use crate::job::Job;
use crate::noting::found_rows;
use crate::runs::Runs;
use crate::survey::{Survey, survey_value};
use ct_rows::Row;
use indexmap::IndexSet;
use std::alloc::{AllocError, Global};
use std::collections::BTreeMap;

/// Compares all pairs of values of the one secret byte, and counts the control paths.
///
/// Only the least value of each different trail is compared with others. Time grows with the square
/// of the number of different trails, times the bound and the accessible bytes. Memory grows with the
/// accessible bytes, three times, with the number of leak sites, and with the different lists of next
/// addresses, each at most as long as the bound.
pub fn byte_check(alloc: Global, job: &Job) -> Result<ByteTable, AllocError>
    requires public { public_count job.now.inputs ≡ 0 }
    requires secret { secret_count job.now.inputs ≡ 1 }
    // The rows are exactly the leak sites in ascending address, each with its least step.
    ensures sites { IfOk result (λ table. AreLeakSites job.now (sites_of table.sites)) }
    // Each row has the least pair that splits there in that step.
    ensures pairs { IfOk result (λ table.
        All (λ found. IsLeastPair job.now found.site found.step found.pair) table.sites) }
    ensures paths { IfOk result (λ table. table.paths ≡ path_count job.now) }
    // Every pair of starts agrees up to the bound, or first splits at a site of the table, no earlier.
    ensures covered { IfOk result (λ table. CoversPairs job.now table.sites) }
{
    let mut runs = Runs::new(alloc, job)?;
    let mut survey = Survey {
        representatives: Vec::new(alloc),
        leaks: BTreeMap::new(alloc),
        paths: IndexSet::new(alloc),
    };
    for value in 0..256u32 {
        survey_value(alloc, job, &mut runs, &mut survey, value as u8)?;
    }
    let sites = found_rows(alloc, &survey.leaks)?;
    Ok(ByteTable {
        sites: Row::from_vec(sites),
        paths: survey.paths.len() as u64,
    })
}
