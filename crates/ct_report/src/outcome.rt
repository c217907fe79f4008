//! What a check found.
ghost use Rattle.std.specs.Prelude.{◌≡◌, ◌≢◌, ◌↔◌, []};
ghost use Rattle.ct_report.specs.Report.{finding_of, outcome_of};

use crate::finding::Finding;
use ct_entries::Listed;
use ct_pairs::{ByteTable, Found};
use ct_rows::Row;
use std::alloc::Global;

/// What a check of a job found, up to its bound.
#[derive(Debug, Drop)]
pub struct Outcome {
    /// The sites at which some pair of starts can be told apart, in ascending address.
    pub sites: Row<Found>,
    /// The questions that were left open, in the order of their control paths.
    pub listed: Row<Listed>,
    /// How many questions whether a path can be taken stayed open.
    pub doubts: u128,
    /// How many different ways through the code were met.
    pub paths: u128,
}

impl Outcome {
    /// The outcome of a check of all pairs, which leaves no question open. Takes no memory.
    pub fn of_table(alloc: Global, table: ByteTable) -> Outcome
        ensures { result ≡ outcome_of table }
    {
        Outcome {
            sites: table.sites,
            listed: Row::from_vec(Vec::new(alloc)),
            doubts: 0,
            paths: u128::from(table.paths),
        }
    }

    /// What the sites and the open questions say of the job.
    pub fn verdict(&self) -> Finding
        ensures value { result ≡ finding_of self.now }
        ensures secure { (result ≡ Finding.Secure) ↔ ((self.now.sites ≡ []) × (self.now.listed ≡ [])) }
        ensures insecure { (result ≡ Finding.Insecure) ↔ (self.now.sites ≢ []) }
    {
        match (self.sites.is_empty(), self.listed.is_empty()) {
            (false, _) => Finding::Insecure,
            (true, false) => Finding::Unknown,
            (true, true) => Finding::Secure,
        }
    }
}
