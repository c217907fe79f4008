//! Laws of checks.

ghost use Rattle.std.specs.Prelude.{◌≡◌, []};
ghost use Rattle.ct_pairs.specs.Sites.{AreLeakSites};
ghost use Rattle.ct_pairs.specs.Covered.{sites_of};
ghost use Rattle.ct_report.specs.Outcomes.{IsCheckOf};

use ct_pairs::Job;
use ct_report::Outcome;

/// A law: where a check leaves no question open, its sites and steps are exactly the leak sites.
pub fn leak_sites_law(job: &Job, outcome: &Outcome)
    requires check { IsCheckOf job.now outcome.now }
    requires nothing { outcome.now.listed ≡ [] }
    ensures { AreLeakSites job.now (sites_of outcome.now.sites) }
{}
