//! Laws of sites and their instructions.
ghost use Rattle.std.specs.Prelude.{ℕ};
ghost use Rattle.ct_pairs.specs.declared.pair.Pair.{Pair};
ghost use Rattle.ct_pairs.specs.Covered.{AreTrueSites};
ghost use Rattle.ct_pairs.specs.Split.{SplitsAt};
ghost use Rattle.ct_report.specs.Kind.{HasKind};
ghost use Rattle.ct_report.specs.Report.{SitesHaveKinds};

use ct_pairs::{Found, Job};

/// A law: pairs of a job split only at loads, stores, branches and jumps.
pub fn site_law(job: &Job)
    ensures { (pair : Pair) (site step : ℕ) → SplitsAt job.now pair site step → HasKind job.now.image site }
{}

/// A law: sites at each of which the found pair first splits can be reported.
pub fn sites_law(job: &Job, sites: &[Found])
    requires { AreTrueSites job.now sites.now }
    ensures { SitesHaveKinds job.now sites.now }
{}
