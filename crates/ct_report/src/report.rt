//! The report of a check.
ghost use Rattle.std.specs.Prelude.{◌≡◌, ◌↔◌, IsTrue, IfOk};
ghost use Rattle.ct_report.specs.Report.{SitesHaveKinds, report_of};

use crate::lines::push_number_line;
use crate::outcome::Outcome;
use crate::place::push_places;
use crate::site::{has_kind, push_sites};
use ct_pairs::{Found, Job};
use ct_rows::Text;
use std::alloc::{AllocError, Global};
use std::fmt::Write;

/// Whether sites can be reported: the image has at each of them a load, a store, a branch or a jump.
pub fn can_report(job: &Job, sites: &[Found]) -> bool
    ensures { IsTrue result ↔ SitesHaveKinds job.now sites.now }
{
    sites.iter().all(|found| has_kind(&job.image, found.site))
}

/// The report of a job and of what a check of it found. Time and memory grow with the sites and with
/// the values of their pairs, and with the control paths of open questions.
#[tactic(auto, unfolding(crate::specs::Report::report_of))]
pub fn report_text(alloc: Global, job: &Job, outcome: &Outcome) -> Result<Text, AllocError>
    requires { SitesHaveKinds job.now outcome.now.sites }
    ensures { IfOk result (λ text. text ≡ report_of job.now outcome.now) }
{
    let mut text = String::from_str(alloc, "ctrel report 1\n")?;
    writeln!(text, "verdict {}", outcome.verdict().name())?;
    push_number_line(&mut text, "bound", u128::from(job.bound))?;
    push_number_line(&mut text, "paths", outcome.paths)?;
    push_number_line(&mut text, "doubts", outcome.doubts)?;
    push_number_line(&mut text, "sites", outcome.sites.len() as u128)?;
    push_sites(alloc, &mut text, &job.image, outcome.sites.as_slice())?;
    push_number_line(&mut text, "places", outcome.listed.len() as u128)?;
    push_places(alloc, &mut text, job, outcome.listed.as_slice())?;
    Ok(Text::from_string(text))
}
