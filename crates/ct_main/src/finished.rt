//! How a call of the program ended.

ghost use Rattle.std.specs.Prelude.{◌≡◌, None, Some};
ghost use Rattle.ct_main.specs.FindingStatus.{finding_status as finding_code};

use crate::refusal::Refusal;
use ct_report::{Finding, Outcome};

/// How a call of the program ended.
#[derive(Debug, Drop)]
pub struct Finished {
    /// The exit status: 0 secure, runs that agree, or a whole trace or list; 1 insecure, or runs that
    /// differ; 2 unknown; and from 64 on a refusal's.
    pub status: u8,
    /// What the check found, where it ran to its end.
    pub outcome: Option<Outcome>,
    /// Why no whole text was written, if none was.
    pub refusal: Option<Refusal>,
}

impl Finished {
    ghost use Rattle.ct_main.specs.Status.{refusal_status, ended_status};

    /// The end of a call that ran nothing.
    pub(crate) fn refused(refusal: Refusal) -> Self
        ensures { result ≡ record { status = refusal_status refusal; outcome = None; refusal = Some refusal } }
    {
        Finished {
            status: refusal.status(),
            outcome: None,
            refusal: Some(refusal),
        }
    }

    /// The end of a call whose files passed, with the status of the text and the outcome of a check.
    pub(crate) fn ended(status: u8, outcome: Option<Outcome>, refusal: Option<Refusal>) -> Self
        ensures { result ≡ record { status = ended_status status refusal; outcome = outcome; refusal = refusal } }
    {
        let status = match refusal {
            Some(refusal) => refusal.status(),
            None => status,
        };
        Finished {
            status,
            outcome,
            refusal,
        }
    }
}

/// The exit status of a check whose whole report was written.
pub(crate) fn finding_status(finding: Finding) -> u8
    ensures { result ≡ finding_code finding }
{
    match finding {
        Finding::Secure => 0,
        Finding::Insecure => 1,
        Finding::Unknown => 2,
    }
}
