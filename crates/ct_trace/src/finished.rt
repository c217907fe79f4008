//! How a call of the program ended.

ghost use Rattle.std.specs.Prelude.{◌≡◌};
ghost use Rattle.ct_main.specs.Status.{ended_status};

use ct_main::Refusal;

/// How a call of the program ended.
#[derive(Clone, Copy, Debug, PartialEq, Eq)]
pub struct Finished {
    /// The exit status: 0 for a whole trace, and from 64 on a refusal's.
    pub status: u8,
    /// Why no whole trace was written, if none was.
    pub refusal: Option<Refusal>,
}

impl Finished {
    /// The end of a call with this refusal, or with none.
    pub(crate) fn by(refusal: Option<Refusal>) -> Self
        ensures { result ≡ record { status = ended_status 0 refusal; refusal = refusal } }
    {
        let status = match refusal {
            Some(refusal) => refusal.status(),
            None => 0,
        };
        Finished { status, refusal }
    }
}
