//! What a check says of a routine.
ghost use Rattle.std.specs.Prelude.{◌≡◌};

/// What a check says of a routine, up to its bound.
#[derive(Clone, Copy, Debug, PartialEq, Eq)]
pub enum Finding {
    /// Each pair of starts shows one sequence of addresses.
    Secure,
    /// Some pair of starts can be told apart.
    Insecure,
    /// No such pair was found, and some question was left open.
    Unknown,
}

impl Finding {
    ghost use Rattle.ct_report.specs.Report.{finding_name};

    pub fn name(self) -> &'static str
        ensures { result.now ≡ finding_name self }
    {
        match self {
            Finding::Secure => "secure",
            Finding::Insecure => "insecure",
            Finding::Unknown => "unknown",
        }
    }
}
