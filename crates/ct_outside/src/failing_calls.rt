//! Calls counted from 0, of which chosen ones fail.

ghost use Rattle.std.specs.Prelude.{◌≡◌};
ghost use Rattle.ct_outside.specs.Calls.{is_listed};
ghost use Rattle.ct_outside.specs.Count.{raised_by};

/// Counts calls from 0, and knows which of them are to fail.
#[derive(Drop)]
pub(crate) struct FailingCalls {
    pub(crate) failing: Vec<u64>,
    pub(crate) made: u64,
}

impl FailingCalls {
    /// Counts a call, and says whether it is to fail.
    pub(crate) fn fails_next(&mut self) -> bool
        ensures listed { result ≡ is_listed self.old.failing.items self.old.made }
        ensures counted { self.new.made ≡ raised_by 1 self.old.made }
        ensures same { self.new.failing ≡ self.old.failing }
    {
        let listed = self.failing.contains(&self.made);
        self.made = self.made.saturating_add(1);
        listed
    }
}
