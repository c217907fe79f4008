//! When the search starts anew.

// A restart is due when so many lines, times the restarts made and one, were learnt since the last one.
const LINES_TO_RESTART: u64 = 64;

/// Counts lines and restarts. Nothing here is promised.
#[derive(Debug, Clone, Copy)]
pub(crate) struct Pace {
    lines: u64,
    restarts: u64,
    pub is_due: bool,
}

impl Pace {
    ghost use Rattle.std.specs.Prelude.{◌≡◌, false};

    pub(crate) fn new() -> Pace
        ensures { result.is_due ≡ false }
    {
        Pace {
            lines: 0,
            restarts: 0,
            is_due: false,
        }
    }

    pub(crate) fn learn(&mut self) {
        self.lines = self.lines.saturating_add(1);
        let turns = self.restarts.saturating_add(1);
        self.is_due = self.lines >= turns.saturating_mul(LINES_TO_RESTART);
    }

    pub(crate) fn restart(&mut self)
        ensures { self.new.is_due ≡ false }
    {
        self.lines = 0;
        self.restarts = self.restarts.saturating_add(1);
        self.is_due = false;
    }
}
