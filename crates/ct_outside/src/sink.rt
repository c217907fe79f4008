//! The trait of what texts are written to.

ghost use Rattle.std.specs.Prelude.{◌≡◌, ◌<◌, ◌≤◌, ◌+◌, ℕ, List, Option, length, take, IfOk, OnErr};
ghost use Rattle.ct_outside.specs.Count.{Rose};
ghost use Rattle.ct_outside.specs.Told.{told_append};

use crate::Failed;

/// An output that takes bytes in pieces.
pub trait Sink {
    /// The bytes written so far, where the sink tells them.
    ghost written: { Self → Option (List ℕ) };

    /// How many calls have failed.
    ghost faults: { Self → ℕ };

    /// A number of bytes that the sink will still take without a failure.
    ghost sure: { Self → ℕ };

    /// Takes bytes from the front of `piece`, at least one, and says how many. A failure takes none.
    fn write(&mut self, piece: &[u8]) -> Result<usize, Failed>
        requires { 0 < length piece.now }
        ensures takes { IfOk result (λ count. 0 < count) }
        ensures fits { IfOk result (λ count. count ≤ length piece.now) }
        ensures writes { IfOk result (λ count.
            written self.new ≡ told_append (written self.old) (take count piece.now)) }
        ensures stays_sure { IfOk result (λ count. sure self.old ≤ sure self.new + count) }
        ensures cause { OnErr result (Rose (faults self.old) (faults self.new)) }
        ensures unsure { OnErr result (sure self.old ≡ 0) }
        ensures counts { faults self.old ≤ faults self.new }
        ensures writes_none { OnErr result (written self.new ≡ written self.old) };
}
