//! The sink over the system's output.

ghost use Rattle.std.specs.Prelude.{◌≡◌, None};

use crate::{Failed, Sink};
use std::marker::Model;

/// An output of the system: the standard output over the runtime itself, and standard error over
/// its `stderr()`. It tells no bytes of what was written.
#[derive(Drop)]
pub struct RealSink<R: Print + Drop> {
    rt: R,
    faults: u64,
}

impl<R: Print + Drop> Model for RealSink<R> {
    ghost use Rattle.std.specs.Prelude.{ℕ};

    // The number of calls that failed.
    ghost Value = { ℕ };

    ghost view = { λ a. a.faults };
}

impl<R: Print + Drop> RealSink<R> {
    /// Over what prints, with no fault yet.
    pub fn new(rt: R) -> RealSink<R>
        ensures { result ≡ 0 }
    {
        RealSink { rt, faults: 0 }
    }
}

impl<R: Print + Drop> Sink for RealSink<R> {
    ghost written = { λ _. None };

    ghost faults = { λ s. s };

    ghost sure = { λ _. 0 };

    fn write(&mut self, piece: &[u8]) -> Result<usize, Failed> {
        match self.rt.write_some(piece) {
            Ok(count) if count > 0 => Ok(count),
            _ => {
                self.faults = self.faults.saturating_add(1);
                Err(Failed)
            }
        }
    }
}
