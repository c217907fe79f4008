//! The program as a process: over the real files, the real output and standard error.

ghost use Rattle.std.specs.Prelude.{◌≡◌};
ghost use Rattle.std.specs.Process.{exit_status};
ghost use Rattle.ct_main.specs.Status.{ended_status};

use crate::errors::tell;
use crate::finished::Finished;
use crate::program::ctrace;
use ct_main::{Refusal, words_of};
use ct_outside::{RealShelf, RealSink};
use std::process::ExitCode;

/// Runs the program on the words that the process was given, over the real files and the real output.
pub fn run(rt: &HostRuntime) -> Finished
    ensures { result.status ≡ ended_status 0 result.refusal }
{
    let words = match words_of(rt) {
        Ok(words) => words,
        Err(refusal) => return Finished::by(Some(refusal)),
    };
    let mut shelf = match RealShelf::new(rt.alloc(), rt) {
        Ok(shelf) => shelf,
        Err(error) => return Finished::by(Some(Refusal::from(error))),
    };
    let mut out = RealSink::new(rt);
    ctrace(rt.alloc(), words.as_slice(), &mut shelf, &mut out)
}

/// Says on standard error why no whole trace was written, if none was, and gives the status to end with.
pub fn finish(rt: &HostRuntime, finished: &Finished) -> ExitCode
    ensures { exit_status result ≡ finished.now.status }
{
    tell(finished, &mut RealSink::new(rt.stderr()));
    ExitCode::from(finished.status)
}
