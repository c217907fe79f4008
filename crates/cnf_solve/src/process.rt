//! The program as a process.
use crate::failure::Failure;
use crate::solving::solve;
use crate::task::read_task;
use ct_outside::{RealShelf, RealSink};
use std::env;
use std::io::ErrorKind;
use std::process::ExitCode;

/// Runs on the words that the process was given, over the real files and the real output.
pub fn run(rt: &HostRuntime) -> Result<u8, Failure> {
    let words = match env::args(rt) {
        Ok(all) => all.skip(1).collect::<Vec<String>>(rt.alloc())?,
        Err(error) if error.kind() == ErrorKind::OutOfMemory => return Err(Failure::Memory),
        Err(_) => return Err(Failure::Words),
    };
    let Some(task) = read_task(rt.alloc(), words.as_slice())? else {
        return Err(Failure::Words);
    };
    let mut shelf = RealShelf::new(rt.alloc(), rt)?;
    solve(rt.alloc(), task, &mut shelf, &mut RealSink::new(rt))
}

/// Says on standard error why there is no answer, if there is none, and gives the status to end with.
pub fn finish(rt: &HostRuntime, ended: Result<u8, Failure>) -> ExitCode {
    match ended {
        Ok(status) => ExitCode::from(status),
        Err(failure) => {
            let _ = rt.stderr().println(format_args!("ctrel_solve: {failure}"));
            ExitCode::from(1)
        }
    }
}
