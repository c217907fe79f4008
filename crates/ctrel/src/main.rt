//! Tells whether a compiled routine keeps its secret out of its branches and memory addresses.
#![tactic(auto)]

use check_progress::Progress;
use ct_main::{finish, run};
use std::process::ExitCode;

fn main(rt: HostRuntime) -> ExitCode {
    let progress = Progress::new(&rt);
    let finished = run(&rt, &rt, &progress);
    progress.clear();
    finish(&rt, &finished)
}
