//! Shows one run of a policy's job: what each step shows, and how the run ended.
#![tactic(auto)]

use ct_trace::{finish, run};
use std::process::ExitCode;

fn main(rt: HostRuntime) -> ExitCode {
    let finished = run(&rt);
    finish(&rt, &finished)
}
