//! Runs the program on words that it refuses: it writes nothing, and ends with status 64.
#![tactic(auto)]

use ct_main::{finish, run};
use ct_outside::OpenGate;
use std::process::ExitCode;

fn main(rt: HostRuntime) -> ExitCode {
    let finished = run(&rt, &rt, &OpenGate);
    finish(&rt, &finished)
}
