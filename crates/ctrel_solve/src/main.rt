//! Searches a formula in the DIMACS format, and writes the answer in the form of SAT competitions.
#![tactic(auto)]

use cnf_solve::{finish, run};
use std::process::ExitCode;

fn main(rt: HostRuntime) -> ExitCode {
    let ended = run(&rt);
    finish(&rt, ended)
}
