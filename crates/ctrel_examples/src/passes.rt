//! Checks whose passes change nothing, or fail.

ghost use Rattle.std.specs.Prelude.{◌≤◌, length, All};
ghost use Rattle.ct_lines.specs.declared.command.TheConstants.{MOST_WORKERS};
ghost use Rattle.rel_step.specs.declared.simplifying.TheConstants.{MOST_PASSES};

use crate::run_with;
use crate::sharing::prepared;
use bv_passes::Kit;
use bv_passes::trial::{Idle, RefuseAt};
use ct_lines::MOST_WORKERS;
use ct_outside::OpenGate;
use ct_pairs::Job;
use query_cache::SharedCache;
use std::io;
use std::sync::Wait;
use std::thread::Threads;
use work_crew::check_job;

/// Runs a check with passes that change nothing.
fn change_nothing<R: Threads + Wait + Sync>(rt: &HostRuntime, threads: &R) -> io::Result<()> {
    const COMMAND: &str = "check comparison.elf buffers.toml --budget 0";
    println!(rt; "$ ctrel {COMMAND} # with passes that change nothing")?;
    let alloc = rt.alloc();
    let mut kits = Vec::new(alloc);
    for _ in 0..MOST_WORKERS {
        let mut kit: Kit = Vec::new(alloc);
        kit.push(Box::new(alloc, Idle::new(alloc)?)?)?;
        kits.push(kit)?;
    }
    run_with(rt, threads, COMMAND, kits)
}

/// Checks a job by two workers, of which the first one's pass fails at its first call.
fn refuse<R: Threads + Wait + Sync>(rt: &HostRuntime, threads: &R, job: &Job) -> io::Result<()> {
    let alloc = rt.alloc();
    let mut kit: Kit = Vec::new(alloc);
    kit.push(Box::new(alloc, RefuseAt::new(alloc, 0)?)?)?;
    let kits = vec![in alloc; kit, Vec::new(alloc)]?;
    let cache = SharedCache::new(alloc)?;
    match check_job(threads, alloc, job, 2, kits, &cache, &OpenGate) {
        Ok(outcome) => {
            let sites = outcome.sites.len();
            println!(rt;
                "with a worker whose pass fails: paths {}, sites {sites}",
                outcome.paths
            )
        }
        Err(_) => println!(rt; "memory is wanted"),
    }
}

/// Runs all of these.
pub fn run_all<R: Threads + Wait + Sync>(rt: &HostRuntime, threads: &R) -> io::Result<()> {
    change_nothing(rt, threads)?;
    match prepared(rt) {
        Ok(job) => refuse(rt, threads, &job),
        Err(_) => println!(rt; "the job was refused"),
    }
}
