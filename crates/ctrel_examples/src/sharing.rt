//! Checks by several workers: that two are at work at one time, and that settled questions are found again.

use crate::{show_end, without_passes, words_of};
use ct_lines::read_words;
use ct_main::{Refusal, Task, ctrel, prepare};
use ct_outside::{MeetGate, OpenGate, RealShelf, RealSink};
use ct_pairs::Job;
use ct_rows::Row;
use path_run::run_path;
use path_tree::Path;
use query_cache::{Cache, SharedCache};
use std::alloc::{AllocError, Global};
use std::io;
use std::sync::Wait;
use std::thread::Threads;
use work_crew::check_job;

/// Two buffers are compared, and the loop is left at the first difference: 33 control paths.
const COMMAND: &str = "check early_comparison.elf buffers.toml";

/// Checks by two workers, which are to meet at a gate.
fn meet<R: Threads + Wait + Sync>(rt: &HostRuntime, threads: &R) -> io::Result<()> {
    println!(rt; "$ ctrel {COMMAND} --workers 2 # with a gate")?;
    let mut words = words_of(rt.alloc(), COMMAND)?;
    words.push(String::from_str(rt.alloc(), "--workers")?)?;
    words.push(String::from_str(rt.alloc(), "2")?)?;
    let mut shelf = RealShelf::new(rt.alloc(), rt)?;
    let gate = MeetGate::new();
    let finished = ctrel(
        threads,
        rt.alloc(),
        words.as_slice(),
        &mut shelf,
        &mut RealSink::new(rt),
        without_passes(rt.alloc())?,
        &gate,
    );
    show_end(rt, &finished)?;
    println!(rt; "two members met: {}", gate.met())
}

/// The job of the command.
pub(crate) fn prepared(rt: &HostRuntime) -> Result<Job, Refusal> {
    let alloc = rt.alloc();
    let words = words_of(alloc, COMMAND)?;
    let command = read_words(alloc, words.as_slice())?;
    let mut shelf = RealShelf::new(alloc, rt)?;
    match prepare(alloc, &mut shelf, &command)? {
        Task::Check(job, _) => Ok(job),
        _ => Err(Refusal::Words),
    }
}

/// Walks the first control path of a job, and says how often the cache had a verdict by then.
fn walk_first(alloc: Global, job: &Job, cache: &mut Cache) -> Result<u64, AllocError> {
    let path = Path {
        nexts: Row::from_vec(Vec::new(alloc)),
        leaked: Row::from_vec(Vec::new(alloc)),
    };
    let mut kit = Vec::new(alloc);
    let _run = run_path(alloc, job, None, path, cache, &mut kit)?;
    Ok(cache.hits())
}

/// Checks a job by one worker, and says how often the cache had a verdict by then.
fn check_by_one<R: Threads + Wait + Sync>(
    rt: &R,
    alloc: Global,
    job: &Job,
    cache: &SharedCache,
) -> Result<u64, AllocError> {
    let kits = without_passes(alloc)?;
    let _outcome = check_job(rt, alloc, job, 1, kits, cache, &OpenGate)?;
    Ok(cache.hits(rt))
}

/// Walks the first control path of a job twice over one cache, and checks the job twice over another.
fn find_again<R: Threads + Wait + Sync>(
    rt: &HostRuntime,
    threads: &R,
    job: &Job,
) -> io::Result<()> {
    let alloc = rt.alloc();
    let mut cache = Cache::new(alloc)?;
    let first = walk_first(alloc, job, &mut cache)?;
    let second = walk_first(alloc, job, &mut cache)?;
    println!(rt; "verdicts found in the second walk: {}", first < second)?;
    let shared = SharedCache::new(alloc)?;
    let first = check_by_one(threads, alloc, job, &shared)?;
    let second = check_by_one(threads, alloc, job, &shared)?;
    println!(rt; "verdicts found in the second check: {}", first < second)
}

/// Runs all of these.
pub fn run_all<R: Threads + Wait + Sync>(rt: &HostRuntime, threads: &R) -> io::Result<()> {
    meet(rt, threads)?;
    match prepared(rt) {
        Ok(job) => find_again(rt, threads, &job),
        Err(_) => println!(rt; "the job was refused"),
    }
}
