//! The check of a job, by one worker or by many.
ghost use Rattle.std.specs.Prelude.{◌≤◌, [], length, All, IfOk, vec_len};
ghost use Rattle.rel_step.specs.declared.simplifying.TheConstants.{MOST_PASSES};
ghost use Rattle.ct_report.specs.Outcomes.{IsCheckOf};
ghost use Rattle.work_crew.specs.Crew.{HasFewPasses};
ghost use Rattle.work_crew.specs.Exploring.{IsExploring};

use crate::crew::{MOST_WORKERS, records_of_crew};
use crate::exploring::{Explored, explore};
use crate::merging::{merged, put_in_order};
use crate::together::put_together;
use bv_passes::Kit;
use ct_outside::Gate;
use ct_pairs::Job;
use ct_report::Outcome;
use ct_rows::Row;
use query_cache::{Cache, SharedCache};
use std::alloc::{AllocError, Global};
use std::sync::Wait;
use std::thread::Threads;

// Puts together what was explored.
fn outcome_of(job: &Job, explored: Explored) -> Result<Outcome, AllocError>
    requires { IsExploring job.now explored [] }
    ensures { IfOk result (IsCheckOf job.now) }
{
    let _job = job;
    let sites = merged(explored.found)?;
    let places = put_in_order(explored.listed)?;
    Ok(Outcome {
        sites: Row::from_vec(sites),
        listed: Row::from_vec(places),
        doubts: explored.doubts,
        paths: explored.ends,
    })
}

/// Checks a job by one worker, which waits for nobody: explores every control path with the passes of a kit, of which
/// there are at most `rel_step::MOST_PASSES`, and puts together what was found.
pub fn check_alone(alloc: Global, job: &Job, kit: &mut Kit) -> Result<Outcome, AllocError>
    requires few { length kit.old.items ≤ MOST_PASSES }
    ensures { IfOk result (IsCheckOf job.now) }
{
    let mut cache = Cache::new(alloc)?;
    let explored = explore(alloc, job, &mut cache, kit)?;
    let outcome = outcome_of(job, explored)?;
    Ok(outcome)
}

/// Checks a job by up to `MOST_WORKERS` workers, each with a kit of its own. They share a pool of control paths and a
/// cache of settled questions, and call the gate whenever they begin a path. Then their records, which are those of the
/// whole tree of paths, are put together. Where paths are left when all members have ended, the answer is want of memory.
pub fn check_job<R: Threads + Wait + Sync, G: Gate>(
    rt: &R,
    alloc: Global,
    job: &Job,
    workers: u32,
    kits: Vec<Kit>,
    cache: &SharedCache,
    gate: &G,
) -> Result<Outcome, AllocError>
    requires some_workers { 1 ≤ workers }
    requires few_workers { workers ≤ MOST_WORKERS }
    requires enough { workers ≤ vec_len kits }
    requires few { All HasFewPasses kits.items }
    ensures { IfOk result (IsCheckOf job.now) }
{
    let records = records_of_crew(rt, alloc, job, workers, kits, cache, gate)?;
    let explored = put_together(alloc, job, records)?;
    let outcome = outcome_of(job, explored)?;
    Ok(outcome)
}
