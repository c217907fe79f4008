//! What came of a task, before anything is written.

ghost use Rattle.std.specs.Prelude.{◌≡◌, ◌≤◌, [], length, All, None, Some, IfOk};
ghost use Rattle.elf_load.specs.Layout.{FitsMemory, segment_extents};
ghost use Rattle.rv_image.specs.Loading.{cells_of};
ghost use Rattle.ct_pairs.specs.Pair.{IsPair};
ghost use Rattle.ct_pairs.specs.Covered.{AreTrueSites};
ghost use Rattle.ct_listing.specs.List.{list_of};
ghost use Rattle.ct_report.specs.Report.{report_of};
ghost use Rattle.ct_report.specs.Outcomes.{IsCheckOf};
ghost use Rattle.ct_lines.specs.Words.{IsWithin};
ghost use Rattle.ct_lines.specs.declared.command.TheConstants.{MOST_WORKERS};
ghost use Rattle.rel_step.specs.declared.simplifying.TheConstants.{MOST_PASSES};
ghost use Rattle.ct_main.specs.Outcomes.{IsByteCheckOf};
ghost use Rattle.ct_main.specs.Status.{replay_status as replay_code};
ghost use Rattle.ct_main.specs.Tasks.{HasOneSecret, CanDo, IsToldOf, IsSummaryOf, IsDone};

use crate::finished::finding_status;
use crate::generated::Generated;
use crate::task::Task;
use bv_passes::Kit;
use ct_gen::summary_text;
use ct_listing::{list_text, trace_text};
use ct_outside::Gate;
use ct_pairs::{Job, Pair, byte_check};
use ct_report::{Outcome, report_text, sites_law};
use ct_rows::Text;
use elf_load::Elf;
use pair_replay::{Replayed, replay, replay_text};
use query_cache::SharedCache;
use rv_image::Image;
use std::alloc::{AllocError, Global};
use std::sync::Wait;
use std::thread::Threads;
use work_crew::{check_alone, check_job};

/// What came of a task, before anything is written.
#[derive(Debug, Drop)]
pub(crate) struct Made {
    /// The status to end with once the whole text is written.
    pub status: u8,
    /// What the check found, where a check ran to its end.
    pub outcome: Option<Outcome>,
    /// The whole text, unless there was no memory for it.
    pub text: Result<Text, AllocError>,
}

/// Checks a job of one secret byte by running all its pairs.
fn check_pairs(alloc: Global, job: &Job) -> Result<Outcome, AllocError>
    requires { HasOneSecret job.now }
    ensures { IfOk result (IsByteCheckOf job.now) }
{
    let table = byte_check(alloc, job)?;
    Ok(Outcome::of_table(alloc, table))
}

/// Checks a job by so many workers, which share a cache of settled questions.
fn check_shared<R: Threads + Wait + Sync, G: Gate>(
    rt: &R,
    alloc: Global,
    job: &Job,
    workers: u32,
    kits: Vec<Kit>,
    gate: &G,
) -> Result<Outcome, AllocError>
    requires workers { IsWithin 1 MOST_WORKERS workers }
    requires enough { MOST_WORKERS ≤ length kits.items }
    requires few { All (λ kit. length kit.items ≤ MOST_PASSES) kits.items }
    ensures { IfOk result (IsCheckOf job.now) }
{
    let cache = SharedCache::new(alloc)?;
    check_job(rt, alloc, job, workers, kits, &cache, gate)
}

/// The whole report of a job and of the outcome of its check.
fn report(alloc: Global, job: &Job, outcome: &Outcome) -> Result<Text, AllocError>
    requires { AreTrueSites job.now outcome.now.sites }
    ensures { IfOk result (λ text. text ≡ report_of job.now outcome.now) }
{
    sites_law(job, outcome.sites.as_slice());
    report_text(alloc, job, outcome)
}

/// The words of an executable.
fn list(alloc: Global, elf: Elf) -> Result<Text, AllocError>
    requires { FitsMemory (segment_extents elf) }
    ensures { IfOk result (λ text. text ≡ list_of (cells_of elf [])) }
{
    let image = Image::build(alloc, &elf, &[])?;
    drop(elf);
    list_text(alloc, &image)
}

/// The exit status of a replay whose whole text was written.
fn replay_status(replayed: &Replayed) -> u8
    ensures { result ≡ replay_code replayed.now }
{
    match replayed {
        Replayed::Agree { .. } => 0,
        Replayed::Differ(_) => 1,
    }
}

/// The first of the kits; the others are dropped.
fn first_kit(kits: Vec<Kit>) -> Kit
    requires enough { MOST_WORKERS ≤ length kits.items }
    requires few { All (λ kit. length kit.items ≤ MOST_PASSES) kits.items }
    ensures few { length result.items ≤ MOST_PASSES }
{
    let mut kits = kits;
    kits.swap_remove(0)
}

impl Made {
    /// A text to which no outcome belongs.
    fn without_outcome(status: u8, text: Result<Text, AllocError>) -> Made
        ensures { result ≡ record { status = status; outcome = None; text = text } }
    {
        Made {
            status,
            outcome: None,
            text,
        }
    }

    /// The outcome of a check of a job, and its report.
    fn of_outcome(alloc: Global, job: &Job, outcome: Outcome) -> Made
        requires { AreTrueSites job.now outcome.sites }
        ensures outcome { result.outcome ≡ Some outcome }
        ensures told { IsToldOf job.now result }
    {
        let text = report(alloc, job, &outcome);
        Made {
            status: finding_status(outcome.verdict()),
            outcome: Some(outcome),
            text,
        }
    }

    /// Checks a job of one secret byte and makes the report.
    fn by_pairs(alloc: Global, job: &Job) -> Made
        requires { HasOneSecret job.now }
        ensures { IsDone (Task.Byte job.now) result }
    {
        match check_pairs(alloc, job) {
            Ok(outcome) => Made::of_outcome(alloc, job, outcome),
            Err(error) => Made::without_outcome(0, Err(error)),
        }
    }

    /// Checks a job by so many workers, the passes of a kit for each, and makes the report.
    fn by_check<R: Threads + Wait + Sync, G: Gate>(
        rt: &R,
        alloc: Global,
        job: &Job,
        workers: u32,
        kits: Vec<Kit>,
        gate: &G,
    ) -> Made
        requires workers { IsWithin 1 MOST_WORKERS workers }
        requires enough { MOST_WORKERS ≤ length kits.items }
        requires few { All (λ kit. length kit.items ≤ MOST_PASSES) kits.items }
        ensures { IsDone (Task.Check job.now workers) result }
    {
        match check_shared(rt, alloc, job, workers, kits, gate) {
            Ok(outcome) => Made::of_outcome(alloc, job, outcome),
            Err(error) => Made::without_outcome(0, Err(error)),
        }
    }

    /// Replays a pair and says how its runs compare.
    fn by_replay(alloc: Global, job: &Job, pair: &Pair) -> Made
        requires { IsPair job.now pair.now }
        ensures { IsDone (Task.Replay job.now pair.now) result }
    {
        match replay(alloc, job, pair) {
            Ok(replayed) => {
                let text = replay_text(alloc, &replayed);
                Made::without_outcome(replay_status(&replayed), text)
            }
            Err(error) => Made::without_outcome(0, Err(error)),
        }
    }

    /// The outcome of a check of generated code, and its summary.
    fn of_summary(alloc: Global, generated: &Generated, outcome: Outcome) -> Made
        ensures outcome { result.outcome ≡ Some outcome }
        ensures told { IsSummaryOf generated.now result }
    {
        let text = summary_text(
            alloc,
            generated.number,
            generated.size,
            generated.words,
            &outcome,
        );
        Made {
            status: finding_status(outcome.verdict()),
            outcome: Some(outcome),
            text,
        }
    }

    /// Checks generated code by one worker, with the passes of the first kit, and sums up what was found.
    fn by_generated(alloc: Global, generated: &Generated, kits: Vec<Kit>) -> Made
        requires enough { MOST_WORKERS ≤ length kits.items }
        requires few { All (λ kit. length kit.items ≤ MOST_PASSES) kits.items }
        ensures { IsDone (Task.Gen generated.now) result }
    {
        let mut kit = first_kit(kits);
        match check_alone(alloc, &generated.job, &mut kit) {
            Ok(outcome) => Made::of_summary(alloc, generated, outcome),
            Err(error) => Made::without_outcome(0, Err(error)),
        }
    }

    /// Does a task and makes its whole text.
    pub(crate) fn by_task<R: Threads + Wait + Sync, G: Gate>(
        rt: &R,
        alloc: Global,
        task: Task,
        kits: Vec<Kit>,
        gate: &G,
    ) -> Made
        requires can { CanDo task }
        requires enough { MOST_WORKERS ≤ length kits.items }
        requires few { All (λ kit. length kit.items ≤ MOST_PASSES) kits.items }
        ensures { IsDone task result }
    {
        match task {
            Task::Byte(job) => Made::by_pairs(alloc, &job),
            Task::Check(job, workers) => Made::by_check(rt, alloc, &job, workers, kits, gate),
            Task::Replay(job, pair) => Made::by_replay(alloc, &job, &pair),
            Task::Trace(job) => Made::without_outcome(0, trace_text(alloc, &job)),
            Task::List(elf) => Made::without_outcome(0, list(alloc, elf)),
            Task::Gen(generated) => Made::by_generated(alloc, &generated, kits),
        }
    }
}
