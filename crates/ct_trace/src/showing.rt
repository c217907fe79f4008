//! The trace of a task's run.

ghost use Rattle.std.specs.Prelude.{◌≡◌, IfOk, length, replicate};
ghost use Rattle.ct_pairs.specs.Inputs.{public_count, secret_count};
ghost use Rattle.ct_trace.specs.Traces.{zero_trace};
ghost use Rattle.ct_trace.specs.Showing.{CanShow, IsTraceOf};

use ct_listing::start_trace_text;
use ct_main::Task;
use ct_pairs::Job;
use ct_rows::Text;
use std::alloc::{AllocError, Global};

/// How many of a job's bytes are public.
fn public_count(job: &Job) -> usize
    ensures { result ≡ public_count job.now.inputs }
{
    job.inputs.iter().filter(|input| !input.secret).count()
}

/// How many of a job's bytes are secret.
fn secret_count(job: &Job) -> usize
    ensures { result ≡ secret_count job.now.inputs }
{
    job.inputs.iter().filter(|input| input.secret).count()
}

/// So many zeros.
fn zeros(alloc: Global, count: usize) -> Result<Vec<u8>, AllocError>
    ensures zeros { IfOk result (λ values. values.items ≡ replicate count 0) }
    ensures length { IfOk result (λ values. length values.items ≡ count) }
{
    let values = vec![in alloc; 0u8; count]?;
    Ok(values)
}

/// The trace of the run of a job in which each input byte is 0.
fn zero_trace_text(alloc: Global, job: &Job) -> Result<Text, AllocError>
    ensures { IfOk result (λ text. text ≡ zero_trace job.now) }
{
    let shared = zeros(alloc, public_count(job))?;
    let secret = zeros(alloc, secret_count(job))?;
    start_trace_text(alloc, job, shared.as_slice(), secret.as_slice())
}

/// The trace of a task's run: of the left one of a replay, and of the one with zeros of a check.
pub(crate) fn show_task(alloc: Global, task: Task) -> Result<Text, AllocError>
    requires { CanShow task }
    ensures { IfOk result (IsTraceOf task) }
{
    match task {
        Task::Check(job, _) => zero_trace_text(alloc, &job),
        Task::Replay(job, pair) => {
            start_trace_text(alloc, &job, pair.shared.as_slice(), pair.left.as_slice())
        }
        _ => unreachable!(),
    }
}
