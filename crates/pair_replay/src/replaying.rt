//! Two runs of a pair, side by side.
ghost use Rattle.std.specs.Prelude.{◌≡◌, IfOk, length};
ghost use Rattle.ct_pairs.specs.Inputs.{public_count, secret_count};
ghost use Rattle.ct_pairs.specs.Pair.{left_trail};
ghost use Rattle.pair_replay.specs.Replaying.{IsReplayed};

use crate::replayed::Replayed;
use ct_pairs::{Job, Pair, first_split, start_machine, starts};
use std::alloc::{AllocError, Global};

/// Runs the two starts of a pair by the plain machine, and answers where they first differ.
pub fn replay(alloc: Global, job: &Job, pair: &Pair) -> Result<Replayed, AllocError>
    requires shared { length pair.now.shared ≡ public_count job.now.inputs }
    requires left { length pair.now.left ≡ secret_count job.now.inputs }
    requires right { length pair.now.right ≡ secret_count job.now.inputs }
    ensures { IfOk result (λ replayed. IsReplayed job.now pair.now replayed) }
{
    let (mut left, mut right) = starts(alloc, job, pair)?;
    match first_split(job, &mut left, &mut right) {
        Some(split) => Ok(Replayed::Differ(split)),
        None => {
            let steps = left_steps(alloc, job, pair)?;
            Ok(Replayed::Agree { steps })
        }
    }
}

/// How many steps the left run shows.
fn left_steps(alloc: Global, job: &Job, pair: &Pair) -> Result<u32, AllocError>
    requires shared { length pair.now.shared ≡ public_count job.now.inputs }
    requires left { length pair.now.left ≡ secret_count job.now.inputs }
    ensures { IfOk result (λ steps. steps ≡ length (left_trail job.now pair.now job.now.bound)) }
{
    let mut machine = start_machine(alloc, job, pair.shared.as_slice(), pair.left.as_slice())?;
    let ran = machine.run(&job.image, job.stops.as_slice(), job.bound);
    Ok(ran.steps)
}
