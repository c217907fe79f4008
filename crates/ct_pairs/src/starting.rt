//! The starts of a job.
ghost use Rattle.std.specs.Prelude.{◌≡◌, None, IfOk, length};
ghost use Rattle.rv_image.specs.Image.{size_of};
ghost use Rattle.ct_pairs.specs.Inputs.{public_count, secret_count};
ghost use Rattle.ct_pairs.specs.Start.{start};
ghost use Rattle.ct_pairs.specs.Pair.{left_start, right_start};

use crate::job::Job;
use crate::pair::Pair;
use crate::placing::place_inputs;
use rv_machine::Machine;
use std::alloc::{AllocError, Global};

/// The two machines of a pair, each at its start.
pub fn starts(alloc: Global, job: &Job, pair: &Pair) -> Result<(Machine, Machine), AllocError>
    requires shared { length pair.now.shared ≡ public_count job.now.inputs }
    requires left { length pair.now.left ≡ secret_count job.now.inputs }
    requires right { length pair.now.right ≡ secret_count job.now.inputs }
    ensures left { IfOk result (λ machines. machines.0 ≡ left_start job.now pair.now) }
    ensures right { IfOk result (λ machines. machines.1 ≡ right_start job.now pair.now) }
    // Both are ready to run, at one pc.
    ensures one_pc { IfOk result (λ machines. machines.0.pc ≡ machines.1.pc) }
    ensures left_runs { IfOk result (λ machines. machines.0.ending ≡ None) }
    ensures right_runs { IfOk result (λ machines. machines.1.ending ≡ None) }
    ensures left_bytes { IfOk result (λ machines. length machines.0.bytes ≡ size_of job.now.image) }
    ensures right_bytes { IfOk result (λ machines. length machines.1.bytes ≡ size_of job.now.image) }
{
    let left = start_machine(alloc, job, pair.shared.as_slice(), pair.left.as_slice())?;
    let right = start_machine(alloc, job, pair.shared.as_slice(), pair.right.as_slice())?;
    Ok((left, right))
}

/// The machine of the start with these values for the public and for the secret bytes.
pub fn start_machine(
    alloc: Global,
    job: &Job,
    shared: &[u8],
    secret: &[u8],
) -> Result<Machine, AllocError>
    requires shared { length shared.now ≡ public_count job.now.inputs }
    requires secret { length secret.now ≡ secret_count job.now.inputs }
    ensures start { IfOk result (λ machine. machine ≡ start job.now shared.now secret.now) }
    ensures pc { IfOk result (λ machine. machine.pc ≡ job.now.entry) }
    ensures runs { IfOk result (λ machine. machine.ending ≡ None) }
    ensures bytes { IfOk result (λ machine. length machine.bytes ≡ size_of job.now.image) }
{
    let mut machine = Machine::new(alloc, &job.image, job.entry)?;
    place_inputs(job, &mut machine, shared, secret);
    Ok(machine)
}
