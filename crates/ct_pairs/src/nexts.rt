//! Where a run goes.
ghost use Rattle.std.specs.Prelude.{◌≡◌, ◌++◌, OnOk, IfOk, length};
ghost use Rattle.std.specs.Option.{option_to_list};
ghost use Rattle.rv_image.specs.Image.{size_of};
ghost use Rattle.ct_pairs.specs.Start.{bounded_trail};
ghost use Rattle.ct_pairs.specs.Paths.{nexts};

use crate::job::Job;
use rv_machine::{Machine, Record};
use std::alloc::{AllocError, Global};

/// Runs a machine of the job from where it stands, up to the bound, and lists where it goes.
pub(crate) fn list_nexts(
    alloc: Global,
    job: &Job,
    machine: &mut Machine,
) -> Result<Vec<u32>, AllocError>
    requires { length machine.old.bytes ≡ size_of job.now.image }
    ensures nexts { IfOk result (λ addresses. addresses.items ≡ nexts (bounded_trail job.now machine.old)) }
    ensures size { length machine.new.bytes ≡ length machine.old.bytes }
{
    let mut addresses = Vec::new(alloc);
    for _at in 0..job.bound {
        let Some(shown) = machine.step(&job.image, job.stops.as_slice()).seen else {
            return Ok(addresses);
        };
        push_next(&mut addresses, shown)?;
    }
    Ok(addresses)
}

fn push_next(addresses: &mut Vec<u32>, shown: Record) -> Result<(), AllocError>
    ensures { OnOk result (addresses.new.items ≡ addresses.old.items ++ option_to_list shown.next) }
{
    if let Some(next) = shown.next {
        addresses.push(next)?;
    }
    Ok(())
}
