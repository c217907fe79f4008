//! The machines of a check, brought to one start after another.
ghost use Rattle.std.specs.Prelude.{◌≡◌, ◌↔◌, IsNone, IfSome, IfOk};
ghost use Rattle.ct_pairs.specs.Inputs.{public_count, secret_count};
ghost use Rattle.ct_pairs.specs.Paths.{nexts};
ghost use Rattle.ct_pairs.specs.Survey.{SplitAt, value_trail};

use crate::job::Job;
use crate::nexts::list_nexts;
use crate::placing::place_inputs;
use crate::split::Split;
use crate::splitting::first_split;
use rv_machine::Machine;
use std::alloc::{AllocError, Global};

/// Three machines of a job: one as it was made, and two that are brought to a start again and again.
#[derive(Drop)]
pub(crate) struct Runs {
    fresh: Machine,
    left: Machine,
    right: Machine,
}

impl Runs {
    ghost use Rattle.ct_pairs.specs.Runs.{AreRuns};

    pub(crate) fn new(alloc: Global, job: &Job) -> Result<Runs, AllocError>
        ensures { IfOk result (AreRuns job.now) }
    {
        Ok(Runs {
            fresh: Machine::new(alloc, &job.image, job.entry)?,
            left: Machine::new(alloc, &job.image, job.entry)?,
            right: Machine::new(alloc, &job.image, job.entry)?,
        })
    }

    /// Where the runs of two values of the one secret byte first split.
    pub(crate) fn split_of(&mut self, job: &Job, left: u8, right: u8) -> Option<Split>
        requires public { public_count job.now.inputs ≡ 0 }
        requires secret { secret_count job.now.inputs ≡ 1 }
        requires runs { AreRuns job.now self.old }
        ensures none { IsNone result ↔ (value_trail job.now left ≡ value_trail job.now right) }
        ensures split { IfSome result (λ split. SplitAt (value_trail job.now left) (value_trail job.now right)
            split.left.pc split.step) }
        ensures runs { AreRuns job.now self.new }
    {
        self.left.reset_from(&self.fresh);
        place_inputs(job, &mut self.left, &[], &[left]);
        self.right.reset_from(&self.fresh);
        place_inputs(job, &mut self.right, &[], &[right]);
        first_split(job, &mut self.left, &mut self.right)
    }

    /// The next addresses of the run of a value of the one secret byte.
    pub(crate) fn nexts_of(
        &mut self,
        alloc: Global,
        job: &Job,
        value: u8,
    ) -> Result<Vec<u32>, AllocError>
        requires public { public_count job.now.inputs ≡ 0 }
        requires secret { secret_count job.now.inputs ≡ 1 }
        requires runs { AreRuns job.now self.old }
        ensures nexts { IfOk result (λ addresses. addresses.items ≡ nexts (value_trail job.now value)) }
        ensures runs { AreRuns job.now self.new }
    {
        self.left.reset_from(&self.fresh);
        place_inputs(job, &mut self.left, &[], &[value]);
        list_nexts(alloc, job, &mut self.left)
    }
}
