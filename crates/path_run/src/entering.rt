//! The next step of a walk.

ghost use Rattle.std.specs.Prelude.{◌≡◌, ◌+◌, ◌-◌, ◌*◌, ◌≤◌, length, IfOk};
ghost use Rattle.rel_step.specs.declared.simplifying.TheConstants.{MOST_PASSES};
ghost use Rattle.path_run.specs.Stages.{IsPlaced};
ghost use Rattle.path_run.specs.Walking.{IsTurn};

use crate::closing::end_here;
use crate::course::Course;
use crate::leaks::ask_leak;
use crate::walk::Turn;
use bv_passes::Kit;
use ct_pairs::Job;
use rel_step::{Ahead, Node};
use std::alloc::{AllocError, Global};

/// Takes a walk to its next step, or to its end.
pub(crate) fn enter(
    job: &Job,
    kit: &mut Kit,
    alloc: Global,
    course: Course,
    node: Node,
) -> Result<Turn, AllocError>
    requires placed { IsPlaced job.now course node }
    requires few { length kit.old.items ≤ MOST_PASSES }
    ensures turn { IfOk result (IsTurn job.now course course.doubts (3000 * (job.now.bound - length course.at.items) + 2000)) }
    ensures passes { length kit.new.items ≡ length kit.old.items }
{
    let mut node = node;
    let ahead = node.ahead(job, kit)?;
    node.arena().law();
    match ahead {
        Ahead::Bound => {
            let turn = end_here(job, alloc, course, node)?;
            Ok(turn)
        }
        Ahead::Ended(_) => {
            let turn = end_here(job, alloc, course, node)?;
            Ok(turn)
        }
        Ahead::Step(stride) => {
            let turn = ask_leak(job, alloc, course, node, stride)?;
            Ok(turn)
        }
    }
}
