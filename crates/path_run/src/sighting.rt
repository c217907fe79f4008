//! What a walk makes of the answers about targets of a computed jump.

ghost use Rattle.std.specs.Prelude.{◌≡◌, ◌+◌, ◌-◌, ◌*◌, ◌≤◌, ◌∷◌, true, length, IfOk};
ghost use Rattle.ct_entries.specs.declared.listed.Cause.TheVariants as causes;
ghost use Rattle.rel_step.specs.PathNodes.{IsNode};
ghost use Rattle.path_run.specs.declared.told.Told.TheVariants as tolds;
ghost use Rattle.path_run.specs.Asking.{IsToldOf};
ghost use Rattle.path_run.specs.Stages.{IsSplit, IsListing, IsJumping};
ghost use Rattle.path_run.specs.Telling.{KeepsLogs};
ghost use Rattle.path_run.specs.Walking.{IsLater, IsIdle, doubts_of};

use crate::course::Course;
use crate::pairs::{pair_from, values_law};
use crate::stage::{Jumps, Stage};
use crate::targets::{but_not, first_nexts, kept_only};
use crate::told::Told;
use crate::walk::Walk;
use bv_expr::Values;
use cnf_form::{Cnf, Log};
use ct_entries::{Cause, Listed, Seen};
use ct_pairs::Job;
use ct_rows::Row;
use rel_step::Node;
use std::alloc::{AllocError, Global};

// The targets that were seen, with the one to which the pair of some values goes.
fn see(
    job: &Job,
    alloc: Global,
    course: &Course,
    node: &mut Node,
    jumps: Jumps,
    values: &Values,
) -> Result<Jumps, AllocError>
    requires split { IsSplit job.now course.now node.old }
    requires jumping { IsJumping job.now course.now node.old jumps.target.0 jumps.others.0 jumps.seen.items }
    requires few { length jumps.seen.items ≤ job.now.targets }
    requires told { IsToldOf job.now node.old true jumps.others.0 (tolds.Yes values.now) }
    ensures jumping { IfOk result (λ more. IsJumping job.now course.now node.new more.target.0 more.others.0 more.seen.items) }
    ensures count { IfOk result (λ more. length more.seen.items ≡ length jumps.seen.items + 1) }
    ensures node { IfOk result (λ _. IsNode job.now node.new) }
    ensures path { IfOk result (λ _. node.new.path ≡ node.old.path) }
{
    let _course = course;
    node.arena().law();
    values_law(values);
    let next = node.arena().value(alloc, jumps.target, values)?;
    let pair = pair_from(alloc, job, values)?;
    let Jumps {
        target,
        others,
        mut seen,
    } = jumps;
    seen.push(Seen { next, pair })?;
    let others = but_not(job, node, others, target, next)?;
    Ok(Jumps {
        target,
        others,
        seen,
    })
}

// Lists that the search for another target was spent.
fn list_next(
    alloc: Global,
    course: Course,
    explored: Vec<u32>,
    cnf: Cnf,
    log: Log,
) -> Result<Course, AllocError>
    ensures { IfOk result (IsListing course (causes.SpentNext explored.items cnf log)) }
{
    let path = Row::from_vec(Vec::from_slice(alloc, course.at.as_slice())?);
    let mut course = course;
    let cause = Cause::SpentNext {
        explored: Row::from_vec(explored),
        cnf,
        log,
    };
    course.listed.push(Listed { path, cause })?;
    Ok(course)
}

// The walk where all targets were seen.
fn seen_all(
    job: &Job,
    alloc: Global,
    course: Course,
    node: Node,
    jumps: Jumps,
) -> Result<Walk, AllocError>
    requires split { IsSplit job.now course node }
    requires jumping { IsJumping job.now course node jumps.target.0 jumps.others.0 jumps.seen.items }
    requires few { length jumps.seen.items ≤ job.now.targets }
    requires told { IsToldOf job.now node true jumps.others.0 tolds.No }
    ensures later { IfOk result (IsLater job.now course.path (3000 * (job.now.bound - length course.at.items) + 1000)) }
    ensures idle { IfOk result IsIdle }
    ensures doubts { IfOk result (λ walk. doubts_of walk ≡ course.doubts) }
    ensures logs { IfOk result (λ walk. KeepsLogs tolds.No course walk.course) }
{
    let _targets = job.targets;
    node.arena().law();
    let kept = first_nexts(alloc, jumps.seen.as_slice(), jumps.seen.len())?;
    let ways = kept_only(alloc, kept);
    let stage = Stage::Nexts { ways };
    let walk = Walk::at(alloc, course, node, stage);
    Ok(walk)
}

// The walk where it was left open whether there are other targets.
fn seen_some(
    job: &Job,
    alloc: Global,
    course: Course,
    node: Node,
    jumps: Jumps,
    cnf: Cnf,
    log: Log,
) -> Result<Walk, AllocError>
    requires split { IsSplit job.now course node }
    requires jumping { IsJumping job.now course node jumps.target.0 jumps.others.0 jumps.seen.items }
    requires few { length jumps.seen.items ≤ job.now.targets }
    requires told { IsToldOf job.now node true jumps.others.0 (tolds.Spent cnf log) }
    ensures later { IfOk result (IsLater job.now course.path (3000 * (job.now.bound - length course.at.items) + 1000)) }
    ensures idle { IfOk result IsIdle }
    ensures doubts { IfOk result (λ walk. doubts_of walk ≡ course.doubts) }
    ensures logs { IfOk result (λ walk. KeepsLogs (tolds.Spent cnf log) course walk.course) }
{
    let _targets = job.targets;
    node.arena().law();
    let kept = first_nexts(alloc, jumps.seen.as_slice(), jumps.seen.len())?;
    let explored = first_nexts(alloc, jumps.seen.as_slice(), jumps.seen.len())?;
    let course = list_next(alloc, course, explored, cnf, log)?;
    let ways = kept_only(alloc, kept);
    let stage = Stage::Nexts { ways };
    let walk = Walk::at(alloc, course, node, stage);
    Ok(walk)
}

/// The walk once it is told whether a computed jump has another target.
pub(crate) fn told_target(
    job: &Job,
    alloc: Global,
    course: Course,
    node: Node,
    jumps: Jumps,
    told: Told,
) -> Result<Walk, AllocError>
    requires split { IsSplit job.now course node }
    requires jumping { IsJumping job.now course node jumps.target.0 jumps.others.0 jumps.seen.items }
    requires few { length jumps.seen.items ≤ job.now.targets }
    requires told { IsToldOf job.now node true jumps.others.0 told }
    ensures later { IfOk result (IsLater job.now course.path (3000 * (job.now.bound - length course.at.items) + 1000 + 2 * (257 - length jumps.seen.items))) }
    ensures idle { IfOk result IsIdle }
    ensures doubts { IfOk result (λ walk. doubts_of walk ≡ course.doubts) }
    ensures logs { IfOk result (λ walk. KeepsLogs told course walk.course) }
{
    match told {
        Told::Yes(values) => {
            let mut node = node;
            let jumps = see(job, alloc, &course, &mut node, jumps, &values)?;
            let stage = Stage::Targets { jumps };
            let walk = Walk::at(alloc, course, node, stage);
            Ok(walk)
        }
        Told::No => {
            let walk = seen_all(job, alloc, course, node, jumps)?;
            Ok(walk)
        }
        Told::Spent(cnf, log) => {
            let walk = seen_some(job, alloc, course, node, jumps, cnf, log)?;
            Ok(walk)
        }
    }
}
