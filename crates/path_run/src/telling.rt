//! What a walk makes of the answers to its questions about splits and nexts.

ghost use Rattle.std.specs.Prelude.{◌≡◌, ℕ, ◌+◌, ◌^◌, ◌<◌, [], ◌++◌, ◌∷◌, Some, false, true, length, slice_index, IfOk};
ghost use Rattle.ct_entries.specs.declared.listed.Cause.TheVariants as causes;
ghost use Rattle.rel_step.specs.Bridge.{pair_of};
ghost use Rattle.path_run.specs.Asking.{IsToldOf};
ghost use Rattle.path_run.specs.Stages.{IsAtStep, IsSplit, IsCourseWith, IsListing, IsFaulting, IsKeeping};
ghost use Rattle.path_run.specs.Telling.{IsToldLeak, KeepsLogs, left_open};

use crate::course::Course;
use crate::pairs::{pair_from, values_law};
use crate::stage::Ways;
use crate::told::Told;
use bv_expr::{ExprId, Values};
use cnf_form::{Cnf, Log};
use ct_entries::{Cause, Listed};
use ct_pairs::{Found, Job};
use ct_rows::Row;
use rel_step::{NextIf, Node, Stride};
use std::alloc::{AllocError, Global};

// Notes the pair of some values, which splits in the step.
fn note_found(
    job: &Job,
    alloc: Global,
    course: Course,
    site: u32,
    values: &Values,
) -> Result<Course, AllocError>
    requires { length course.at.items < job.now.bound }
    ensures { IfOk result (IsCourseWith course (course.found.items ++ record { site = site; step = length course.at.items + 1; pair = pair_of job.now (slice_index values.now.0) } ∷ []) course.listed.items) }
{
    let _bound = job.bound;
    let pair = pair_from(alloc, job, values)?;
    let step = course.at.len() as u32 + 1;
    let mut course = course;
    course.found.push(Found { site, step, pair })?;
    Ok(course)
}

// Lists that the search for a pair that splits in the step was spent.
fn list_leak(alloc: Global, course: Course, cnf: Cnf, log: Log) -> Result<Course, AllocError>
    ensures { IfOk result (IsListing course (causes.SpentLeak cnf log)) }
{
    let path = Row::from_vec(Vec::from_slice(alloc, course.at.as_slice())?);
    let mut course = course;
    let cause = Cause::SpentLeak { cnf, log };
    course.listed.push(Listed { path, cause })?;
    Ok(course)
}

/// What the walk has gathered once it is told whether some pair splits in the step.
pub(crate) fn with_leak(
    job: &Job,
    alloc: Global,
    course: Course,
    node: &Node,
    stride: &Stride,
    leak: ExprId,
    told: Told,
) -> Result<Course, AllocError>
    requires at { IsAtStep job.now course node.now stride.now }
    requires leak { stride.now.leak ≡ Some leak }
    requires told { IsToldOf job.now node.now false leak.0 told }
    ensures told { IfOk result (IsToldLeak job.now course) }
    ensures logs { IfOk result (KeepsLogs told course) }
{
    node.arena().law();
    match told {
        Told::Yes(values) => {
            values_law(&values);
            let course = note_found(job, alloc, course, stride.site, &values)?;
            Ok(course)
        }
        Told::No => Ok(course),
        Told::Spent(cnf, log) => {
            let course = list_leak(alloc, course, cnf, log)?;
            Ok(course)
        }
    }
}

/// What is kept of a step once it is told whether its access can be refused.
pub(crate) fn with_fault(
    job: &Job,
    alloc: Global,
    course: &Course,
    node: &Node,
    fault: ExprId,
    rest: Vec<NextIf>,
    told: Told,
) -> Ways
    requires split { IsSplit job.now course.now node.now }
    requires faulting { IsFaulting job.now course.now node.now fault.0 rest.items }
    requires told { IsToldOf job.now node.now true fault.0 told }
    ensures kept { IsKeeping job.now course.now node.now result.kept.items result.ends result.doubts result.rest.items }
    ensures doubts { result.doubts ≡ left_open told }
    ensures rest { result.rest.items ≡ rest.items }
{
    let _job = job;
    let _course = course;
    node.arena().law();
    let kept = Vec::new(alloc);
    match told {
        Told::Yes(values) => {
            values_law(&values);
            Ways {
                ends: 1,
                doubts: 0,
                kept,
                rest,
            }
        }
        Told::No => Ways {
            ends: 0,
            doubts: 0,
            kept,
            rest,
        },
        Told::Spent(_, _) => Ways {
            ends: 1,
            doubts: 1,
            kept,
            rest,
        },
    }
}

// What is kept of a step, with one next more.
fn with_kept(ways: Ways, next: u32, doubts: u64) -> Result<Ways, AllocError>
    requires { ways.doubts + doubts < 2 ^ 64 }
    ensures kept { IfOk result (λ more. more.kept.items ≡ ways.kept.items ++ next ∷ []) }
    ensures ends { IfOk result (λ more. more.ends ≡ ways.ends) }
    ensures doubts { IfOk result (λ more. more.doubts ≡ ways.doubts + doubts) }
    ensures rest { IfOk result (λ more. more.rest.items ≡ ways.rest.items) }
{
    let mut more = ways;
    more.kept.push(next)?;
    more.doubts += doubts;
    Ok(more)
}

/// What is kept of a step once it is told whether it can go to a next.
pub(crate) fn with_next(
    job: &Job,
    course: &Course,
    node: &Node,
    ways: Ways,
    one: NextIf,
    told: Told,
) -> Result<Ways, AllocError>
    requires split { IsSplit job.now course.now node.now }
    requires keeping { IsKeeping job.now course.now node.now ways.kept.items ways.ends ways.doubts (ways.rest.items ++ one ∷ []) }
    requires told { IsToldOf job.now node.now true one.when.0 told }
    ensures kept { IfOk result (λ more. IsKeeping job.now course.now node.now more.kept.items more.ends more.doubts more.rest.items) }
    ensures doubts { IfOk result (λ more. more.doubts ≡ ways.doubts + left_open told) }
    ensures rest { IfOk result (λ more. more.rest.items ≡ ways.rest.items) }
{
    let _job = job;
    let _course = course;
    node.arena().law();
    match told {
        Told::Yes(values) => {
            values_law(&values);
            let more = with_kept(ways, one.next, 0)?;
            Ok(more)
        }
        Told::No => Ok(ways),
        Told::Spent(_, _) => {
            let more = with_kept(ways, one.next, 1)?;
            Ok(more)
        }
    }
}
