//! Whether some pair splits in the next step of a walk.

ghost use Rattle.std.specs.Prelude.{◌≡◌, ℕ, ◌+◌, ◌-◌, ◌*◌, Some, Any, Contains, length, IfOk, IsTrue, MatchOption};
ghost use Rattle.ct_pairs.specs.declared.found.Found.{Found as TheFound};
ghost use Rattle.path_run.specs.Stages.{IsAtStep, AreLeaksKnown, KnowsSite};
ghost use Rattle.path_run.specs.Walking.{IsTurn};

use crate::course::Course;
use crate::stage::Stage;
use crate::walk::{Turn, Walk, Walked};
use bv_expr::ExprId;
use ct_pairs::{Found, Job};
use rel_step::{Node, Stride};
use std::alloc::{AllocError, Global};

// Whether a site is among those that are known to leak.
fn is_known(leaked: &[u32], site: u32) -> bool
    ensures { IsTrue result → Contains leaked.now site }
{
    for known in leaked {
        if *known == site {
            return true;
        }
    }
    false
}

// Whether a site is among those that were found.
fn is_found(found: &[Found], site: u32) -> bool
    ensures { IsTrue result → Any (λ (one : TheFound). one.site ≡ site) found.now }
{
    for one in found {
        if one.site == site {
            return true;
        }
    }
    false
}

// Whether a walk knows that a site leaks.
fn knows_site(course: &Course, site: u32) -> bool
    ensures { IsTrue result → KnowsSite course.now site }
{
    if is_known(course.path.leaked.as_slice(), site) {
        return true;
    }
    is_found(course.found.as_slice(), site)
}

// The expression that is to be asked about: whether both runs show different things. None where they never do, or the
// site is known to leak.
fn leak_of(
    job: &Job,
    node: &mut Node,
    course: &Course,
    stride: &Stride,
) -> Result<Option<ExprId>, AllocError>
    requires { IsAtStep job.now course.now node.old stride.now }
    ensures unchanged { node.new ≡ node.old }
    ensures leak { IfOk result (λ leak. MatchOption leak (AreLeaksKnown job.now course.now) (λ id. stride.now.leak ≡ Some id)) }
{
    let _job = job;
    node.arena().law();
    match stride.leak {
        None => Ok(None),
        Some(leak) => {
            if knows_site(course, stride.site) {
                return Ok(None);
            }
            match node.settled(leak)? {
                Some(false) => Ok(None),
                _ => Ok(Some(leak)),
            }
        }
    }
}

/// Asks whether some pair splits in the next step, where this is to be asked.
pub(crate) fn ask_leak(
    job: &Job,
    alloc: Global,
    course: Course,
    node: Node,
    stride: Stride,
) -> Result<Turn, AllocError>
    requires { IsAtStep job.now course node stride }
    ensures { IfOk result (IsTurn job.now course course.doubts (3000 * (job.now.bound - length course.at.items) + 2000)) }
{
    let mut node = node;
    match leak_of(job, &mut node, &course, &stride)? {
        None => {
            let stage = Stage::Settled { stride };
            Ok(Turn::On(Walk::at(alloc, course, node, stage)))
        }
        Some(leak) => {
            let question = node.question(alloc, job, leak, false)?;
            let stage = Stage::AskedLeak { stride, leak };
            let walk = Walk::at(alloc, course, node, stage);
            Ok(Turn::Over(Walked::Ask(question, walk)))
        }
    }
}
