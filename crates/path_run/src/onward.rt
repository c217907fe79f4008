//! Where a walk can go in its next step.

ghost use Rattle.std.specs.Prelude.{◌≡◌, ℕ, ◌+◌, ◌-◌, ◌*◌, ◌++◌, ◌∷◌, [], None, All, length, IfOk, IfSome};
ghost use Rattle.rel_step.specs.Strides.{AreNexts, IsTarget};
ghost use Rattle.rel_step.specs.PathNodes.{CanGo, next_steps};
ghost use Rattle.path_run.specs.Stages.{IsAccess, IsAtStep, IsSplit, IsKeeping, IsOnlyNext, AreLeaksKnown};
ghost use Rattle.path_run.specs.declared.access.Access.TheVariants as accesses;
ghost use Rattle.path_run.specs.Walking.{IsTurn};

use crate::access::{Access, access_of};
use crate::closing::settle;
use crate::course::Course;
use crate::stage::{Jumps, Stage, Ways};
use crate::walk::{Turn, Walk, Walked};
use bv_expr::{ExprId, QNode};
use ct_pairs::Job;
use rel_step::{NextIf, Node, Stride};
use std::alloc::{AllocError, Global};

// The next to which the left run always goes, where that is known without a search.
fn only_next(job: &Job, node: &mut Node, nexts: &[NextIf]) -> Result<Option<u32>, AllocError>
    requires { AreNexts node.old.nodes (next_steps job.now node.old.here) nexts.now }
    ensures unchanged { node.new ≡ node.old }
    ensures only { IfOk result (λ only. IfSome only (IsOnlyNext node.old.nodes (next_steps job.now node.old.here) nexts.now)) }
{
    let _job = job;
    if nexts.len() == 1 {
        return Ok(Some(nexts[0].next));
    }
    for one in nexts {
        if let Some(true) = node.settled(one.when)? {
            return Ok(Some(one.next));
        }
    }
    Ok(None)
}

// The nexts of a stride.
fn nexts_of(stride: Stride) -> Vec<NextIf>
    ensures { result.items ≡ stride.nexts }
{
    let Stride {
        site: _,
        sides: _,
        leak: _,
        fault: _,
        nexts,
        target: _,
    } = stride;
    nexts.into_vec()
}

// Goes on to the nexts of a step whose access is never refused.
fn allow(
    job: &Job,
    alloc: Global,
    course: Course,
    node: Node,
    stride: Stride,
) -> Result<Turn, AllocError>
    requires at { IsAtStep job.now course node stride }
    requires leaks { AreLeaksKnown job.now course }
    requires listed { stride.target ≡ None }
    requires allowed { IsAccess node.nodes (next_steps job.now node.here) accesses.Allowed }
    ensures { IfOk result (IsTurn job.now course course.doubts (3000 * (job.now.bound - length course.at.items) + 1800)) }
{
    let mut node = node;
    node.arena().law();
    match only_next(job, &mut node, stride.nexts.as_slice())? {
        Some(next) => {
            let kept = vec![in alloc; next]?;
            let turn = settle(job, alloc, course, node, 0, 0, kept)?;
            Ok(turn)
        }
        None => {
            let ways = Ways {
                ends: 0,
                doubts: 0,
                kept: Vec::new(alloc),
                rest: nexts_of(stride),
            };
            let stage = Stage::Nexts { ways };
            Ok(Turn::On(Walk::at(alloc, course, node, stage)))
        }
    }
}

// Looks at the access of a step whose nexts are listed.
fn look(
    job: &Job,
    alloc: Global,
    course: Course,
    node: Node,
    stride: Stride,
) -> Result<Turn, AllocError>
    requires at { IsAtStep job.now course node stride }
    requires leaks { AreLeaksKnown job.now course }
    requires listed { stride.target ≡ None }
    ensures { IfOk result (IsTurn job.now course course.doubts (3000 * (job.now.bound - length course.at.items) + 1800)) }
{
    let mut node = node;
    node.arena().law();
    match access_of(job, &mut node, &stride)? {
        Access::Refused => {
            let turn = settle(job, alloc, course, node, 1, 0, Vec::new(alloc))?;
            Ok(turn)
        }
        Access::Allowed => {
            let turn = allow(job, alloc, course, node, stride)?;
            Ok(turn)
        }
        Access::Open(fault) => {
            let question = node.question(alloc, job, fault, true)?;
            let rest = nexts_of(stride);
            let stage = Stage::AskedFault { fault, rest };
            let walk = Walk::at(alloc, course, node, stage);
            Ok(Turn::Over(Walked::Ask(question, walk)))
        }
    }
}

// Begins to look for the targets of a computed jump.
fn aim(
    job: &Job,
    alloc: Global,
    course: Course,
    node: Node,
    target: ExprId,
) -> Result<Turn, AllocError>
    requires split { IsSplit job.now course node }
    requires aims { IsTarget node.nodes (next_steps job.now node.here) [] target.0 }
    requires can { (next : ℕ) → CanGo node next }
    ensures { IfOk result (IsTurn job.now course course.doubts (3000 * (job.now.bound - length course.at.items) + 1800)) }
{
    let mut node = node;
    let others = node.build(QNode::Constant { width: 1, value: 1 })?;
    let jumps = Jumps {
        target,
        others,
        seen: Vec::new(alloc),
    };
    let stage = Stage::Targets { jumps };
    Ok(Turn::On(Walk::at(alloc, course, node, stage)))
}

/// Goes on where it is settled which pairs split in the step.
pub(crate) fn go_onward(
    job: &Job,
    alloc: Global,
    course: Course,
    node: Node,
    stride: Stride,
) -> Result<Turn, AllocError>
    requires at { IsAtStep job.now course node stride }
    requires leaks { AreLeaksKnown job.now course }
    ensures { IfOk result (IsTurn job.now course course.doubts (3000 * (job.now.bound - length course.at.items) + 1800)) }
{
    match stride.target {
        Some(target) => {
            let turn = aim(job, alloc, course, node, target)?;
            Ok(turn)
        }
        None => {
            let turn = look(job, alloc, course, node, stride)?;
            Ok(turn)
        }
    }
}

/// Asks about the next that is asked about next, or ends the step where there is none.
pub(crate) fn ask_next(
    job: &Job,
    alloc: Global,
    course: Course,
    node: Node,
    ways: Ways,
) -> Result<Turn, AllocError>
    requires split { IsSplit job.now course node }
    requires keeping { IsKeeping job.now course node ways.kept.items ways.ends ways.doubts ways.rest.items }
    ensures { IfOk result (IsTurn job.now course (course.doubts + ways.doubts) (3000 * (job.now.bound - length course.at.items) + 2 * length ways.rest.items + 1)) }
{
    let Ways {
        ends,
        doubts,
        kept,
        mut rest,
    } = ways;
    match rest.pop() {
        None => {
            let turn = settle(job, alloc, course, node, ends, doubts, kept)?;
            Ok(turn)
        }
        Some(one) => {
            let ways = Ways {
                ends,
                doubts,
                kept,
                rest,
            };
            let turn = ask_one(job, alloc, course, node, ways, one)?;
            Ok(turn)
        }
    }
}

// Asks whether the step can go to a next, where this isn't known without a search.
fn ask_one(
    job: &Job,
    alloc: Global,
    course: Course,
    node: Node,
    ways: Ways,
    one: NextIf,
) -> Result<Turn, AllocError>
    requires split { IsSplit job.now course node }
    requires keeping { IsKeeping job.now course node ways.kept.items ways.ends ways.doubts (ways.rest.items ++ one ∷ []) }
    ensures { IfOk result (IsTurn job.now course (course.doubts + ways.doubts) (3000 * (job.now.bound - length course.at.items) + 2 * length ways.rest.items + 3)) }
{
    let mut node = node;
    node.arena().law();
    match node.settled(one.when)? {
        Some(false) => {
            let stage = Stage::Nexts { ways };
            Ok(Turn::On(Walk::at(alloc, course, node, stage)))
        }
        _ => {
            let question = node.question(alloc, job, one.when, true)?;
            let stage = Stage::AskedNext { ways, one };
            let walk = Walk::at(alloc, course, node, stage);
            Ok(Turn::Over(Walked::Ask(question, walk)))
        }
    }
}
