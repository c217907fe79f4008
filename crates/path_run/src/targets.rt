//! The targets of a computed jump, one after another.

ghost use Rattle.std.specs.Prelude.{◌≡◌, ℕ, ◌+◌, ◌-◌, ◌*◌, ◌≤◌, ◌<◌, ◌==◌, [], length, map, take, IfOk, if◌then◌else◌};
ghost use Rattle.ct_words.specs.Words.{flag};
ghost use Rattle.bv_expr.specs.Nodes.{HasWidth, IsValuation};
ghost use Rattle.bv_expr.specs.Growth.{Extends};
ghost use Rattle.ct_entries.specs.declared.listed.Seen.{Seen as TheSeen};
ghost use Rattle.rel_step.specs.PathNodes.{IsNode, KeepsPath};
ghost use Rattle.path_run.specs.Stages.{IsSplit, IsJumping, IsListing};
ghost use Rattle.rel_step.specs.Runs.{Always};
ghost use Rattle.ct_entries.specs.declared.listed.Cause.TheVariants as causes;
ghost use Rattle.path_run.specs.Walking.{IsTurn};

use crate::course::Course;
use crate::stage::{Jumps, Stage, Ways};
use crate::walk::{Turn, Walk, Walked};
use bv_expr::{ExprId, QNode, WORD};
use ct_entries::{Cause, Listed, Seen};
use ct_pairs::Job;
use ct_rows::Row;
use ct_words::Cond;
use rel_step::Node;
use std::alloc::{AllocError, Global};

/// The nexts of the first of some targets.
pub(crate) fn first_nexts(
    alloc: Global,
    seen: &[Seen],
    count: usize,
) -> Result<Vec<u32>, AllocError>
    requires { count ≤ length seen.now }
    ensures { IfOk result (λ nexts. nexts.items ≡ map (λ (one : TheSeen). one.next) (take count seen.now)) }
{
    let mut nexts = Vec::new(alloc);
    for one in &seen[..count] {
        nexts.push(one.next)?;
    }
    Ok(nexts)
}

/// What is kept of a step whose nexts are these, none of which is asked about.
pub(crate) fn kept_only(alloc: Global, kept: Vec<u32>) -> Ways
    ensures ends { result.ends ≡ 0 }
    ensures doubts { result.doubts ≡ 0 }
    ensures kept { result.kept.items ≡ kept.items }
    ensures rest { result.rest.items ≡ [] }
{
    Ways {
        ends: 0,
        doubts: 0,
        kept,
        rest: Vec::new(alloc),
    }
}

/// Whether a bit is 1 and a word is another number.
pub(crate) fn but_not(
    job: &Job,
    node: &mut Node,
    others: ExprId,
    target: ExprId,
    next: u32,
) -> Result<ExprId, AllocError>
    requires node { IsNode job.now node.old }
    requires bit { HasWidth node.old.nodes others.0 1 }
    requires word { HasWidth node.old.nodes target.0 32 }
    ensures value { IfOk result (λ id. (env v : ℕ → ℕ) → IsValuation env v node.new.nodes → v id.0 ≡ (if v others.0 == 0 then 0 else flag (flag (v target.0 == next) == 0))) }
    ensures width { IfOk result (λ id. HasWidth node.new.nodes id.0 1) }
    ensures extends { Extends node.old.nodes node.new.nodes 4 }
    ensures keeps { KeepsPath node.old node.new }
    ensures last { node.new.last ≡ node.old.last }
    ensures node { IsNode job.now node.new }
{
    let _job = job;
    node.arena().law();
    let number = node.build(QNode::Constant {
        width: WORD,
        value: next,
    })?;
    let same = node.build(QNode::Test {
        cond: Cond::Eq,
        a: target.0,
        b: number.0,
    })?;
    let other = node.build(QNode::Not { a: same.0 })?;
    let both = node.build(QNode::Both {
        a: others.0,
        b: other.0,
    })?;
    Ok(both)
}

// Lists that a computed jump has more targets than are explored.
fn list_over(alloc: Global, course: Course, seen: Vec<Seen>) -> Result<Course, AllocError>
    ensures { IfOk result (IsListing course (causes.Over seen.items)) }
{
    let path = Row::from_vec(Vec::from_slice(alloc, course.at.as_slice())?);
    let mut course = course;
    course.listed.push(Listed {
        path,
        cause: Cause::Over {
            seen: Row::from_vec(seen),
        },
    })?;
    Ok(course)
}

// Ends the search for targets where more were seen than are explored.
fn stop_over(
    job: &Job,
    alloc: Global,
    course: Course,
    node: Node,
    jumps: Jumps,
) -> Result<Turn, AllocError>
    requires split { IsSplit job.now course node }
    requires jumping { IsJumping job.now course node jumps.target.0 jumps.others.0 jumps.seen.items }
    requires many { job.now.targets < length jumps.seen.items }
    ensures { IfOk result (IsTurn job.now course course.doubts (3000 * (job.now.bound - length course.at.items) + 1001)) }
{
    node.arena().law();
    let kept = first_nexts(alloc, jumps.seen.as_slice(), job.targets as usize)?;
    let Jumps {
        target: _,
        others: _,
        seen,
    } = jumps;
    let course = list_over(alloc, course, seen)?;
    let ways = kept_only(alloc, kept);
    let stage = Stage::Nexts { ways };
    let walk = Walk::at(alloc, course, node, stage);
    Ok(Turn::On(walk))
}

// Ends the search for targets where all were seen.
fn stop_all(
    job: &Job,
    alloc: Global,
    course: Course,
    node: Node,
    jumps: Jumps,
) -> Result<Turn, AllocError>
    requires split { IsSplit job.now course node }
    requires jumping { IsJumping job.now course node jumps.target.0 jumps.others.0 jumps.seen.items }
    requires few { length jumps.seen.items ≤ job.now.targets }
    requires never { Always node.nodes (λ v. v jumps.others.0 ≡ 0) }
    ensures { IfOk result (IsTurn job.now course course.doubts (3000 * (job.now.bound - length course.at.items) + 1001)) }
{
    let _targets = job.targets;
    node.arena().law();
    let kept = first_nexts(alloc, jumps.seen.as_slice(), jumps.seen.len())?;
    let ways = kept_only(alloc, kept);
    let stage = Stage::Nexts { ways };
    let walk = Walk::at(alloc, course, node, stage);
    Ok(Turn::On(walk))
}

/// Asks for another target of a computed jump, or ends the search for them.
pub(crate) fn ask_target(
    job: &Job,
    alloc: Global,
    course: Course,
    node: Node,
    jumps: Jumps,
) -> Result<Turn, AllocError>
    requires split { IsSplit job.now course node }
    requires jumping { IsJumping job.now course node jumps.target.0 jumps.others.0 jumps.seen.items }
    ensures { IfOk result (IsTurn job.now course course.doubts (3000 * (job.now.bound - length course.at.items) + 1001 + 2 * (257 - length jumps.seen.items))) }
{
    if jumps.seen.len() > job.targets as usize {
        let turn = stop_over(job, alloc, course, node, jumps)?;
        return Ok(turn);
    }
    let mut node = node;
    match node.settled(jumps.others)? {
        Some(false) => {
            let turn = stop_all(job, alloc, course, node, jumps)?;
            Ok(turn)
        }
        _ => {
            let question = node.question(alloc, job, jumps.others, true)?;
            let stage = Stage::AskedTarget { jumps };
            let walk = Walk::at(alloc, course, node, stage);
            Ok(Turn::Over(Walked::Ask(question, walk)))
        }
    }
}
