//! The turns of a walk.

ghost use Rattle.std.specs.Prelude.{◌≡◌, ◌+◌, ◌≤◌, [], None, length, option_map, IfOk, IfSome, MatchOption};
ghost use Rattle.rel_step.specs.declared.simplifying.TheConstants.{MOST_PASSES};
ghost use Rattle.rel_step.specs.PathNodes.{IsNode};
ghost use Rattle.path_run.specs.Asking.{IsToldOf};
ghost use Rattle.path_run.specs.declared.stage.Stage.TheVariants as stages;
ghost use Rattle.path_run.specs.Replays.{IsReplayed};
ghost use Rattle.path_run.specs.Stages.{IsStage, asked_at};
ghost use Rattle.path_run.specs.Telling.{KeepsLogs};
ghost use Rattle.path_run.specs.Walking.{IsWalk, IsIdle, IsTold, IsLater, IsCome, IsTurn, IsBegun, course_of, path_of, listed_of, doubts_at, doubts_by, doubts_of, new_doubts, turns_at, turns_left};

use crate::closing::recorded;
use crate::course::Course;
use crate::entering::enter;
use crate::onward::{ask_next, go_onward};
use crate::replaying::replay;
use crate::sighting::told_target;
use crate::stage::Stage;
use crate::stand::Stand;
use crate::targets::ask_target;
use crate::telling::{with_fault, with_leak, with_next};
use crate::told::Told;
use crate::walk::{Turn, Walk, Walked};
use bv_passes::Kit;
use ct_pairs::Job;
use path_tree::Path;
use rel_step::Node;
use std::alloc::{AllocError, Global};

// One turn of a walk that stands at a node.
fn turn_at(
    job: &Job,
    kit: &mut Kit,
    alloc: Global,
    course: Course,
    node: Node,
    stage: Stage,
) -> Result<Turn, AllocError>
    requires stage { IsStage job.now course node stage }
    requires idle { asked_at stage ≡ None }
    requires few { length kit.old.items ≤ MOST_PASSES }
    ensures turn { IfOk result (IsTurn job.now course (doubts_at course stage) (turns_at job.now course stage)) }
    ensures passes { length kit.new.items ≡ length kit.old.items }
{
    match stage {
        Stage::Fresh => {
            let turn = enter(job, kit, alloc, course, node)?;
            Ok(turn)
        }
        Stage::Settled { stride } => {
            let turn = go_onward(job, alloc, course, node, stride)?;
            Ok(turn)
        }
        Stage::Nexts { ways } => {
            let turn = ask_next(job, alloc, course, node, ways)?;
            Ok(turn)
        }
        Stage::Targets { jumps } => {
            let turn = ask_target(job, alloc, course, node, jumps)?;
            Ok(turn)
        }
        Stage::AskedLeak { .. } => unreachable!(),
        Stage::AskedFault { .. } => unreachable!(),
        Stage::AskedNext { .. } => unreachable!(),
        Stage::AskedTarget { .. } => unreachable!(),
    }
}

// One turn of a walk.
fn turn(job: &Job, kit: &mut Kit, walk: Walk) -> Result<Turn, AllocError>
    requires walk { IsWalk job.now walk }
    requires idle { IsIdle walk }
    requires few { length kit.old.items ≤ MOST_PASSES }
    ensures turn { IfOk result (IsTurn job.now (course_of walk) (doubts_of walk) (turns_left job.now walk)) }
    ensures passes { length kit.new.items ≡ length kit.old.items }
{
    let Walk {
        alloc,
        course,
        stand,
    } = walk;
    match stand {
        None => {
            let record = recorded(alloc, course, &[])?;
            Ok(Turn::Over(Walked::Done(record, None)))
        }
        Some(Stand { node, stage }) => {
            let turn = turn_at(job, kit, alloc, course, node, stage)?;
            Ok(turn)
        }
    }
}

// The walk that stands at a node, once it is told the answer to its question.
fn told_at(
    job: &Job,
    alloc: Global,
    course: Course,
    node: Node,
    stage: Stage,
    told: Told,
) -> Result<Walk, AllocError>
    requires stage { IsStage job.now course node stage }
    requires told { MatchOption (asked_at stage) ⊥ (λ asked. IsToldOf job.now node asked.1 asked.0 told) }
    ensures later { IfOk result (IsLater job.now course.path (turns_at job.now course stage)) }
    ensures idle { IfOk result IsIdle }
    ensures doubts { IfOk result (λ walk. doubts_of walk ≡ doubts_at course stage + doubts_by stage told) }
    ensures logs { IfOk result (λ walk. KeepsLogs told course walk.course) }
{
    match stage {
        Stage::AskedLeak { stride, leak } => {
            let course = with_leak(job, alloc, course, &node, &stride, leak, told)?;
            let stage = Stage::Settled { stride };
            let walk = Walk::at(alloc, course, node, stage);
            Ok(walk)
        }
        Stage::AskedFault { fault, rest } => {
            let ways = with_fault(job, alloc, &course, &node, fault, rest, told);
            let stage = Stage::Nexts { ways };
            let walk = Walk::at(alloc, course, node, stage);
            Ok(walk)
        }
        Stage::AskedNext { ways, one } => {
            let ways = with_next(job, &course, &node, ways, one, told)?;
            let stage = Stage::Nexts { ways };
            let walk = Walk::at(alloc, course, node, stage);
            Ok(walk)
        }
        Stage::AskedTarget { jumps } => {
            let walk = told_target(job, alloc, course, node, jumps, told)?;
            Ok(walk)
        }
        Stage::Fresh => unreachable!(),
        Stage::Settled { .. } => unreachable!(),
        Stage::Nexts { .. } => unreachable!(),
        Stage::Targets { .. } => unreachable!(),
    }
}

// The node of a path: the one that was handed in, and else the path is replayed.
fn node_for(
    alloc: Global,
    job: &Job,
    node: Option<Node>,
    path: &Path,
    kit: &mut Kit,
) -> Result<Option<Node>, AllocError>
    requires node { IfSome node (λ n. IsNode job.now n × (n.path ≡ path.now.nexts)) }
    requires few { length kit.old.items ≤ MOST_PASSES }
    ensures node { IfOk result (IsReplayed job.now path.now.nexts) }
    ensures passes { length kit.new.items ≡ length kit.old.items }
{
    match node {
        Some(node) => Ok(Some(node)),
        None => {
            let root = Node::root(alloc, job)?;
            let node = replay(job, kit, root, path.nexts.as_slice())?;
            Ok(node)
        }
    }
}

// What is gathered before a walk begins.
fn begun(alloc: Global, path: Path) -> Result<Course, AllocError>
    ensures { IfOk result (IsBegun path) }
{
    let at = Vec::from_slice(alloc, path.nexts.as_slice())?;
    Ok(Course {
        path,
        at,
        found: Vec::new(alloc),
        listed: Vec::new(alloc),
        ends: 0,
        doubts: 0,
    })
}

// A walk at its beginning.
fn standing(alloc: Global, course: Course, node: Option<Node>) -> Walk
    ensures course { result.course ≡ course }
    ensures stand { result.stand ≡ option_map (λ n. record { node = n; stage = stages.Fresh }) node }
{
    let stand = match node {
        Some(node) => Some(Stand {
            node,
            stage: Stage::Fresh,
        }),
        None => None,
    };
    Walk {
        alloc,
        course,
        stand,
    }
}

impl Walk {
    /// Begins a walk along a control path. The node, where one is handed in, is that of the path; without one the path
    /// is replayed, with no question asked.
    pub fn begin(
        alloc: Global,
        job: &Job,
        node: Option<Node>,
        path: Path,
        kit: &mut Kit,
    ) -> Result<Walk, AllocError>
        requires node { IfSome node (λ n. IsNode job.now n × (n.path ≡ path.nexts)) }
        requires few { length kit.old.items ≤ MOST_PASSES }
        ensures walk { IfOk result (IsWalk job.now) }
        ensures idle { IfOk result IsIdle }
        ensures path { IfOk result (λ walk. path_of walk ≡ path) }
        ensures nothing { IfOk result (λ walk. listed_of walk ≡ []) }
        ensures doubts { IfOk result (λ walk. doubts_of walk ≡ 0) }
        ensures passes { length kit.new.items ≡ length kit.old.items }
    {
        let node = node_for(alloc, job, node, &path, kit)?;
        let course = begun(alloc, path)?;
        Ok(standing(alloc, course, node))
    }

    /// Goes on to the next question, or to the end. A question has to be told before the walk goes on.
    pub fn go(self, job: &Job, kit: &mut Kit) -> Result<Walked, AllocError>
        requires walk { IsWalk job.now self }
        requires idle { IsIdle self }
        requires few { length kit.old.items ≤ MOST_PASSES }
        ensures come { IfOk result (IsCome job.now (course_of self) (doubts_of self) (turns_left job.now self)) }
        ensures passes { length kit.new.items ≡ length kit.old.items }
    {
        let mut walk = self;
        loop {
            match turn(job, kit, walk)? {
                Turn::On(later) => walk = later,
                Turn::Over(walked) => return Ok(walked),
            }
        }
    }

    /// Tells the answer to the question that was asked. One that was left open is listed, where the question was about
    /// a leak or another target, and else counted as a doubt.
    pub fn told(self, job: &Job, told: Told) -> Result<Walk, AllocError>
        requires walk { IsWalk job.now self }
        requires told { IsTold job.now self told }
        ensures later { IfOk result (IsLater job.now (path_of self) (turns_left job.now self)) }
        ensures idle { IfOk result IsIdle }
        ensures doubts { IfOk result (λ walk. doubts_of walk ≡ doubts_of self + new_doubts self told) }
        ensures logs { IfOk result (λ walk. KeepsLogs told (course_of self) (course_of walk)) }
    {
        let Walk {
            alloc,
            course,
            stand,
        } = self;
        match stand {
            None => unreachable!(),
            Some(Stand { node, stage }) => {
                let walk = told_at(job, alloc, course, node, stage, told)?;
                Ok(walk)
            }
        }
    }
}
