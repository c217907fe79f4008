//! A walk along a control path, from one question to the next.

use crate::course::Course;
use crate::record_of::RecordOf;
use crate::stage::Stage;
use crate::stand::Stand;
use query_ask::Question;
use rel_step::Node;
use std::alloc::Global;

/// A walk along a control path, from one question to the next.
#[derive(Drop)]
pub struct Walk {
    pub(crate) alloc: Global,
    pub(crate) course: Course,
    /// None where no pair follows the path.
    pub(crate) stand: Option<Stand>,
}

/// How far a walk came.
#[derive(Drop)]
pub enum Walked {
    /// To a question. The walk goes on once it is told.
    Ask(Question, Walk),
    /// To its end. The node is that of the first kid.
    Done(RecordOf, Option<Node>),
}

/// What one turn of a walk came to.
#[derive(Drop)]
pub(crate) enum Turn {
    On(Walk),
    Over(Walked),
}

impl Walk {
    ghost use Rattle.std.specs.Prelude.{◌≡◌, Some};

    /// A walk that stands at a node.
    pub(crate) fn at(alloc: Global, course: Course, node: Node, stage: Stage) -> Walk
        ensures { result ≡ record { alloc = alloc; course = course; stand = Some (record { node = node; stage = stage }) } }
    {
        Walk {
            alloc,
            course,
            stand: Some(Stand { node, stage }),
        }
    }
}
