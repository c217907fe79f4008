//! How far a walk has come with the next step.

use bv_expr::ExprId;
use ct_entries::Seen;
use rel_step::{NextIf, Stride};

/// What is kept of a step's nexts so far, and which are still to be asked about, the last first.
#[derive(Debug, Drop)]
pub(crate) struct Ways {
    /// Whether the step may end both runs: 0 or 1.
    pub ends: u64,
    /// How many questions of the step were left open.
    pub doubts: u64,
    pub kept: Vec<u32>,
    pub rest: Vec<NextIf>,
}

/// The targets of a computed jump that were seen so far.
#[derive(Debug, Drop)]
pub(crate) struct Jumps {
    pub target: ExprId,
    /// Whether the target is none of those that were seen: one bit.
    pub others: ExprId,
    pub seen: Vec<Seen>,
}

/// How far a walk has come with the next step.
#[derive(Debug, Drop)]
pub(crate) enum Stage {
    /// Nothing is known of the step.
    Fresh,
    /// It was asked whether some pair splits in the step.
    AskedLeak { stride: Stride, leak: ExprId },
    /// Which pairs split in the step is settled.
    Settled { stride: Stride },
    /// It was asked whether the access can be refused.
    AskedFault { fault: ExprId, rest: Vec<NextIf> },
    /// Some nexts are kept, and the rest is to be asked about.
    Nexts { ways: Ways },
    /// It was asked whether the step can go to this next.
    AskedNext { ways: Ways, one: NextIf },
    /// Some targets were seen.
    Targets { jumps: Jumps },
    /// It was asked whether the step can go to another target.
    AskedTarget { jumps: Jumps },
}
