//! Whether the access of a step can be refused.

ghost use Rattle.std.specs.Prelude.{◌≡◌, IfOk};
ghost use Rattle.rel_step.specs.Strides.{IsStride};
ghost use Rattle.rel_step.specs.PathNodes.{next_steps};
ghost use Rattle.path_run.specs.Stages.{IsAccess};

use bv_expr::ExprId;
use ct_pairs::Job;
use rel_step::{Node, Stride};
use std::alloc::AllocError;

/// What is known without a search of the access of a step: it is always refused, never refused, or an expression of
/// one bit tells whether it is.
#[derive(Clone, Copy, Debug)]
pub(crate) enum Access {
    Refused,
    Allowed,
    Open(ExprId),
}

/// What is known without a search of the access of a step.
pub(crate) fn access_of(job: &Job, node: &mut Node, stride: &Stride) -> Result<Access, AllocError>
    requires { IsStride node.old.nodes node.old.here.pc (next_steps job.now node.old.here) stride.now }
    ensures unchanged { node.new ≡ node.old }
    ensures access { IfOk result (IsAccess node.old.nodes (next_steps job.now node.old.here)) }
{
    let _job = job;
    match stride.fault {
        None => Ok(Access::Allowed),
        Some(fault) => match node.settled(fault)? {
            Some(true) => Ok(Access::Refused),
            Some(false) => Ok(Access::Allowed),
            None => Ok(Access::Open(fault)),
        },
    }
}
