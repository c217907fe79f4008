//! A control path, taken again from its beginning.

ghost use Rattle.std.specs.Prelude.{◌≡◌, ◌≤◌, ◌++◌, ◌∷◌, [], false, length, Any, IfOk, IsTrue, MatchOption};
ghost use Rattle.rel_step.specs.declared.simplifying.TheConstants.{MOST_PASSES};
ghost use Rattle.rel_step.specs.declared.stride.NextIf.{NextIf as TheNext};
ghost use Rattle.rel_step.specs.PathNodes.{IsNode};
ghost use Rattle.path_run.specs.Replays.{CanStep, CanGoAhead, IsReplayed, NoneFollows};

use bv_passes::Kit;
use ct_pairs::Job;
use rel_step::{Ahead, NextIf, Node, Stride};
use std::alloc::AllocError;

// Whether a next is listed.
fn is_listed(nexts: &[NextIf], next: u32) -> bool
    ensures listed { IsTrue result → Any (λ (one : TheNext). one.next ≡ next) nexts.now }
    ensures apart { result ≡ false → Any (λ (one : TheNext). one.next ≡ next) nexts.now → ⊥ }
{
    for one in nexts {
        if one.next == next {
            return true;
        }
    }
    false
}

// Whether a step can go to a next.
fn can_step(stride: &Stride, next: u32) -> bool
    ensures can { IsTrue result → CanStep stride.now next }
    ensures apart { result ≡ false → CanStep stride.now next → ⊥ }
{
    match stride.target {
        Some(_) => true,
        None => is_listed(stride.nexts.as_slice(), next),
    }
}

// Whether what comes after a node can go to a next.
fn can_go(ahead: &Ahead, next: u32) -> bool
    ensures can { IsTrue result → CanGoAhead ahead.now next }
    ensures apart { result ≡ false → CanGoAhead ahead.now next → ⊥ }
{
    match ahead {
        Ahead::Bound => false,
        Ahead::Ended(_) => false,
        Ahead::Step(stride) => can_step(stride, next),
    }
}

// The node one next further, or none where no pair goes there.
fn follow_next(job: &Job, kit: &mut Kit, node: Node, next: u32) -> Result<Option<Node>, AllocError>
    requires node { IsNode job.now node }
    requires few { length kit.old.items ≤ MOST_PASSES }
    ensures after { IfOk result (λ later. MatchOption later (NoneFollows job.now (node.path ++ next ∷ [])) (λ n. IsNode job.now n × (n.path ≡ node.path ++ next ∷ []))) }
    ensures passes { length kit.new.items ≡ length kit.old.items }
{
    let mut node = node;
    let ahead = node.ahead(job, kit)?;
    node.arena().law();
    if !can_go(&ahead, next) {
        return Ok(None);
    }
    let later = node.follow(job, next)?;
    Ok(Some(later))
}

/// The node of a control path, or none where no pair follows it. Nothing is asked.
pub(crate) fn replay(
    job: &Job,
    kit: &mut Kit,
    node: Node,
    nexts: &[u32],
) -> Result<Option<Node>, AllocError>
    requires node { IsNode job.now node }
    requires root { node.path ≡ [] }
    requires few { length kit.old.items ≤ MOST_PASSES }
    ensures replayed { IfOk result (IsReplayed job.now nexts.now) }
    ensures passes { length kit.new.items ≡ length kit.old.items }
{
    let mut node = node;
    for next in nexts {
        match follow_next(job, kit, node, *next)? {
            None => return Ok(None),
            Some(later) => node = later,
        }
    }
    Ok(Some(node))
}
