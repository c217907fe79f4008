//! A step that is taken.

ghost use Rattle.std.specs.Prelude.{◌≡◌, ℕ, ◌++◌, ◌∷◌, [], Bool, Any, All, IfOk, OnOk, IfSome, option_to_list};
ghost use Rattle.rv_machine.specs.Step.{Transition};
ghost use Rattle.bv_expr.specs.Nodes.{IsValuation, HasWidth};
ghost use Rattle.bv_expr.specs.Growth.{Extends, AddsNoInput};
ghost use Rattle.rel_memory.specs.Contents.{IsWritten, IsMemory};
ghost use Rattle.rel_step.specs.declared.stride.NextIf.{NextIf as TheNext};
ghost use Rattle.rel_step.specs.Runs.{Tells, IsHere, state_of};
ghost use Rattle.rel_step.specs.Strides.{LeftGoes};
ghost use Rattle.rel_step.specs.Plans.{HasMoved, after_moved};
ghost use Rattle.rel_step.specs.PathNodes.{Goes, CanGoBy};
ghost use Rattle.rel_step.specs.Following.{ArePut, IsPutIn};

use crate::here::Here;
use crate::last::Last;
use crate::planned::Moved;
use crate::stride::NextIf;
use bv_expr::{Arena, ExprId, WORD};
use ct_rows::Row;
use ct_words::Cond;
use rel_memory::{RelMemory, Written};
use std::alloc::AllocError;

/// The expression of a next that is listed.
fn when_of(nexts: &Row<NextIf>, next: u32) -> ExprId
    requires { Any (λ (one : TheNext). one.next ≡ next) nexts.now }
    ensures { Any (λ (one : TheNext). (one.next ≡ next) × (one.when ≡ result)) nexts.now }
{
    for one in nexts.as_slice() {
        if one.next == next {
            return one.when;
        }
    }
    unreachable!()
}

/// Whether the left run goes to an address: one bit.
pub(crate) fn go_to(arena: &mut Arena, last: &Last, next: u32) -> Result<ExprId, AllocError>
    requires can { CanGoBy last.now next }
    requires target { IfSome last.now.target (λ id. HasWidth arena.old id.0 32) }
    ensures tells { IfOk result (λ id. (runs : (ℕ → ℕ) → Bool → Transition) → Goes arena.old runs last.now → Tells arena.new id.0 (λ v. LeftGoes (runs v) next)) }
    ensures extends { Extends arena.old arena.new 2 }
    ensures no_input { AddsNoInput arena.old arena.new }
{
    match last.target {
        None => {
            let when = when_of(&last.nexts, next);
            Ok(when)
        }
        Some(target) => {
            let address = arena.constant(WORD, next)?;
            let when = arena.test(Cond::Eq, target, address)?;
            Ok(when)
        }
    }
}

/// Puts stored bytes in, one after another.
fn store(memory: &mut RelMemory, arena: &Arena, ones: &[Written]) -> Result<(), AllocError>
    requires memory { IsMemory arena.now memory.old }
    requires ones { All (IsWritten arena.now) ones.now }
    ensures stored { OnOk result (ArePut arena.now memory.old ones.now memory.new) }
{
    for i in 0..ones.len() {
        let one = ones[i];
        memory.write_byte(arena, one.address, one.held)?;
    }
    Ok(())
}

/// Puts in what a step that goes on changes beside the pc.
pub(crate) fn put(here: &mut Here, arena: &Arena, moved: &Moved) -> Result<(), AllocError>
    requires here { IsHere arena.now here.old }
    requires parts { HasMoved arena.now moved.now }
    ensures { OnOk result (IsPutIn arena.now here.old moved.now here.new) }
{
    match moved {
        Moved::Nothing => Ok(()),
        Moved::Register { rd, given } => {
            here.registers.set(*rd, *given);
            Ok(())
        }
        Moved::Bytes(ones) => {
            store(&mut here.memory, arena, ones.as_slice())?;
            Ok(())
        }
    }
}

/// The conjuncts with those of one more step.
pub(crate) fn with_conjuncts(
    conjuncts: Vec<ExprId>,
    equal: Option<ExprId>,
    when: ExprId,
) -> Result<Vec<ExprId>, AllocError>
    ensures { IfOk result (λ more. more.items ≡ conjuncts.items ++ option_to_list equal ++ when ∷ []) }
{
    let mut more = conjuncts;
    if let Some(equal) = equal {
        more.push(equal)?;
    }
    more.push(when)?;
    Ok(more)
}
