//! Where a step goes.

ghost use Rattle.std.specs.Prelude.{◌≡◌, [], ◌∷◌, IfOk};
ghost use Rattle.bv_expr.specs.Nodes.{HasWidth};
ghost use Rattle.bv_expr.specs.Growth.{Extends, AddsNoInput};
ghost use Rattle.rel_step.specs.Onward.{IsOnly, IsOnward, IsFork};

use crate::stride::{NextIf, Stride};
use bv_expr::{Arena, BIT, ExprId};
use ct_rows::Row;
use std::alloc::{AllocError, Global};

/// The one address to which the left run goes.
pub(crate) fn only(alloc: Global, arena: &mut Arena, next: u32) -> Result<Row<NextIf>, AllocError>
    ensures only { IfOk result (IsOnly arena.new next) }
    ensures extends { Extends arena.old arena.new 1 }
    ensures no_input { AddsNoInput arena.old arena.new }
{
    let when = arena.constant(BIT, 1)?;
    let nexts = vec![in alloc; NextIf { next, when }]?;
    Ok(Row::from_vec(nexts))
}

/// The step of two runs that both go to one address and show nothing else.
pub(crate) fn onward(
    alloc: Global,
    arena: &mut Arena,
    site: u32,
    next: u32,
) -> Result<Stride, AllocError>
    ensures onward { IfOk result (IsOnward arena.new site next) }
    ensures extends { Extends arena.old arena.new 1 }
    ensures no_input { AddsNoInput arena.old arena.new }
{
    let nexts = only(alloc, arena, next)?;
    Ok(Stride {
        site,
        sides: None,
        leak: None,
        fault: None,
        nexts,
        target: None,
    })
}

// Two addresses in order.
fn pair(alloc: Global, first: NextIf, second: NextIf) -> Result<Row<NextIf>, AllocError>
    ensures { IfOk result (λ nexts. nexts ≡ first ∷ second ∷ []) }
{
    let nexts = vec![in alloc; first, second]?;
    Ok(Row::from_vec(nexts))
}

/// Two addresses, in ascending order: the left run goes to the one where a bit is 1, and else to the other.
pub(crate) fn fork(
    alloc: Global,
    arena: &mut Arena,
    when: ExprId,
    yes: u32,
    no: u32,
) -> Result<Row<NextIf>, AllocError>
    requires { HasWidth arena.old when.0 1 }
    ensures fork { IfOk result (IsFork arena.new when.0 yes no) }
    ensures extends { Extends arena.old arena.new 1 }
    ensures no_input { AddsNoInput arena.old arena.new }
{
    let unless = arena.not(when)?;
    let first = NextIf { next: yes, when };
    let second = NextIf {
        next: no,
        when: unless,
    };
    if yes < no {
        let nexts = pair(alloc, first, second)?;
        Ok(nexts)
    } else {
        let nexts = pair(alloc, second, first)?;
        Ok(nexts)
    }
}
