//! An equality that is kept with all that comes of it.

ghost use Rattle.std.specs.Prelude.{◌≡◌, length, take, OnOk};
ghost use Rattle.untaint.specs.Kept.{IsOf, IsOrdered};
ghost use Rattle.untaint.specs.Peeling.{KeepsPeeled};

use crate::equality::Equality;
use crate::peeling::peeled;
use bv_expr::Arena;
use indexmap::IndexSet;
use std::alloc::AllocError;

// Keeps an equality, and then each that comes of it by taking equal operations off from both sides.
pub(crate) fn keep(
    kept: &mut IndexSet<Equality>,
    arena: &Arena,
    first: Equality,
) -> Result<(), AllocError>
    requires inside { IsOf arena.now first }
    requires ordered { IsOrdered first }
    ensures kept { OnOk result (KeepsPeeled arena.now first kept.old.keys kept.new.keys) }
    ensures stays { take (length kept.old.keys) kept.new.keys ≡ kept.old.keys }
{
    let mut next = Some(first);
    while let Some(one) = next {
        kept.insert(one)?;
        next = peeled(arena, one);
    }
    Ok(())
}
