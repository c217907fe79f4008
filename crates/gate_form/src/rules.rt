//! The four local rules of conjunctions.

ghost use Rattle.std.specs.Prelude.{◌≡◌};
ghost use Rattle.gate_form.specs.Rules.{ruled};

use crate::wire::{FALSE, Wire};

/// The wire that a local rule gives for a conjunction, if one of the four does.
pub fn rule(a: Wire, b: Wire) -> Option<Wire>
    ensures { result ≡ ruled a b }
{
    if a.gate == b.gate {
        Some(if a.negated == b.negated { a } else { FALSE })
    } else if a.gate == 0 {
        Some(if a.negated { FALSE } else { b })
    } else if b.gate == 0 {
        Some(if b.negated { FALSE } else { a })
    } else {
        None
    }
}
