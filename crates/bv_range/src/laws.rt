//! The law of fixed bits.

ghost use Rattle.bv_range.specs.Fixed.{AreFixed, fixed_of};

use bv_expr::Arena;

/// The law of fixed bits: the expressions of an arena have them, each from those of its operands.
pub fn fixed_law(arena: &Arena)
    ensures { AreFixed (fixed_of arena.now) arena.now }
{
    arena.law();
}
