//! Ranges of operations on bits, and of choices.

ghost use Rattle.std.specs.Prelude.{◌^◌, ◌<◌};
ghost use Rattle.bv_expr.specs.Typing.{IsWidth};
ghost use Rattle.bv_range.specs.Known.{IsShaped};
ghost use Rattle.bv_range.specs.Rules.{IsNotRule, IsBothRule, IsPickRule};

use crate::bits::{Bits, NONE};
use crate::range::Range;
use crate::settling::settled;
use bv_expr::BIT;

pub fn range_of_not(a: Range) -> Range
    ensures { IsNotRule a result }
{
    settled(
        BIT,
        NONE,
        1u32.saturating_sub(a.most),
        1u32.saturating_sub(a.least),
    )
}

pub fn range_of_both(a: Range, b: Range) -> Range
    ensures { IsBothRule a b result }
{
    settled(BIT, NONE, a.least.min(b.least), a.most.min(b.most))
}

/// The range of the side that is known to be taken, or what both sides have in common.
pub fn range_of_pick(width: u32, when: Range, yes: Range, no: Range) -> Range
    requires width { IsWidth width }
    requires yes { IsShaped width yes }
    requires no { IsShaped width no }
    ensures { IsPickRule width when yes no result }
{
    if when.least != 0 {
        yes
    } else if when.most == 0 {
        no
    } else {
        let bits = Bits {
            zeros: yes.zeros & no.zeros,
            ones: yes.ones & no.ones,
        };
        settled(width, bits, yes.least.min(no.least), yes.most.max(no.most))
    }
}
