//! Ranges of comparisons.

ghost use Rattle.std.specs.Prelude.{◌≡◌, ℕ, ◌^◌, ◌<◌, IfSome};
ghost use Rattle.ct_words.specs.Words.{test_value, alu_value, flag};
ghost use Rattle.ct_words.specs.declared.cond.Cond.TheVariants as conds;
ghost use Rattle.ct_words.specs.declared.alu_op.AluOp.TheVariants.{Slt, Sltu};
ghost use Rattle.bv_expr.specs.Typing.{IsWidth};
ghost use Rattle.bv_range.specs.Fixed.{alu_fixed};
ghost use Rattle.bv_range.specs.Rules.{IsTestRule, IsWordRule, IsOutcome, IsKnownBit};

use crate::bits::NONE;
use crate::range::Range;
use crate::settling::settled;
use bv_expr::{BIT, WORD};
use ct_words::Cond;

const SIGN: u32 = 1 << 31;

// Whether each word of the one range is below each of the other, or none is.
fn is_below(a: Range, b: Range) -> Option<bool>
    ensures { IfSome result (IsOutcome conds.Ltu a b) }
{
    if a.most < b.least {
        Some(true)
    } else if b.most <= a.least {
        Some(false)
    } else {
        None
    }
}

// The same for words as two's complement, where both are positive.
fn is_signed_below(a: Range, b: Range) -> Option<bool>
    ensures { IfSome result (IsOutcome conds.Lt a b) }
{
    if a.most < SIGN && b.most < SIGN {
        is_below(a, b)
    } else {
        None
    }
}

// Whether all words of the two ranges are equal, or none are.
fn is_equal(a: Range, b: Range) -> Option<bool>
    ensures { IfSome result (IsOutcome conds.Eq a b) }
{
    if a.most < b.least {
        Some(false)
    } else if b.most < a.least {
        Some(false)
    } else if (a.zeros & b.ones) | (a.ones & b.zeros) != 0 {
        Some(false)
    } else if a.least == a.most && b.least == b.most {
        Some(true)
    } else {
        None
    }
}

// Whether the condition holds of all words in the ranges, or of none.
fn outcome_of(cond: Cond, a: Range, b: Range) -> Option<bool>
    ensures { IfSome result (IsOutcome cond a b) }
{
    match cond {
        Cond::Eq => is_equal(a, b),
        Cond::Ne => Some(!is_equal(a, b)?),
        Cond::Lt => is_signed_below(a, b),
        Cond::Ge => Some(!is_signed_below(a, b)?),
        Cond::Ltu => is_below(a, b),
        Cond::Geu => Some(!is_below(a, b)?),
    }
}

// A bit that is known, or any bit, as a number of a width.
fn range_of_bit(width: u32, known: Option<bool>) -> Range
    requires { IsWidth width }
    ensures { IsKnownBit width known result }
{
    match known {
        Some(bit) => {
            let value = u32::from(bit);
            settled(width, NONE, value, value)
        }
        None => settled(width, NONE, 0, 1),
    }
}

/// A test is known where the ranges lie apart, or are the same single word.
pub fn range_of_test(cond: Cond, a: Range, b: Range) -> Range
    ensures { IsTestRule (λ x y. flag (test_value cond x y)) a b result }
{
    range_of_bit(BIT, outcome_of(cond, a, b))
}

pub fn range_of_sltu(a: Range, b: Range) -> Range
    ensures { IsWordRule (alu_value Sltu) (alu_fixed Sltu) a b result }
{
    range_of_bit(WORD, outcome_of(Cond::Ltu, a, b))
}

pub fn range_of_slt(a: Range, b: Range) -> Range
    ensures { IsWordRule (alu_value Slt) (alu_fixed Slt) a b result }
{
    range_of_bit(WORD, outcome_of(Cond::Lt, a, b))
}
