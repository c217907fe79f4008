//! Ranges of quotients, remainders and high words.

ghost use Rattle.ct_words.specs.Words.{alu_value};
ghost use Rattle.ct_words.specs.declared.alu_op.AluOp.TheVariants.{Divu, Mulhu, Remu};
ghost use Rattle.bv_range.specs.Fixed.{alu_fixed};
ghost use Rattle.bv_range.specs.Rules.{IsWordRule};

use crate::bits::NONE;
use crate::range::Range;
use crate::settling::settled;
use bv_expr::WORD;

/// A quotient by a word that isn't 0 lies between the quotients of the ends.
pub fn range_of_divu(a: Range, b: Range) -> Range
    ensures { IsWordRule (alu_value Divu) (alu_fixed Divu) a b result }
{
    if b.least == 0 {
        settled(WORD, NONE, 0, u32::MAX)
    } else {
        settled(WORD, NONE, a.least / b.most.max(1), a.most / b.least)
    }
}

/// A remainder is at most the dividend, and below a divisor that isn't 0.
pub fn range_of_remu(a: Range, b: Range) -> Range
    ensures { IsWordRule (alu_value Remu) (alu_fixed Remu) a b result }
{
    if b.least == 0 {
        settled(WORD, NONE, 0, a.most)
    } else if a.most < b.least {
        settled(WORD, NONE, a.least, a.most)
    } else {
        settled(WORD, NONE, 0, a.most.min(b.most.saturating_sub(1)))
    }
}

/// The high word of a product lies between those of the products of the ends.
pub fn range_of_mulhu(a: Range, b: Range) -> Range
    ensures { IsWordRule (alu_value Mulhu) (alu_fixed Mulhu) a b result }
{
    let least = (u64::from(a.least) * u64::from(b.least)) >> 32;
    let most = (u64::from(a.most) * u64::from(b.most)) >> 32;
    settled(WORD, NONE, least as u32, most as u32)
}
