//! Ranges of and, or, and exclusive or.

ghost use Rattle.ct_words.specs.Words.{alu_value};
ghost use Rattle.ct_words.specs.declared.alu_op.AluOp.TheVariants.{And, Or, Xor};
ghost use Rattle.bv_range.specs.Fixed.{alu_fixed};
ghost use Rattle.bv_range.specs.Rules.{IsWordRule};

use crate::bits::{and_bits, or_bits, xor_bits};
use crate::range::Range;
use crate::settling::settled;
use bv_expr::WORD;

pub fn range_of_and(a: Range, b: Range) -> Range
    ensures { IsWordRule (alu_value And) (alu_fixed And) a b result }
{
    settled(WORD, and_bits(a, b), 0, a.most.min(b.most))
}

pub fn range_of_or(a: Range, b: Range) -> Range
    ensures { IsWordRule (alu_value Or) (alu_fixed Or) a b result }
{
    settled(WORD, or_bits(a, b), a.least.max(b.least), u32::MAX)
}

pub fn range_of_xor(a: Range, b: Range) -> Range
    ensures { IsWordRule (alu_value Xor) (alu_fixed Xor) a b result }
{
    settled(WORD, xor_bits(a, b), 0, u32::MAX)
}
