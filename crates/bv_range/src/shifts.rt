//! Ranges of shifts.

ghost use Rattle.std.specs.Prelude.{◌≡◌, ◌%◌, ◌<◌, MatchOption, ◌≢◌};
ghost use Rattle.ct_words.specs.Words.{alu_value};
ghost use Rattle.ct_words.specs.declared.alu_op.AluOp.TheVariants.{Sll, Srl};
ghost use Rattle.bv_range.specs.Fixed.{alu_fixed};
ghost use Rattle.bv_range.specs.Rules.{IsWordRule};

use crate::bits::{NONE, down_bits, up_bits};
use crate::ends::wrapped;
use crate::range::Range;
use crate::settling::settled;
use bv_expr::WORD;

// The amount of a shift by a word that is known.
fn amount_of(b: Range) -> Option<u32>
    ensures { MatchOption result (b.least ≢ b.most) (λ amount. (b.least ≡ b.most) × (amount ≡ b.least % 32)) }
{
    if b.least == b.most {
        Some(b.least % 32)
    } else {
        None
    }
}

/// A shift by a known amount moves the known bits and the ends.
pub fn range_of_sll(a: Range, b: Range) -> Range
    ensures { IsWordRule (alu_value Sll) (alu_fixed Sll) a b result }
{
    match amount_of(b) {
        Some(amount) => {
            let ends = wrapped(u64::from(a.least) << amount, u64::from(a.most) << amount);
            settled(WORD, up_bits(a, amount), ends.least, ends.most)
        }
        None => settled(WORD, NONE, 0, u32::MAX),
    }
}

/// A shift down by any amount gives no greater word.
pub fn range_of_srl(a: Range, b: Range) -> Range
    ensures { IsWordRule (alu_value Srl) (alu_fixed Srl) a b result }
{
    match amount_of(b) {
        Some(amount) => settled(
            WORD,
            down_bits(a, amount),
            a.least >> amount,
            a.most >> amount,
        ),
        None => settled(WORD, NONE, 0, a.most),
    }
}
