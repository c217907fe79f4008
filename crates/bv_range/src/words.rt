//! Ranges of operations on words.

ghost use Rattle.std.specs.Prelude.{◌^◌, ◌-◌};
ghost use Rattle.ct_words.specs.Words.{alu_value};
ghost use Rattle.bv_range.specs.Fixed.{alu_fixed};
ghost use Rattle.bv_range.specs.Rules.{IsSettled, IsWordRule};

use crate::bits::NONE;
use crate::bitwise::{range_of_and, range_of_or, range_of_xor};
use crate::comparisons::{range_of_slt, range_of_sltu};
use crate::quotients::{range_of_divu, range_of_mulhu, range_of_remu};
use crate::range::Range;
use crate::settling::settled;
use crate::shifts::{range_of_sll, range_of_srl};
use crate::sums::{range_of_add, range_of_mul, range_of_sub};
use bv_expr::WORD;
use ct_words::AluOp;

// Any word.
fn any_word() -> Range
    ensures { IsSettled 32 0 0 0 (2 ^ 32 - 1) result }
{
    settled(WORD, NONE, 0, u32::MAX)
}

/// The range of an operation on two words. Of signed shifts, quotients and high words nothing is
/// said.
pub fn range_of_alu(op: AluOp, a: Range, b: Range) -> Range
    ensures { IsWordRule (alu_value op) (alu_fixed op) a b result }
{
    match op {
        AluOp::Add => range_of_add(a, b),
        AluOp::Sub => range_of_sub(a, b),
        AluOp::Sll => range_of_sll(a, b),
        AluOp::Slt => range_of_slt(a, b),
        AluOp::Sltu => range_of_sltu(a, b),
        AluOp::Xor => range_of_xor(a, b),
        AluOp::Srl => range_of_srl(a, b),
        AluOp::Sra => any_word(),
        AluOp::Or => range_of_or(a, b),
        AluOp::And => range_of_and(a, b),
        AluOp::Mul => range_of_mul(a, b),
        AluOp::Mulh => any_word(),
        AluOp::Mulhsu => any_word(),
        AluOp::Mulhu => range_of_mulhu(a, b),
        AluOp::Div => any_word(),
        AluOp::Divu => range_of_divu(a, b),
        AluOp::Rem => any_word(),
        AluOp::Remu => range_of_remu(a, b),
    }
}
