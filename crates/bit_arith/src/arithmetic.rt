//! The eighteen operations as circuits.

ghost use Rattle.std.specs.Prelude.{IfOk, OnOk};
ghost use Rattle.gate_form.specs.Run.{Grows};
ghost use Rattle.bit_arith.specs.Operations.{AreWords, Computes, gate_limit};

use crate::bits::Bitwise;
use crate::product::{high_product, high_product_mixed, high_product_signed, low_product};
use crate::quotient::{quotient, quotient_signed, remainder, remainder_signed};
use crate::shift::{shift_left, shift_right, shift_right_signed};
use crate::sum::{below, below_signed, difference, sum};
use crate::words::{Word, bitwise};
use ct_words::AluOp;
use gate_form::{Gates, Wire};
use std::alloc::{AllocError, Global};

/// The word that an operation gives. Both words have `WORD_BITS` wires, the lowest bit first.
///
/// It adds at most as many gates as the limit of its kind says: `SUM_GATES`, `SHIFT_GATES`,
/// `PRODUCT_GATES` or `QUOTIENT_GATES`. After an error some gates may have been added.
pub fn arith(
    alloc: Global,
    gates: &mut Gates,
    op: AluOp,
    a: &[Wire],
    b: &[Wire],
) -> Result<Word, AllocError>
    requires { AreWords gates.old a.now b.now }
    ensures value { IfOk result (λ r. Computes gates.new op a.now b.now r.items) }
    ensures grows { OnOk result (Grows gates.old gates.new (gate_limit op)) }
{
    match op {
        AluOp::Add => sum(alloc, gates, a, b),
        AluOp::Sub => difference(alloc, gates, a, b),
        AluOp::Sll => shift_left(alloc, gates, a, b),
        AluOp::Slt => below_signed(alloc, gates, a, b),
        AluOp::Sltu => below(alloc, gates, a, b),
        AluOp::Xor => bitwise(alloc, gates, Bitwise::Xor, a, b),
        AluOp::Srl => shift_right(alloc, gates, a, b),
        AluOp::Sra => shift_right_signed(alloc, gates, a, b),
        AluOp::Or => bitwise(alloc, gates, Bitwise::Or, a, b),
        AluOp::And => bitwise(alloc, gates, Bitwise::And, a, b),
        AluOp::Mul => low_product(alloc, gates, a, b),
        AluOp::Mulh => high_product_signed(alloc, gates, a, b),
        AluOp::Mulhsu => high_product_mixed(alloc, gates, a, b),
        AluOp::Mulhu => high_product(alloc, gates, a, b),
        AluOp::Div => quotient_signed(alloc, gates, a, b),
        AluOp::Divu => quotient(alloc, gates, a, b),
        AluOp::Rem => remainder_signed(alloc, gates, a, b),
        AluOp::Remu => remainder(alloc, gates, a, b),
    }
}
