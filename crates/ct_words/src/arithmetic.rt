//! What an operation computes.
ghost use Rattle.std.specs.Prelude.{◌≡◌, ◌*ℤ◌, ◌≤◌, ◌<◌, ◌^◌, ◌==◌, ◌-◌, unsigned_abs, int_div, int_rem, if◌then◌else◌};
ghost use Rattle.std.specs.Int.{cast_unsigned, w32};
ghost use Rattle.ct_words.specs.Words.{alu_value, high_word, signed};

use crate::alu_op::AluOp;

/// The word that the instruction computes. Nothing traps: by zero the quotient has all bits set
/// and the remainder is the dividend (RISC-V unprivileged manual, sections 2.4 and 13).
#[tactic(auto, unfolding(crate::specs::Words::alu_value))]
pub fn alu(op: AluOp, a: u32, b: u32) -> u32
    ensures { result ≡ alu_value op a b }
{
    match op {
        AluOp::Add => a.wrapping_add(b),
        AluOp::Sub => a.wrapping_sub(b),
        AluOp::Sll => a.wrapping_shl(b),
        AluOp::Slt => u32::from(a.cast_signed() < b.cast_signed()),
        AluOp::Sltu => u32::from(a < b),
        AluOp::Xor => a ^ b,
        AluOp::Srl => a.wrapping_shr(b),
        AluOp::Sra => a.cast_signed().wrapping_shr(b).cast_unsigned(),
        AluOp::Or => a | b,
        AluOp::And => a & b,
        AluOp::Mul => a.wrapping_mul(b),
        AluOp::Mulh => high_word_of(i64::from(a.cast_signed()), i64::from(b.cast_signed())),
        AluOp::Mulhsu => high_word_of(i64::from(a.cast_signed()), i64::from(b)),
        AluOp::Mulhu => ((u64::from(a) * u64::from(b)) >> 32) as u32,
        AluOp::Div => quotient_of(a, b),
        AluOp::Divu => { if b == 0 { u32::MAX } else { a / b } }
        AluOp::Rem => remainder_of(a, b),
        AluOp::Remu => { if b == 0 { a } else { a % b } }
    }
}

fn high_word_of(x: i64, y: i64) -> u32
    requires signed_word { unsigned_abs x ≤ 2 ^ 31 }
    requires word { unsigned_abs y < 2 ^ 32 }
    ensures { result ≡ high_word (x *ℤ y) }
{
    ((x * y).cast_unsigned() >> 32) as u32
}

fn quotient_of(a: u32, b: u32) -> u32
    ensures { result ≡ (if b == 0 then 2 ^ 32 - 1 else cast_unsigned w32 (int_div (signed a) (signed b))) }
{
    if b == 0 {
        u32::MAX
    } else {
        a.cast_signed()
            .wrapping_div(b.cast_signed())
            .cast_unsigned()
    }
}

fn remainder_of(a: u32, b: u32) -> u32
    ensures { result ≡ (if b == 0 then a else cast_unsigned w32 (int_rem (signed a) (signed b))) }
{
    if b == 0 {
        a
    } else {
        a.cast_signed()
            .wrapping_rem(b.cast_signed())
            .cast_unsigned()
    }
}
