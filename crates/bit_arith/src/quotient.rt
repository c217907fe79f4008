//! The four quotients and remainders: by sign and magnitude, and apart by zero.

ghost use Rattle.std.specs.Prelude.{◌≡◌, ℕ, ◌+◌, ◌*◌, ◌<◌, Bool, ◌==◌, length, IfOk, OnOk, if◌then◌else◌};
ghost use Rattle.gate_form.specs.Net.{AreIn};
ghost use Rattle.gate_form.specs.Run.{IsRun, Grows};
ghost use Rattle.bit_arith.specs.Division.{IsDivided};
ghost use Rattle.bit_arith.specs.Number.{word, IsWord};
ghost use Rattle.bit_arith.specs.Operations.{AreWords, Computes};
ghost use Rattle.bit_arith.specs.Signs as signs;

use crate::bits::xor;
use crate::divider::divide;
use crate::limits::{QUOTIENT_GATES, WORD_BITS};
use crate::order::equal;
use crate::signs::{magnitude, negate_where};
use crate::words::{Word, pick_word, repeated, zeros};
use ct_words::AluOp;
use gate_form::{Gates, TRUE, Wire};
use std::alloc::{AllocError, Global};

// One word where another is 0, and a third where it isn't.
fn where_zero(
    alloc: Global,
    gates: &mut Gates,
    b: &[Wire],
    zero: &[Wire],
    other: &[Wire],
) -> Result<Word, AllocError>
    requires width { length other.now ≡ length zero.now }
    requires b { AreIn gates.old b.now }
    requires zero { AreIn gates.old zero.now }
    requires other { AreIn gates.old other.now }
    ensures value { IfOk result (λ r. IsWord gates.new r.items (length zero.now) (λ v. if word v b.now == 0 then word v zero.now else word v other.now)) }
    ensures grows { OnOk result (Grows gates.old gates.new (4 * length b.now + 3 * length zero.now)) }
{
    gates.net_law();
    let nothing = zeros(alloc, b.len())?;
    let is_zero = equal(gates, b, &nothing)?;
    let out = pick_word(alloc, gates, is_zero, zero, other)?;
    Ok(out)
}

// The quotient and the remainder of the magnitudes of two words where the second isn't 0.
fn divide_magnitudes(
    alloc: Global,
    gates: &mut Gates,
    a: &[Wire],
    b: &[Wire],
) -> Result<(Word, Word), AllocError>
    requires { AreWords gates.old a.now b.now }
    ensures quotient { IfOk result (λ r. AreIn gates.new r.0.items) }
    ensures quotient_width { IfOk result (λ r. length r.0.items ≡ WORD_BITS) }
    ensures rest { IfOk result (λ r. AreIn gates.new r.1.items) }
    ensures rest_width { IfOk result (λ r. length r.1.items ≡ WORD_BITS) }
    ensures value { IfOk result (λ r. (v : ℕ → Bool) → IsRun v gates.new → 0 < word v b.now → IsDivided (signs.magnitude (word v a.now)) (signs.magnitude (word v b.now)) (word v r.0.items) (word v r.1.items)) }
    ensures grows { OnOk result (Grows gates.old gates.new 13440) }
{
    let left = magnitude(alloc, gates, a)?;
    let right = magnitude(alloc, gates, b)?;
    let parts = divide(alloc, gates, &left, &right)?;
    Ok(parts)
}

pub fn quotient(
    alloc: Global,
    gates: &mut Gates,
    a: &[Wire],
    b: &[Wire],
) -> Result<Word, AllocError>
    requires { AreWords gates.old a.now b.now }
    ensures value { IfOk result (λ r. Computes gates.new AluOp.Divu a.now b.now r.items) }
    ensures grows { OnOk result (Grows gates.old gates.new QUOTIENT_GATES) }
{
    gates.net_law();
    let (whole, _) = divide(alloc, gates, a, b)?;
    let ones = repeated(alloc, TRUE, WORD_BITS)?;
    let out = where_zero(alloc, gates, b, &ones, &whole)?;
    Ok(out)
}

pub fn remainder(
    alloc: Global,
    gates: &mut Gates,
    a: &[Wire],
    b: &[Wire],
) -> Result<Word, AllocError>
    requires { AreWords gates.old a.now b.now }
    ensures value { IfOk result (λ r. Computes gates.new AluOp.Remu a.now b.now r.items) }
    ensures grows { OnOk result (Grows gates.old gates.new QUOTIENT_GATES) }
{
    let (_, rest) = divide(alloc, gates, a, b)?;
    let out = where_zero(alloc, gates, b, a, &rest)?;
    Ok(out)
}

pub fn quotient_signed(
    alloc: Global,
    gates: &mut Gates,
    a: &[Wire],
    b: &[Wire],
) -> Result<Word, AllocError>
    requires { AreWords gates.old a.now b.now }
    ensures value { IfOk result (λ r. Computes gates.new AluOp.Div a.now b.now r.items) }
    ensures grows { OnOk result (Grows gates.old gates.new QUOTIENT_GATES) }
{
    gates.net_law();
    let (whole, _) = divide_magnitudes(alloc, gates, a, b)?;
    let negative = xor(gates, a[WORD_BITS - 1], b[WORD_BITS - 1])?;
    let signed = negate_where(alloc, gates, &whole, negative)?;
    let ones = repeated(alloc, TRUE, WORD_BITS)?;
    let out = where_zero(alloc, gates, b, &ones, &signed)?;
    Ok(out)
}

pub fn remainder_signed(
    alloc: Global,
    gates: &mut Gates,
    a: &[Wire],
    b: &[Wire],
) -> Result<Word, AllocError>
    requires { AreWords gates.old a.now b.now }
    ensures value { IfOk result (λ r. Computes gates.new AluOp.Rem a.now b.now r.items) }
    ensures grows { OnOk result (Grows gates.old gates.new QUOTIENT_GATES) }
{
    let (_, rest) = divide_magnitudes(alloc, gates, a, b)?;
    let signed = negate_where(alloc, gates, &rest, a[WORD_BITS - 1])?;
    let out = where_zero(alloc, gates, b, a, &signed)?;
    Ok(out)
}
