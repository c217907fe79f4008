//! The four products: the low word, and the high word by sign and magnitude.

ghost use Rattle.std.specs.Prelude.{◌≡◌, ◌-◌, ◌*◌, ◌/◌, ◌%◌, ◌^◌, ◌<◌, length, IfOk, OnOk, if◌then◌else◌};
ghost use Rattle.gate_form.specs.Net.{bit};
ghost use Rattle.gate_form.specs.Run.{Grows};
ghost use Rattle.bit_arith.specs.Number.{word, IsWord};
ghost use Rattle.bit_arith.specs.Operations.{AreWords, Computes};

use crate::bits::xor;
use crate::limits::{PRODUCT_GATES, WORD_BITS};
use crate::multiplier::multiply;
use crate::signs::{magnitude, negate_where};
use crate::words::Word;
use ct_words::AluOp;
use gate_form::{Gates, Wire};
use std::alloc::{AllocError, Global};

pub fn low_product(
    alloc: Global,
    gates: &mut Gates,
    a: &[Wire],
    b: &[Wire],
) -> Result<Word, AllocError>
    requires { AreWords gates.old a.now b.now }
    ensures value { IfOk result (λ r. Computes gates.new AluOp.Mul a.now b.now r.items) }
    ensures grows { OnOk result (Grows gates.old gates.new PRODUCT_GATES) }
{
    let mut out = multiply(alloc, gates, a, b)?;
    out.truncate(WORD_BITS);
    Ok(out)
}

pub fn high_product(
    alloc: Global,
    gates: &mut Gates,
    a: &[Wire],
    b: &[Wire],
) -> Result<Word, AllocError>
    requires { AreWords gates.old a.now b.now }
    ensures value { IfOk result (λ r. Computes gates.new AluOp.Mulhu a.now b.now r.items) }
    ensures grows { OnOk result (Grows gates.old gates.new PRODUCT_GATES) }
{
    let whole = multiply(alloc, gates, a, b)?;
    let out = Vec::from_slice(alloc, &whole[WORD_BITS..])?;
    Ok(out)
}

// The high word of a product, or of its negative.
fn high_product_where(
    alloc: Global,
    gates: &mut Gates,
    a: &[Wire],
    b: &[Wire],
    negative: Wire,
) -> Result<Word, AllocError>
    requires words { AreWords gates.old a.now b.now }
    requires negative { negative.gate < length gates.old }
    ensures value { IfOk result (λ r. IsWord gates.new r.items WORD_BITS (λ v. (if bit v negative then (2 ^ 64 - word v a.now * word v b.now) % 2 ^ 64 else word v a.now * word v b.now) / 2 ^ 32)) }
    ensures grows { OnOk result (Grows gates.old gates.new 13056) }
{
    let whole = multiply(alloc, gates, a, b)?;
    let turned = negate_where(alloc, gates, &whole, negative)?;
    let out = Vec::from_slice(alloc, &turned[WORD_BITS..])?;
    Ok(out)
}

pub fn high_product_signed(
    alloc: Global,
    gates: &mut Gates,
    a: &[Wire],
    b: &[Wire],
) -> Result<Word, AllocError>
    requires { AreWords gates.old a.now b.now }
    ensures value { IfOk result (λ r. Computes gates.new AluOp.Mulh a.now b.now r.items) }
    ensures grows { OnOk result (Grows gates.old gates.new PRODUCT_GATES) }
{
    let left = magnitude(alloc, gates, a)?;
    let right = magnitude(alloc, gates, b)?;
    let negative = xor(gates, a[WORD_BITS - 1], b[WORD_BITS - 1])?;
    let out = high_product_where(alloc, gates, &left, &right, negative)?;
    Ok(out)
}

pub fn high_product_mixed(
    alloc: Global,
    gates: &mut Gates,
    a: &[Wire],
    b: &[Wire],
) -> Result<Word, AllocError>
    requires { AreWords gates.old a.now b.now }
    ensures value { IfOk result (λ r. Computes gates.new AluOp.Mulhsu a.now b.now r.items) }
    ensures grows { OnOk result (Grows gates.old gates.new PRODUCT_GATES) }
{
    let left = magnitude(alloc, gates, a)?;
    let out = high_product_where(alloc, gates, &left, b, a[WORD_BITS - 1])?;
    Ok(out)
}
