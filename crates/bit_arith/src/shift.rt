//! Shifts of words by the low five bits of another.

ghost use Rattle.std.specs.Prelude.{IfOk, OnOk};
ghost use Rattle.gate_form.specs.Run.{Grows};
ghost use Rattle.bit_arith.specs.Operations.{AreWords, Computes};

use crate::limits::{SHIFT_BITS, SHIFT_GATES, WORD_BITS};
use crate::shifter::{shift_down, shift_up};
use crate::words::Word;
use ct_words::AluOp;
use gate_form::{FALSE, Gates, Wire};
use std::alloc::{AllocError, Global};

pub fn shift_left(
    alloc: Global,
    gates: &mut Gates,
    a: &[Wire],
    b: &[Wire],
) -> Result<Word, AllocError>
    requires { AreWords gates.old a.now b.now }
    ensures value { IfOk result (λ r. Computes gates.new AluOp.Sll a.now b.now r.items) }
    ensures grows { OnOk result (Grows gates.old gates.new SHIFT_GATES) }
{
    let amount = &b[..SHIFT_BITS];
    let out = shift_up(alloc, gates, a, amount)?;
    Ok(out)
}

pub fn shift_right(
    alloc: Global,
    gates: &mut Gates,
    a: &[Wire],
    b: &[Wire],
) -> Result<Word, AllocError>
    requires { AreWords gates.old a.now b.now }
    ensures value { IfOk result (λ r. Computes gates.new AluOp.Srl a.now b.now r.items) }
    ensures grows { OnOk result (Grows gates.old gates.new SHIFT_GATES) }
{
    gates.net_law();
    let amount = &b[..SHIFT_BITS];
    let out = shift_down(alloc, gates, a, amount, FALSE)?;
    Ok(out)
}

pub fn shift_right_signed(
    alloc: Global,
    gates: &mut Gates,
    a: &[Wire],
    b: &[Wire],
) -> Result<Word, AllocError>
    requires { AreWords gates.old a.now b.now }
    ensures value { IfOk result (λ r. Computes gates.new AluOp.Sra a.now b.now r.items) }
    ensures grows { OnOk result (Grows gates.old gates.new SHIFT_GATES) }
{
    let amount = &b[..SHIFT_BITS];
    let out = shift_down(alloc, gates, a, amount, a[WORD_BITS - 1])?;
    Ok(out)
}
