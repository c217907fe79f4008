//! Sums, differences and orders as words.

ghost use Rattle.std.specs.Prelude.{IfOk, OnOk};
ghost use Rattle.gate_form.specs.Run.{Grows};
ghost use Rattle.bit_arith.specs.Operations.{AreWords, Computes};

use crate::adder::{add, subtract};
use crate::limits::{SUM_GATES, WORD_BITS};
use crate::order::{less, less_signed};
use crate::words::{Word, single};
use ct_words::AluOp;
use gate_form::{FALSE, Gates, Wire};
use std::alloc::{AllocError, Global};

pub fn sum(alloc: Global, gates: &mut Gates, a: &[Wire], b: &[Wire]) -> Result<Word, AllocError>
    requires { AreWords gates.old a.now b.now }
    ensures value { IfOk result (λ r. Computes gates.new AluOp.Add a.now b.now r.items) }
    ensures grows { OnOk result (Grows gates.old gates.new SUM_GATES) }
{
    gates.net_law();
    let mut out = add(alloc, gates, a, b, FALSE)?;
    out.truncate(WORD_BITS);
    Ok(out)
}

pub fn difference(
    alloc: Global,
    gates: &mut Gates,
    a: &[Wire],
    b: &[Wire],
) -> Result<Word, AllocError>
    requires { AreWords gates.old a.now b.now }
    ensures value { IfOk result (λ r. Computes gates.new AluOp.Sub a.now b.now r.items) }
    ensures grows { OnOk result (Grows gates.old gates.new SUM_GATES) }
{
    let mut out = subtract(alloc, gates, a, b)?;
    out.truncate(WORD_BITS);
    Ok(out)
}

pub fn below(alloc: Global, gates: &mut Gates, a: &[Wire], b: &[Wire]) -> Result<Word, AllocError>
    requires { AreWords gates.old a.now b.now }
    ensures value { IfOk result (λ r. Computes gates.new AluOp.Sltu a.now b.now r.items) }
    ensures grows { OnOk result (Grows gates.old gates.new SUM_GATES) }
{
    let bit = less(alloc, gates, a, b)?;
    let out = single(alloc, bit, WORD_BITS)?;
    Ok(out)
}

pub fn below_signed(
    alloc: Global,
    gates: &mut Gates,
    a: &[Wire],
    b: &[Wire],
) -> Result<Word, AllocError>
    requires { AreWords gates.old a.now b.now }
    ensures value { IfOk result (λ r. Computes gates.new AluOp.Slt a.now b.now r.items) }
    ensures grows { OnOk result (Grows gates.old gates.new SUM_GATES) }
{
    let bit = less_signed(alloc, gates, a, b)?;
    let out = single(alloc, bit, WORD_BITS)?;
    Ok(out)
}
