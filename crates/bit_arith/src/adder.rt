//! Sums and differences, with the carry as the highest bit.

ghost use Rattle.std.specs.Prelude.{◌≡◌, ℕ, ◌+◌, ◌-◌, ◌*◌, ◌^◌, ◌<◌, Bool, length, IfOk, OnOk};
ghost use Rattle.ct_words.specs.Words.{flag};
ghost use Rattle.gate_form.specs.Net.{bit, AreIn};
ghost use Rattle.gate_form.specs.Run.{Grows};
ghost use Rattle.bit_arith.specs.Number.{word, IsWord};

use crate::bits::full_add;
use crate::words::{Word, flipped};
use gate_form::{Gates, TRUE, Wire};
use std::alloc::{AllocError, Global};

/// The sum of two words and a carry, one bit wider than they are.
pub fn add(
    alloc: Global,
    gates: &mut Gates,
    a: &[Wire],
    b: &[Wire],
    carry: Wire,
) -> Result<Word, AllocError>
    requires width { length b.now ≡ length a.now }
    requires left { AreIn gates.old a.now }
    requires right { AreIn gates.old b.now }
    requires carry { carry.gate < length gates.old }
    ensures value { IfOk result (λ r. IsWord gates.new r.items (length a.now + 1) (λ v. word v a.now + word v b.now + flag (bit v carry))) }
    ensures grows { OnOk result (Grows gates.old gates.new (9 * length a.now)) }
{
    let mut sum = Vec::new(alloc);
    let mut last = carry;
    for i in 0..a.len() {
        let (low, high) = full_add(gates, a[i], b[i], last)?;
        sum.push(low)?;
        last = high;
    }
    sum.push(last)?;
    Ok(sum)
}

/// The difference of two words of n bits and 2^n: its highest bit says that it isn't negative.
pub fn subtract(
    alloc: Global,
    gates: &mut Gates,
    a: &[Wire],
    b: &[Wire],
) -> Result<Word, AllocError>
    requires width { length b.now ≡ length a.now }
    requires left { AreIn gates.old a.now }
    requires right { AreIn gates.old b.now }
    ensures value { IfOk result (λ r. IsWord gates.new r.items (length a.now + 1) (λ v. word v a.now + 2 ^ length a.now - word v b.now)) }
    ensures grows { OnOk result (Grows gates.old gates.new (9 * length a.now)) }
{
    gates.net_law();
    let other = flipped(alloc, b)?;
    let difference = add(alloc, gates, a, &other, TRUE)?;
    Ok(difference)
}
