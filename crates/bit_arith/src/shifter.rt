//! Shifts by a number of bits that is itself a word: a choice for each bit of the amount.

ghost use Rattle.std.specs.Prelude.{List, ◌≡◌, ℕ, ◌+◌, ◌-◌, ◌*◌, ◌%◌, ◌^◌, ◌<◌, ◌≤◌, length, IfOk, OnOk};
ghost use Rattle.gate_form.specs.declared.wire.Gate.{Gate};
ghost use Rattle.gate_form.specs.Net.{bit, AreIn};
ghost use Rattle.gate_form.specs.Run.{Grows};
ghost use Rattle.bit_arith.specs.Filled.{moved_down_by};
ghost use Rattle.bit_arith.specs.Number.{word, IsWord};

use crate::words::{Word, pick_word, repeated, zeros};
use gate_form::{Gates, Wire};
use std::alloc::{AllocError, Global};

// A word moved up by some bits, with zeros below. What is moved past the top is lost.
fn moved_up(alloc: Global, a: &[Wire], by: usize) -> Result<Word, AllocError>
    requires within { by ≤ length a.now }
    ensures { IfOk result (λ r. (gates : List Gate) → 0 < length gates → AreIn gates a.now → IsWord gates r.items (length a.now) (λ v. (word v a.now * 2 ^ by) % 2 ^ length a.now)) }
{
    let mut out = zeros(alloc, by)?;
    out.extend_from_slice(&a[..a.len() - by])?;
    Ok(out)
}

// A word moved down by some bits, with copies of a bit above.
fn moved_down(alloc: Global, a: &[Wire], by: usize, fill: Wire) -> Result<Word, AllocError>
    requires within { by ≤ length a.now }
    ensures { IfOk result (λ r. (gates : List Gate) → fill.gate < length gates → AreIn gates a.now → IsWord gates r.items (length a.now) (λ v. moved_down_by (bit v fill) (length a.now) (word v a.now) by)) }
{
    let above = repeated(alloc, fill, by)?;
    let mut out = Vec::from_slice(alloc, &a[by..])?;
    out.extend_from_slice(&above)?;
    Ok(out)
}

/// A word moved up by a number of bits, with zeros below.
pub fn shift_up(
    alloc: Global,
    gates: &mut Gates,
    a: &[Wire],
    amount: &[Wire],
) -> Result<Word, AllocError>
    requires left { AreIn gates.old a.now }
    requires right { AreIn gates.old amount.now }
    requires room { 2 ^ length amount.now ≤ length a.now }
    ensures value { IfOk result (λ r. IsWord gates.new r.items (length a.now) (λ v. (word v a.now * 2 ^ word v amount.now) % 2 ^ length a.now)) }
    ensures grows { OnOk result (Grows gates.old gates.new (3 * length a.now * length amount.now)) }
{
    gates.net_law();
    let mut out = Vec::from_slice(alloc, a)?;
    let mut by = 1;
    for k in 0..amount.len() {
        let moved = moved_up(alloc, &out, by)?;
        out = pick_word(alloc, gates, amount[k], &moved, &out)?;
        by *= 2;
    }
    Ok(out)
}

/// A word moved down by a number of bits, with copies of a bit above.
pub fn shift_down(
    alloc: Global,
    gates: &mut Gates,
    a: &[Wire],
    amount: &[Wire],
    fill: Wire,
) -> Result<Word, AllocError>
    requires left { AreIn gates.old a.now }
    requires right { AreIn gates.old amount.now }
    requires fill { fill.gate < length gates.old }
    requires room { 2 ^ length amount.now ≤ length a.now }
    ensures value { IfOk result (λ r. IsWord gates.new r.items (length a.now) (λ v. moved_down_by (bit v fill) (length a.now) (word v a.now) (word v amount.now))) }
    ensures grows { OnOk result (Grows gates.old gates.new (3 * length a.now * length amount.now)) }
{
    let mut out = Vec::from_slice(alloc, a)?;
    let mut by = 1;
    for k in 0..amount.len() {
        let moved = moved_down(alloc, &out, by, fill)?;
        out = pick_word(alloc, gates, amount[k], &moved, &out)?;
        by *= 2;
    }
    Ok(out)
}
