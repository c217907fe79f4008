//! Equality and order of words.

ghost use Rattle.std.specs.Prelude.{List, ◌≡◌, ℕ, ◌+◌, ◌-◌, ◌*◌, ◌%◌, ◌^◌, ◌<◌, Bool, ◌==◌, nat_lt, int_lt, length, IfOk, OnOk};
ghost use Rattle.ct_words.specs.Words.{signed};
ghost use Rattle.gate_form.specs.declared.wire.Gate.{Gate};
ghost use Rattle.gate_form.specs.Net.{bit, AreIn};
ghost use Rattle.gate_form.specs.Run.{IsRun, Grows};
ghost use Rattle.bit_arith.specs.Number.{word, IsWord};

use crate::adder::subtract;
use crate::bits::xor;
use crate::limits::WORD_BITS;
use crate::words::{Word, with_last};
use gate_form::{Gates, TRUE, Wire};
use std::alloc::{AllocError, Global};

/// Whether two words are equal.
pub fn equal(gates: &mut Gates, a: &[Wire], b: &[Wire]) -> Result<Wire, AllocError>
    requires width { length b.now ≡ length a.now }
    requires left { AreIn gates.old a.now }
    requires right { AreIn gates.old b.now }
    ensures value { IfOk result (λ w. (v : ℕ → Bool) → IsRun v gates.new → bit v w ≡ (word v a.now == word v b.now)) }
    ensures inside { IfOk result (λ w. w.gate < length gates.new) }
    ensures grows { OnOk result (Grows gates.old gates.new (4 * length a.now)) }
{
    gates.net_law();
    let mut same = TRUE;
    for i in 0..a.len() {
        let other = xor(gates, a[i], b[i])?;
        same = gates.and(same, Gates::not(other))?;
    }
    Ok(same)
}

/// Whether one word is below another.
pub fn less(alloc: Global, gates: &mut Gates, a: &[Wire], b: &[Wire]) -> Result<Wire, AllocError>
    requires width { length b.now ≡ length a.now }
    requires left { AreIn gates.old a.now }
    requires right { AreIn gates.old b.now }
    ensures value { IfOk result (λ w. (v : ℕ → Bool) → IsRun v gates.new → bit v w ≡ nat_lt (word v a.now) (word v b.now)) }
    ensures inside { IfOk result (λ w. w.gate < length gates.new) }
    ensures grows { OnOk result (Grows gates.old gates.new (9 * length a.now)) }
{
    let difference = subtract(alloc, gates, a, b)?;
    Ok(Gates::not(difference[a.len()]))
}

// A word with its highest bit negated: signed words are ordered as these are.
fn turned(alloc: Global, a: &[Wire]) -> Result<Word, AllocError>
    requires width { length a.now ≡ WORD_BITS }
    ensures { IfOk result (λ r. (gates : List Gate) → AreIn gates a.now → IsWord gates r.items WORD_BITS (λ v. (word v a.now + 2 ^ 31) % 2 ^ 32)) }
{
    let out = with_last(alloc, &a[..WORD_BITS - 1], Gates::not(a[WORD_BITS - 1]))?;
    Ok(out)
}

/// Whether one word is below another as two's complement.
pub fn less_signed(
    alloc: Global,
    gates: &mut Gates,
    a: &[Wire],
    b: &[Wire],
) -> Result<Wire, AllocError>
    requires left_width { length a.now ≡ WORD_BITS }
    requires right_width { length b.now ≡ WORD_BITS }
    requires left { AreIn gates.old a.now }
    requires right { AreIn gates.old b.now }
    ensures value { IfOk result (λ w. (v : ℕ → Bool) → IsRun v gates.new → bit v w ≡ int_lt (signed (word v a.now)) (signed (word v b.now))) }
    ensures inside { IfOk result (λ w. w.gate < length gates.new) }
    ensures grows { OnOk result (Grows gates.old gates.new (9 * WORD_BITS)) }
{
    let left = turned(alloc, a)?;
    let right = turned(alloc, b)?;
    let below = less(alloc, gates, &left, &right)?;
    Ok(below)
}
