//! Two's complement by sign and magnitude.

ghost use Rattle.std.specs.Prelude.{◌≡◌, ℕ, ◌-◌, ◌*◌, ◌%◌, ◌^◌, ◌<◌, length, IfOk, OnOk, if◌then◌else◌};
ghost use Rattle.gate_form.specs.Net.{bit, AreIn};
ghost use Rattle.gate_form.specs.Run.{Grows};
ghost use Rattle.bit_arith.specs.Number.{word, IsWord};
ghost use Rattle.bit_arith.specs.Signs.{magnitude};

use crate::adder::subtract;
use crate::limits::WORD_BITS;
use crate::words::{Word, pick_word, zeros};
use gate_form::{Gates, Wire};
use std::alloc::{AllocError, Global};

/// A word, or where a bit is set its negative.
pub fn negate_where(
    alloc: Global,
    gates: &mut Gates,
    a: &[Wire],
    when: Wire,
) -> Result<Word, AllocError>
    requires left { AreIn gates.old a.now }
    requires when { when.gate < length gates.old }
    ensures value { IfOk result (λ r. IsWord gates.new r.items (length a.now) (λ v. if bit v when then (2 ^ length a.now - word v a.now) % 2 ^ length a.now else word v a.now)) }
    ensures grows { OnOk result (Grows gates.old gates.new (12 * length a.now)) }
{
    gates.net_law();
    let nothing = zeros(alloc, a.len())?;
    let mut negative = subtract(alloc, gates, &nothing, a)?;
    negative.truncate(a.len());
    let out = pick_word(alloc, gates, when, &negative, a)?;
    Ok(out)
}

/// The distance from 0 of a word as two's complement.
pub fn magnitude(alloc: Global, gates: &mut Gates, a: &[Wire]) -> Result<Word, AllocError>
    requires width { length a.now ≡ WORD_BITS }
    requires left { AreIn gates.old a.now }
    ensures value { IfOk result (λ r. IsWord gates.new r.items WORD_BITS (λ v. magnitude (word v a.now))) }
    ensures grows { OnOk result (Grows gates.old gates.new (12 * WORD_BITS)) }
{
    let out = negate_where(alloc, gates, a, a[WORD_BITS - 1])?;
    Ok(out)
}
