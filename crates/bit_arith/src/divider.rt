//! Quotients and remainders by the schoolbook's division, the highest bit first.

ghost use Rattle.std.specs.Prelude.{◌≡◌, ℕ, ◌+◌, ◌*◌, ◌<◌, Bool, length, IfOk, OnOk};
ghost use Rattle.ct_words.specs.Words.{flag};
ghost use Rattle.gate_form.specs.Net.{bit, AreIn};
ghost use Rattle.gate_form.specs.Run.{IsRun, Grows};
ghost use Rattle.bit_arith.specs.Number.{word};
ghost use Rattle.bit_arith.specs.Division.{IsDivided};

use crate::adder::subtract;
use crate::words::{Word, pick_word, with_first, with_last, zeros};
use gate_form::{FALSE, Gates, Wire};
use std::alloc::{AllocError, Global};

// The next bit of the quotient, and what rests.
fn divide_bit(
    alloc: Global,
    gates: &mut Gates,
    next: Wire,
    rest: &[Wire],
    b: &[Wire],
) -> Result<(Wire, Word), AllocError>
    requires next { next.gate < length gates.old }
    requires width { length rest.now ≡ length b.now }
    requires rest { AreIn gates.old rest.now }
    requires right { AreIn gates.old b.now }
    ensures quotient { IfOk result (λ r. r.0.gate < length gates.new) }
    ensures width { IfOk result (λ r. length r.1.items ≡ length b.now) }
    ensures rest { IfOk result (λ r. AreIn gates.new r.1.items) }
    ensures value { IfOk result (λ r. (v : ℕ → Bool) → IsRun v gates.new → word v rest.now < word v b.now → IsDivided (flag (bit v next) + 2 * word v rest.now) (word v b.now) (flag (bit v r.0)) (word v r.1.items)) }
    ensures grows { OnOk result (Grows gates.old gates.new (12 * (length b.now + 1))) }
{
    gates.net_law();
    let wide = with_first(alloc, next, rest)?;
    let divisor = with_last(alloc, b, FALSE)?;
    let width = wide.len();
    let mut difference = subtract(alloc, gates, &wide, &divisor)?;
    let fits = difference[width];
    difference.truncate(width);
    let mut left = pick_word(alloc, gates, fits, &difference, &wide)?;
    left.truncate(b.len());
    Ok((fits, left))
}

/// The quotient and the remainder of two words where the second isn't 0.
pub fn divide(
    alloc: Global,
    gates: &mut Gates,
    a: &[Wire],
    b: &[Wire],
) -> Result<(Word, Word), AllocError>
    requires width { length b.now ≡ length a.now }
    requires left { AreIn gates.old a.now }
    requires right { AreIn gates.old b.now }
    ensures quotient { IfOk result (λ r. AreIn gates.new r.0.items) }
    ensures quotient_width { IfOk result (λ r. length r.0.items ≡ length a.now) }
    ensures rest { IfOk result (λ r. AreIn gates.new r.1.items) }
    ensures rest_width { IfOk result (λ r. length r.1.items ≡ length a.now) }
    ensures value { IfOk result (λ r. (v : ℕ → Bool) → IsRun v gates.new → 0 < word v b.now → IsDivided (word v a.now) (word v b.now) (word v r.0.items) (word v r.1.items)) }
    ensures grows { OnOk result (Grows gates.old gates.new (12 * (length b.now + 1) * length a.now)) }
{
    gates.net_law();
    let mut quotient = Vec::new(alloc);
    let mut rest = zeros(alloc, b.len())?;
    for i in 0..a.len() {
        let (fits, left) = divide_bit(alloc, gates, a[a.len() - 1 - i], &rest, b)?;
        quotient.insert(0, fits)?;
        rest = left;
    }
    Ok((quotient, rest))
}
