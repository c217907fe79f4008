//! Products by rows: one for each bit of the first factor.

ghost use Rattle.std.specs.Prelude.{◌≡◌, ℕ, ◌+◌, ◌*◌, ◌<◌, length, IfOk, OnOk};
ghost use Rattle.ct_words.specs.Words.{flag};
ghost use Rattle.gate_form.specs.Net.{bit, AreIn};
ghost use Rattle.gate_form.specs.Run.{Grows};
ghost use Rattle.bit_arith.specs.Number.{word, IsWord};

use crate::adder::add;
use crate::words::{Word, pick_word, zeros};
use gate_form::{FALSE, Gates, Wire};
use std::alloc::{AllocError, Global};

// The sum of a word and, where a bit is set, of another: one bit wider.
fn row(
    alloc: Global,
    gates: &mut Gates,
    when: Wire,
    b: &[Wire],
    high: &[Wire],
) -> Result<Word, AllocError>
    requires when { when.gate < length gates.old }
    requires width { length high.now ≡ length b.now }
    requires right { AreIn gates.old b.now }
    requires high { AreIn gates.old high.now }
    ensures value { IfOk result (λ r. IsWord gates.new r.items (length b.now + 1) (λ v. word v high.now + flag (bit v when) * word v b.now)) }
    ensures grows { OnOk result (Grows gates.old gates.new (12 * length b.now)) }
{
    gates.net_law();
    let nothing = zeros(alloc, b.len())?;
    let masked = pick_word(alloc, gates, when, b, &nothing)?;
    let sum = add(alloc, gates, high, &masked, FALSE)?;
    Ok(sum)
}

/// The product of two words, as wide as both together.
pub fn multiply(
    alloc: Global,
    gates: &mut Gates,
    a: &[Wire],
    b: &[Wire],
) -> Result<Word, AllocError>
    requires left { AreIn gates.old a.now }
    requires right { AreIn gates.old b.now }
    ensures value { IfOk result (λ r. IsWord gates.new r.items (length a.now + length b.now) (λ v. word v a.now * word v b.now)) }
    ensures grows { OnOk result (Grows gates.old gates.new (12 * length b.now * length a.now)) }
{
    gates.net_law();
    let mut all = zeros(alloc, b.len())?;
    for i in 0..a.len() {
        let sum = row(alloc, gates, a[i], b, &all[i..])?;
        all.truncate(i);
        all.extend_from_slice(&sum)?;
    }
    Ok(all)
}
