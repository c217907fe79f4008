//! Words made bit by bit.

ghost use Rattle.std.specs.Prelude.{List, ◌≡◌, ℕ, ◌-◌, ◌*◌, ◌^◌, ◌<◌, [], ◌∷◌, ◌++◌, length, IfOk, OnOk, map, if◌then◌else◌};
ghost use Rattle.ct_words.specs.Words.{flag};
ghost use Rattle.gate_form.specs.declared.wire.Gate.{Gate};
ghost use Rattle.gate_form.specs.Net.{bit, negated, AreIn};
ghost use Rattle.gate_form.specs.Run.{Grows};
ghost use Rattle.bit_arith.specs.Bits.{bitwise_value};
ghost use Rattle.bit_arith.specs.Number.{word, IsWord};

use crate::bits::{Bitwise, apply, pick};
use gate_form::{FALSE, Gates, Wire};
use std::alloc::{AllocError, Global};

/// A word as wires, the lowest bit first.
pub type Word = Vec<Wire>;

/// A word of equal bits.
pub fn repeated(alloc: Global, w: Wire, width: usize) -> Result<Word, AllocError>
    ensures { IfOk result (λ r. (gates : List Gate) → w.gate < length gates → IsWord gates r.items width (λ v. flag (bit v w) * (2 ^ width - 1))) }
{
    let mut out = Vec::new(alloc);
    for _i in 0..width {
        out.push(w)?;
    }
    Ok(out)
}

/// A word of zeros.
pub fn zeros(alloc: Global, width: usize) -> Result<Word, AllocError>
    ensures { IfOk result (λ r. (gates : List Gate) → 0 < length gates → IsWord gates r.items width (λ _. 0)) }
{
    let out = repeated(alloc, FALSE, width)?;
    Ok(out)
}

/// A word with one more bit below.
pub fn with_first(alloc: Global, first: Wire, rest: &[Wire]) -> Result<Word, AllocError>
    ensures { IfOk result (λ r. r.items ≡ first ∷ rest.now) }
{
    let mut out = Vec::new(alloc);
    out.push(first)?;
    out.extend_from_slice(rest)?;
    Ok(out)
}

/// A word with one more bit above.
pub fn with_last(alloc: Global, rest: &[Wire], last: Wire) -> Result<Word, AllocError>
    ensures { IfOk result (λ r. r.items ≡ rest.now ++ last ∷ []) }
{
    let mut out = Vec::from_slice(alloc, rest)?;
    out.push(last)?;
    Ok(out)
}

/// A word of one bit, with zeros above it.
pub fn single(alloc: Global, w: Wire, width: usize) -> Result<Word, AllocError>
    requires { 0 < width }
    ensures { IfOk result (λ r. (gates : List Gate) → w.gate < length gates → IsWord gates r.items width (λ v. flag (bit v w))) }
{
    let above = zeros(alloc, width - 1)?;
    let out = with_first(alloc, w, &above)?;
    Ok(out)
}

/// A word with each bit negated. It takes no gate.
pub fn flipped(alloc: Global, a: &[Wire]) -> Result<Word, AllocError>
    ensures { IfOk result (λ r. r.items ≡ map negated a.now) }
{
    a.iter().map(|w| Gates::not(*w)).collect(alloc)
}

/// A function of two words bit by bit.
pub fn bitwise(
    alloc: Global,
    gates: &mut Gates,
    function: Bitwise,
    a: &[Wire],
    b: &[Wire],
) -> Result<Word, AllocError>
    requires width { length b.now ≡ length a.now }
    requires left { AreIn gates.old a.now }
    requires right { AreIn gates.old b.now }
    ensures value { IfOk result (λ r. IsWord gates.new r.items (length a.now) (λ v. bitwise_value function (word v a.now) (word v b.now))) }
    ensures grows { OnOk result (Grows gates.old gates.new (3 * length a.now)) }
{
    let mut out = Vec::new(alloc);
    for i in 0..a.len() {
        let w = apply(gates, function, a[i], b[i])?;
        out.push(w)?;
    }
    Ok(out)
}

/// One word where a bit is set, and another where it isn't.
pub fn pick_word(
    alloc: Global,
    gates: &mut Gates,
    when: Wire,
    yes: &[Wire],
    no: &[Wire],
) -> Result<Word, AllocError>
    requires width { length no.now ≡ length yes.now }
    requires when { when.gate < length gates.old }
    requires yes { AreIn gates.old yes.now }
    requires no { AreIn gates.old no.now }
    ensures value { IfOk result (λ r. IsWord gates.new r.items (length yes.now) (λ v. if bit v when then word v yes.now else word v no.now)) }
    ensures grows { OnOk result (Grows gates.old gates.new (3 * length yes.now)) }
{
    let mut out = Vec::new(alloc);
    for i in 0..yes.len() {
        let w = pick(gates, when, yes[i], no[i])?;
        out.push(w)?;
    }
    Ok(out)
}
