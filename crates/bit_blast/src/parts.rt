//! Words made of parts, and constants. They take no gate.

ghost use Rattle.std.specs.Prelude.{ℕ, Bool, true, List, ◌≡◌, ◌+◌, ◌*◌, ◌^◌, ◌<◌, ◌≤◌, [], ◌∷◌, ◌++◌, length, take, drop, IfOk};
ghost use Rattle.gate_form.specs.declared.wire.Gate.{Gate};
ghost use Rattle.gate_form.specs.Net.{bit};
ghost use Rattle.bit_arith.specs.Number.{IsWord};

use bit_arith::Word;
use gate_form::{FALSE, TRUE, Wire};
use std::alloc::{AllocError, Global};

/// A number below 2^width.
pub fn constant(alloc: Global, width: u32, value: u32) -> Result<Word, AllocError>
    requires { value < 2 ^ width }
    ensures { IfOk result (λ r. (gates : List Gate) → 0 < length gates → IsWord gates r.items width (λ _. value)) }
{
    let mut out = Vec::new(alloc);
    let mut rest = value;
    for _i in 0..width {
        out.push(fixed(rest % 2 == 1))?;
        rest /= 2;
    }
    Ok(out)
}

// The wire of a bit that is known.
fn fixed(on: bool) -> Wire
    ensures value { (v : ℕ → Bool) → v 0 ≡ true → bit v result ≡ on }
    ensures gate { result.gate ≡ 0 }
{
    if on { TRUE } else { FALSE }
}

/// A word of one bit.
pub fn one(alloc: Global, w: Wire) -> Result<Word, AllocError>
    ensures { IfOk result (λ r. r.items ≡ w ∷ []) }
{
    let mut out = Vec::new(alloc);
    out.push(w)?;
    Ok(out)
}

/// Four words one after another, the lowest first.
pub fn joined(
    alloc: Global,
    b0: &[Wire],
    b1: &[Wire],
    b2: &[Wire],
    b3: &[Wire],
) -> Result<Word, AllocError>
    ensures { IfOk result (λ r. r.items ≡ b0.now ++ b1.now ++ b2.now ++ b3.now) }
{
    let mut out = Vec::from_slice(alloc, b0)?;
    out.extend_from_slice(b1)?;
    out.extend_from_slice(b2)?;
    out.extend_from_slice(b3)?;
    Ok(out)
}

/// A byte of a word, by its place.
pub fn byte_of(alloc: Global, word: &[Wire], index: u32) -> Result<Word, AllocError>
    requires { 8 * index + 8 ≤ length word.now }
    ensures { IfOk result (λ r. r.items ≡ take 8 (drop (8 * index) word.now)) }
{
    let start = 8 * index as usize;
    Vec::from_slice(alloc, &word[start..start + 8])
}
