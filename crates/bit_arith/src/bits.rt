//! Functions of two and three bits as gates.

ghost use Rattle.std.specs.Prelude.{◌≡◌, ℕ, ◌+◌, ◌*◌, ◌<◌, Bool, not, ◌&&◌, ◌||◌, length, IfOk, OnOk, if◌then◌else◌};
ghost use Rattle.ct_words.specs.Words.{flag};
ghost use Rattle.gate_form.specs.Net.{bit};
ghost use Rattle.gate_form.specs.Run.{IsRun, Grows};
ghost use Rattle.bit_arith.specs.Bits.{differ, bit_value};

use gate_form::{Gates, Wire};
use std::alloc::AllocError;

/// A function of two bits, and so of two words bit by bit.
#[derive(Clone, Copy, Debug)]
pub enum Bitwise {
    And,
    Or,
    Xor,
}

pub fn xor(gates: &mut Gates, a: Wire, b: Wire) -> Result<Wire, AllocError>
    requires left { a.gate < length gates.old }
    requires right { b.gate < length gates.old }
    ensures value { IfOk result (λ w. (v : ℕ → Bool) → IsRun v gates.new → bit v w ≡ differ (bit v a) (bit v b)) }
    ensures inside { IfOk result (λ w. w.gate < length gates.new) }
    ensures grows { OnOk result (Grows gates.old gates.new 3) }
{
    let both = gates.and(a, b)?;
    let neither = gates.and(Gates::not(a), Gates::not(b))?;
    let one = gates.and(Gates::not(both), Gates::not(neither))?;
    Ok(one)
}

pub fn or(gates: &mut Gates, a: Wire, b: Wire) -> Result<Wire, AllocError>
    requires left { a.gate < length gates.old }
    requires right { b.gate < length gates.old }
    ensures value { IfOk result (λ w. (v : ℕ → Bool) → IsRun v gates.new → bit v w ≡ (bit v a || bit v b)) }
    ensures inside { IfOk result (λ w. w.gate < length gates.new) }
    ensures grows { OnOk result (Grows gates.old gates.new 1) }
{
    let neither = gates.and(Gates::not(a), Gates::not(b))?;
    Ok(Gates::not(neither))
}

/// The bit that a function of two bits gives.
pub fn apply(gates: &mut Gates, function: Bitwise, a: Wire, b: Wire) -> Result<Wire, AllocError>
    requires left { a.gate < length gates.old }
    requires right { b.gate < length gates.old }
    ensures value { IfOk result (λ w. (v : ℕ → Bool) → IsRun v gates.new → bit v w ≡ bit_value function (bit v a) (bit v b)) }
    ensures inside { IfOk result (λ w. w.gate < length gates.new) }
    ensures grows { OnOk result (Grows gates.old gates.new 3) }
{
    match function {
        Bitwise::And => gates.and(a, b),
        Bitwise::Or => or(gates, a, b),
        Bitwise::Xor => xor(gates, a, b),
    }
}

/// One bit where another is set, and a third where it isn't.
pub fn pick(gates: &mut Gates, when: Wire, yes: Wire, no: Wire) -> Result<Wire, AllocError>
    requires when { when.gate < length gates.old }
    requires yes { yes.gate < length gates.old }
    requires no { no.gate < length gates.old }
    ensures value { IfOk result (λ w. (v : ℕ → Bool) → IsRun v gates.new → bit v w ≡ (if bit v when then bit v yes else bit v no)) }
    ensures inside { IfOk result (λ w. w.gate < length gates.new) }
    ensures grows { OnOk result (Grows gates.old gates.new 3) }
{
    let taken = gates.and(when, yes)?;
    let left = gates.and(Gates::not(when), no)?;
    let one = or(gates, taken, left)?;
    Ok(one)
}

/// The sum of three bits, and the carry.
pub fn full_add(gates: &mut Gates, a: Wire, b: Wire, c: Wire) -> Result<(Wire, Wire), AllocError>
    requires left { a.gate < length gates.old }
    requires right { b.gate < length gates.old }
    requires carry { c.gate < length gates.old }
    ensures value { IfOk result (λ r. (v : ℕ → Bool) → IsRun v gates.new → flag (bit v r.0) + 2 * flag (bit v r.1) ≡ flag (bit v a) + flag (bit v b) + flag (bit v c)) }
    ensures sum { IfOk result (λ r. r.0.gate < length gates.new) }
    ensures carry { IfOk result (λ r. r.1.gate < length gates.new) }
    ensures grows { OnOk result (Grows gates.old gates.new 9) }
{
    let half = xor(gates, a, b)?;
    let sum = xor(gates, half, c)?;
    let both = gates.and(a, b)?;
    let through = gates.and(half, c)?;
    let carry = or(gates, both, through)?;
    Ok((sum, carry))
}
