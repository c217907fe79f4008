//! The six conditions as circuits.

ghost use Rattle.std.specs.Prelude.{◌≡◌, ℕ, ◌<◌, Bool, length, IfOk, OnOk};
ghost use Rattle.ct_words.specs.Words.{test_value};
ghost use Rattle.gate_form.specs.Net.{bit};
ghost use Rattle.gate_form.specs.Run.{IsRun, Grows};
ghost use Rattle.bit_arith.specs.Number.{word};
ghost use Rattle.bit_arith.specs.Operations.{AreWords};

use crate::limits::SUM_GATES;
use crate::order::{equal, less, less_signed};
use ct_words::Cond;
use gate_form::{Gates, Wire};
use std::alloc::{AllocError, Global};

/// The wire that is true exactly where a condition holds of two words, of `WORD_BITS` wires each.
///
/// After an error some gates may have been added.
pub fn compare(
    alloc: Global,
    gates: &mut Gates,
    cond: Cond,
    a: &[Wire],
    b: &[Wire],
) -> Result<Wire, AllocError>
    requires { AreWords gates.old a.now b.now }
    ensures value { IfOk result (λ w. (v : ℕ → Bool) → IsRun v gates.new → bit v w ≡ test_value cond (word v a.now) (word v b.now)) }
    ensures inside { IfOk result (λ w. w.gate < length gates.new) }
    ensures grows { OnOk result (Grows gates.old gates.new SUM_GATES) }
{
    match cond {
        Cond::Eq => {
            let same = equal(gates, a, b)?;
            Ok(same)
        }
        Cond::Ne => {
            let same = equal(gates, a, b)?;
            Ok(Gates::not(same))
        }
        Cond::Lt => {
            let below = less_signed(alloc, gates, a, b)?;
            Ok(below)
        }
        Cond::Ge => {
            let below = less_signed(alloc, gates, a, b)?;
            Ok(Gates::not(below))
        }
        Cond::Ltu => {
            let below = less(alloc, gates, a, b)?;
            Ok(below)
        }
        Cond::Geu => {
            let below = less(alloc, gates, a, b)?;
            Ok(Gates::not(below))
        }
    }
}
