//! The gates of input bytes.

ghost use Rattle.std.specs.Prelude.{ℕ, List, Option, ◌≡◌, ◌+◌, ◌*◌, ◌<◌, ◌≤◌, ◌++◌, ◌∷◌, [], length, IfOk, OnOk, nat_eq};
ghost use Rattle.std.specs.HashMap.{get};
ghost use Rattle.gate_form.specs.Net.{input_count};
ghost use Rattle.gate_form.specs.Run.{Keeps};
ghost use Rattle.bit_blast.specs.Bytes.{IsByteWord};

use bit_arith::Word;
use gate_form::Gates;
use std::alloc::{AllocError, Global};

/// How many bits a byte has.
pub const BYTE_BITS: usize = 8;

/// The word of a variable that has none yet: eight new inputs.
pub fn new_byte(
    alloc: Global,
    gates: &mut Gates,
    vars: &mut Vec<usize>,
    variable: usize,
) -> Result<Word, AllocError>
    requires { input_count gates.old ≡ 8 * length vars.old.items }
    ensures vars { OnOk result (vars.new.items ≡ vars.old.items ++ variable ∷ []) }
    ensures word { IfOk result (λ r. IsByteWord gates.new vars.new.items variable r.items) }
    ensures inputs { OnOk result (input_count gates.new ≡ 8 * length vars.new.items) }
    ensures kept { OnOk result (Keeps gates.old gates.new) }
    ensures few { OnOk result (length gates.new ≤ length gates.old + BYTE_BITS) }
{
    let mut word = Vec::new(alloc);
    for _b in 0..BYTE_BITS {
        word.push(gates.input()?)?;
    }
    vars.push(variable)?;
    Ok(word)
}
