//! The text on the output.

ghost use Rattle.std.specs.Prelude.{None, Some, OnOk, IfErr};
ghost use Rattle.ct_main.specs.Outside.{wrote_of};
ghost use Rattle.ct_main.specs.Tasks.{WroteMade};

use crate::refusal::Refusal;
use ct_outside::{Sink, write_all};
use ct_rows::Text;
use std::alloc::AllocError;

/// Writes a text that was made, whole or a front of it.
pub fn write_made<S: Sink>(text: Result<Text, AllocError>, out: &mut S) -> Result<(), Refusal>
    ensures whole { OnOk result
        (WroteMade (wrote_of S.written S.sure S.faults out.old out.new) text None) }
    ensures failed { IfErr result (λ refusal.
        WroteMade (wrote_of S.written S.sure S.faults out.old out.new) text (Some refusal)) }
{
    let text = text?;
    write_all(out, text.as_str().as_bytes())?;
    Ok(())
}
