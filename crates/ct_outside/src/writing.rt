//! The call that writes a text whole.

ghost use Rattle.std.specs.Prelude.{◌≡◌, ◌<◌, ◌≤◌, [], length, take, OnOk, OnErr, IfErr};
ghost use Rattle.ct_outside.specs.Count.{Rose};
ghost use Rattle.ct_outside.specs.Told.{told_append};

use crate::{Failed, Sink};

/// A text wasn't written whole: its first `taken` bytes were, and no others.
#[derive(Clone, Copy, Debug, PartialEq, Eq)]
pub struct WriteEnd {
    /// How many bytes were written.
    pub taken: usize,
}

/// Writes all bytes of the text, in order.
pub fn write_all<S: Sink>(sink: &mut S, text: &[u8]) -> Result<(), WriteEnd>
    ensures whole { OnOk result
        (S.written sink.new ≡ told_append (S.written sink.old) text.now) }
    ensures front { IfErr result (λ end.
        S.written sink.new ≡ told_append (S.written sink.old) (take end.taken text.now)) }
    ensures short { IfErr result (λ end. end.taken < length text.now) }
    ensures cause { OnErr result (Rose (S.faults sink.old) (S.faults sink.new)) }
    ensures unsure { OnErr result (S.sure sink.old < length text.now) }
    ensures empty { text.now ≡ [] → sink.new ≡ sink.old }
    ensures counts { S.faults sink.old ≤ S.faults sink.new }
{
    let mut taken = 0;
    while taken < text.len() {
        match sink.write(&text[taken..]) {
            Ok(count) => taken += count,
            Err(Failed) => return Err(WriteEnd { taken }),
        }
    }
    Ok(())
}
