//! What the program says on standard error.

ghost use Rattle.std.specs.Prelude.{◌≡◌, None};

use crate::finished::Finished;
use crate::refusal::Refusal;
use ct_lines::usage_text;
use ct_outside::{Sink, write_all};
use std::alloc::Global;
use std::fmt::{self, Write};

/// A sink as something to print to.
#[derive(Drop)]
pub struct Printer<'a, S: Sink> {
    pub sink: &'a mut S,
}

impl<S: Sink> Write for Printer<'_, S> {
    fn write_str(&mut self, text: &str) -> fmt::Result {
        match write_all(self.sink, text.as_bytes()) {
            Ok(()) => Ok(()),
            Err(_) => Err(fmt::Error),
        }
    }
}

/// Prints the refusal's line, and after refused words how the program is called, unless there is no
/// memory for that. A sink that fails is told no more.
pub fn tell<E: Sink>(alloc: Global, finished: &Finished, errors: &mut E)
    ensures nothing { finished.now.refusal ≡ None → E.written errors.new ≡ E.written errors.old }
{
    let Some(refusal) = finished.refusal else {
        return;
    };
    let mut printer = Printer { sink: errors };
    if writeln!(printer, "ctrel: {refusal}").is_err() || refusal != Refusal::Words {
        return;
    }
    if let Ok(usage) = usage_text(alloc) {
        let _ = printer.write_str(usage.as_str());
    }
}
