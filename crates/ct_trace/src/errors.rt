//! What the program says on standard error.

ghost use Rattle.std.specs.Prelude.{◌≡◌, None};

use crate::finished::Finished;
use crate::usage::USAGE;
use ct_main::{Printer, Refusal};
use ct_outside::Sink;
use std::fmt::Write;

/// Prints the refusal's line, and after refused words how the program is called. A sink that fails
/// is told no more.
pub fn tell<E: Sink>(finished: &Finished, errors: &mut E)
    ensures nothing { finished.now.refusal ≡ None → E.written errors.new ≡ E.written errors.old }
{
    let Some(refusal) = finished.refusal else {
        return;
    };
    let mut printer = Printer { sink: errors };
    if writeln!(printer, "ctrace: {refusal}").is_err() || refusal != Refusal::Words {
        return;
    }
    let _ = printer.write_str(USAGE);
}
