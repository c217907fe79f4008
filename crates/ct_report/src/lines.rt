//! Lines of the report.
ghost use Rattle.std.specs.Prelude.{◌≡◌, ◌++◌, codes, decimal};
ghost use Rattle.std.specs.Result.{OnOk};
ghost use Rattle.std.specs.String.{string_bytes};
ghost use Rattle.ct_texts.specs.Bytes.{bytes_text};
ghost use Rattle.ct_rows.specs.Lines.{line};

use ct_texts::push_bytes;
use std::alloc::AllocError;
use std::fmt::Write;

/// Appends a line of a word and a number.
pub fn push_number_line(text: &mut String, name: &str, number: u128) -> Result<(), AllocError>
    ensures { OnOk result (string_bytes text.new ≡ string_bytes text.old ++ line (name.now ++ codes " " ++ decimal number)) }
{
    writeln!(text, "{name} {number}")
}

/// Appends a line of a word and bytes in hexadecimal digits.
pub fn push_bytes_line(text: &mut String, name: &str, bytes: &[u8]) -> Result<(), AllocError>
    ensures { OnOk result (string_bytes text.new ≡ string_bytes text.old ++ line (name.now ++ codes " " ++ bytes_text bytes.now)) }
{
    write!(text, "{name} ")?;
    push_bytes(text, bytes)?;
    text.push('\n')
}
