//! Bytes in hexadecimal digits.
ghost use Rattle.std.specs.Prelude.{◌≡◌, ◌++◌};
ghost use Rattle.std.specs.Result.{OnOk};
ghost use Rattle.std.specs.String.{string_bytes};
ghost use Rattle.rv_decode.specs.Text.{hex_digits};
ghost use Rattle.ct_texts.specs.Bytes.{bytes_text};

use std::alloc::AllocError;
use std::fmt::Write;

fn push_byte(text: &mut String, byte: u8) -> Result<(), AllocError>
    ensures { OnOk result (string_bytes text.new ≡ string_bytes text.old ++ hex_digits 2 byte) }
{
    write!(text, "{byte:02x}")
}

/// Appends two lower-case digits for each byte, or `-` where there is none.
pub fn push_bytes(text: &mut String, bytes: &[u8]) -> Result<(), AllocError>
    ensures { OnOk result (string_bytes text.new ≡ string_bytes text.old ++ bytes_text bytes.now) }
{
    if bytes.is_empty() {
        return text.push_str("-");
    }
    for byte in bytes {
        push_byte(text, *byte)?;
    }
    Ok(())
}
