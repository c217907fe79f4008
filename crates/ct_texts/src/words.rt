//! Words and addresses in hexadecimal digits.
ghost use Rattle.std.specs.Prelude.{◌≡◌, ◌++◌};
ghost use Rattle.std.specs.Result.{OnOk};
ghost use Rattle.std.specs.String.{string_bytes};
ghost use Rattle.rv_decode.specs.Text.{hex_digits, address_text};

use std::alloc::AllocError;
use std::fmt::Write;

/// Appends the eight lower-case digits of a word.
pub fn push_word(text: &mut String, word: u32) -> Result<(), AllocError>
    ensures { OnOk result (string_bytes text.new ≡ string_bytes text.old ++ hex_digits 8 word) }
{
    write!(text, "{word:08x}")
}

/// Appends an address: `0x` and its eight lower-case digits.
pub fn push_address(text: &mut String, address: u32) -> Result<(), AllocError>
    ensures { OnOk result (string_bytes text.new ≡ string_bytes text.old ++ address_text address) }
{
    write!(text, "0x{address:08x}")
}
