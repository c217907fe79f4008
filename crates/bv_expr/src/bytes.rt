//! Words and their bytes, and choices between words.

ghost use Rattle.std.specs.Prelude.{◌≡◌, ◌<◌, ◌^◌, ◌==◌, if◌then◌else◌};
ghost use Rattle.bv_expr.specs.Nodes.{joined_bytes, byte_at};

// Four bytes as a word, the least byte first.
pub fn joined(b0: u32, b1: u32, b2: u32, b3: u32) -> u32
    requires byte0 { b0 < 2 ^ 8 }
    requires byte1 { b1 < 2 ^ 8 }
    requires byte2 { b2 < 2 ^ 8 }
    requires byte3 { b3 < 2 ^ 8 }
    ensures { result ≡ joined_bytes b0 b1 b2 b3 }
{
    b0 + 0x100 * b1 + 0x1_0000 * b2 + 0x100_0000 * b3
}

// A byte of a word, by its place from 0, the least byte, to 3.
pub fn byte_of(word: u32, index: u32) -> u32
    requires { index < 4 }
    ensures { result ≡ byte_at word index }
{
    (word >> (8 * index)) % 0x100
}

// The one side where a bit is 1, and the other where it is 0.
pub fn chosen(bit: u32, yes: u32, no: u32) -> u32
    ensures { result ≡ (if bit == 0 then no else yes) }
{
    if bit == 0 { no } else { yes }
}
