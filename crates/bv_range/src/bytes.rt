//! Ranges of words and their bytes.

ghost use Rattle.std.specs.Prelude.{◌≡◌, ◌^◌, ◌<◌};
ghost use Rattle.bv_expr.specs.Nodes.{joined_bytes, byte_at};
ghost use Rattle.bv_range.specs.Known.{IsProper};
ghost use Rattle.bv_range.specs.Rules.{IsJoinRule, IsByteRule};

use crate::bits::Bits;
use crate::range::Range;
use crate::settling::settled;
use bv_expr::{BYTE, WORD};

// Four bytes as a word, the least byte first.
fn joined(b0: u32, b1: u32, b2: u32, b3: u32) -> u32
    requires byte0 { b0 < 2 ^ 8 }
    requires byte1 { b1 < 2 ^ 8 }
    requires byte2 { b2 < 2 ^ 8 }
    requires byte3 { b3 < 2 ^ 8 }
    ensures { result ≡ joined_bytes b0 b1 b2 b3 }
{
    b0 + 0x100 * b1 + 0x1_0000 * b2 + 0x100_0000 * b3
}

fn byte_of(word: u32, index: u32) -> u32
    requires { index < 4 }
    ensures value { result ≡ byte_at word index }
    ensures small { result < 2 ^ 8 }
{
    (word >> (8 * index)) % 0x100
}

/// The bits and the ends of a word are those of its bytes.
pub fn range_of_join(b0: Range, b1: Range, b2: Range, b3: Range) -> Range
    requires byte0 { IsProper 8 b0 }
    requires byte1 { IsProper 8 b1 }
    requires byte2 { IsProper 8 b2 }
    requires byte3 { IsProper 8 b3 }
    ensures { IsJoinRule b0 b1 b2 b3 result }
{
    let bits = Bits {
        zeros: joined(b0.zeros, b1.zeros, b2.zeros, b3.zeros),
        ones: joined(b0.ones, b1.ones, b2.ones, b3.ones),
    };
    let least = joined(b0.least, b1.least, b2.least, b3.least);
    let most = joined(b0.most, b1.most, b2.most, b3.most);
    settled(WORD, bits, least, most)
}

/// The ends of a byte are those of the word where the bytes above are the same in all of its
/// numbers.
pub fn range_of_byte(a: Range, index: u32) -> Range
    requires { index < 4 }
    ensures { IsByteRule index a result }
{
    let bits = Bits {
        zeros: byte_of(a.zeros, index),
        ones: byte_of(a.ones, index),
    };
    if (a.least >> (8 * index)) / 0x100 == (a.most >> (8 * index)) / 0x100 {
        settled(BYTE, bits, byte_of(a.least, index), byte_of(a.most, index))
    } else {
        settled(BYTE, bits, 0, 0xff)
    }
}
