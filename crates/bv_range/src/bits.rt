//! Bits that are known, through operations on bits.

ghost use Rattle.std.specs.Prelude.{◌≡◌, ℕ, ◌+◌, ◌-◌, ◌*◌, ◌/◌, ◌%◌, ◌^◌, ◌<◌, bit_and, bit_or, bit_xor};
ghost use Rattle.bv_expr.specs.Nodes.{joined_bytes, byte_at};
ghost use Rattle.bv_range.specs.Known.{HasBits};
ghost use Rattle.bv_range.specs.Fixed.{Fixed, HoldsBits, fixed_up, fixed_down};

use crate::range::Range;

/// The bits of a number that are 0, and those that are 1.
#[derive(Clone, Copy)]
pub struct Bits {
    pub zeros: u32,
    pub ones: u32,
}

// Nothing is known.
pub const NONE: Bits = Bits { zeros: 0, ones: 0 };

pub fn and_bits(a: Range, b: Range) -> Bits
    ensures zeros { result.zeros ≡ bit_or a.zeros b.zeros }
    ensures ones { result.ones ≡ bit_and a.ones b.ones }
{
    Bits {
        zeros: a.zeros | b.zeros,
        ones: a.ones & b.ones,
    }
}

pub fn or_bits(a: Range, b: Range) -> Bits
    ensures zeros { result.zeros ≡ bit_and a.zeros b.zeros }
    ensures ones { result.ones ≡ bit_or a.ones b.ones }
{
    Bits {
        zeros: a.zeros & b.zeros,
        ones: a.ones | b.ones,
    }
}

pub fn xor_bits(a: Range, b: Range) -> Bits
    ensures zeros { result.zeros ≡ bit_or (bit_and a.zeros b.zeros) (bit_and a.ones b.ones) }
    ensures ones { result.ones ≡ bit_or (bit_and a.zeros b.ones) (bit_and a.ones b.zeros) }
{
    Bits {
        zeros: (a.zeros & b.zeros) | (a.ones & b.ones),
        ones: (a.zeros & b.ones) | (a.ones & b.zeros),
    }
}

// The bits of a word that is shifted up, with zeros from the right.
pub fn up_bits(a: Range, amount: u32) -> Bits
    requires { amount < 32 }
    ensures zeros { result.zeros ≡ a.zeros % 2 ^ (32 - amount) * 2 ^ amount + (2 ^ amount - 1) }
    ensures ones { result.ones ≡ a.ones % 2 ^ (32 - amount) * 2 ^ amount }
{
    Bits {
        zeros: a.zeros.wrapping_shl(amount) + ((1u32 << amount) - 1),
        ones: a.ones.wrapping_shl(amount),
    }
}

// The bits of a word that is shifted down, with zeros from the left.
pub fn down_bits(a: Range, amount: u32) -> Bits
    requires { amount < 32 }
    ensures zeros { result.zeros ≡ (2 ^ amount - 1) * 2 ^ (32 - amount) + a.zeros / 2 ^ amount }
    ensures ones { result.ones ≡ a.ones / 2 ^ amount }
{
    let filled = ((1u64 << amount) - 1) << (32 - amount);
    Bits {
        zeros: (filled + u64::from(a.zeros >> amount)) as u32,
        ones: a.ones >> amount,
    }
}
