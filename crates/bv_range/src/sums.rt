//! Ranges of sums, differences and products.

ghost use Rattle.std.specs.Prelude.{◌≡◌, ℕ, ◌+◌, ◌-◌, ◌%◌, ◌^◌, ◌<◌, ◌≤◌};
ghost use Rattle.ct_words.specs.Words.{alu_value};
ghost use Rattle.ct_words.specs.declared.alu_op.AluOp.TheVariants.{Add, Sub, Mul};
ghost use Rattle.bv_range.specs.Fixed.{alu_fixed};
ghost use Rattle.bv_range.specs.Known.{HasBits};
ghost use Rattle.bv_range.specs.Rules.{IsWordRule};

use crate::bits::Bits;
use crate::ends::{WORDS, wrapped};
use crate::range::Range;
use crate::settling::settled;
use bv_expr::WORD;

// How many low bits of a number are known.
fn known_low(a: Range) -> u32
    ensures place { result ≤ 32 }
    ensures same { (x : ℕ) → HasBits a.zeros a.ones x → x % 2 ^ result ≡ a.ones % 2 ^ result }
{
    (a.zeros | a.ones).trailing_ones()
}

// How many low bits of a number are known to be 0.
fn zero_low(a: Range) -> u32
    ensures place { result ≤ 32 }
    ensures none { (x : ℕ) → HasBits a.zeros a.ones x → x % 2 ^ result ≡ 0 }
{
    a.zeros.trailing_ones()
}

// The low bits of a word.
fn low_bits(place: u32, word: u32) -> Bits
    requires { place ≤ 32 }
    ensures ones { result.ones ≡ word % 2 ^ place }
    ensures zeros { result.zeros ≡ 2 ^ place - 1 - word % 2 ^ place }
{
    let size = 1u64 << place;
    let ones = u64::from(word) % size;
    Bits {
        zeros: (size - 1 - ones) as u32,
        ones: ones as u32,
    }
}

/// An interval of sums that doesn't pass 2^32 is kept, and so are the low bits of the sum where
/// those of both sides are known.
pub fn range_of_add(a: Range, b: Range) -> Range
    ensures { IsWordRule (alu_value Add) (alu_fixed Add) a b result }
{
    let ends = wrapped(
        u64::from(a.least) + u64::from(b.least),
        u64::from(a.most) + u64::from(b.most),
    );
    let place = known_low(a).min(known_low(b));
    let bits = low_bits(place, a.ones.wrapping_add(b.ones));
    settled(WORD, bits, ends.least, ends.most)
}

pub fn range_of_sub(a: Range, b: Range) -> Range
    ensures { IsWordRule (alu_value Sub) (alu_fixed Sub) a b result }
{
    let ends = wrapped(
        u64::from(a.least) + (WORDS - u64::from(b.most)),
        u64::from(a.most) + (WORDS - u64::from(b.least)),
    );
    let place = known_low(a).min(known_low(b));
    let bits = low_bits(place, a.ones.wrapping_sub(b.ones));
    settled(WORD, bits, ends.least, ends.most)
}

/// The product has the zeros at its right that both sides have together.
pub fn range_of_mul(a: Range, b: Range) -> Range
    ensures { IsWordRule (alu_value Mul) (alu_fixed Mul) a b result }
{
    let ends = wrapped(
        u64::from(a.least) * u64::from(b.least),
        u64::from(a.most) * u64::from(b.most),
    );
    let place = (zero_low(a) + zero_low(b)).min(32);
    settled(WORD, low_bits(place, 0), ends.least, ends.most)
}
