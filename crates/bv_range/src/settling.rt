//! Bits and ends that are put together.

ghost use Rattle.std.specs.Prelude.{◌≡◌, ◌+◌, ◌-◌, ◌/◌, ◌^◌, ◌<◌, ◌≤◌};
ghost use Rattle.bv_expr.specs.Typing.{IsWidth};
ghost use Rattle.bv_range.specs.Rules.{IsSettled};

use crate::bits::Bits;
use crate::range::Range;

// The greatest number of a width.
pub fn greatest(width: u32) -> u32
    requires { IsWidth width }
    ensures { result + 1 ≡ 2 ^ width }
{
    match width {
        1 => 1,
        8 => 0xff,
        _ => u32::MAX,
    }
}

// A place from which on all numbers from least to most have the same bits.
fn first_shared(least: u32, most: u32) -> u32
    ensures place { result ≤ 32 }
    ensures shared { least / 2 ^ result ≡ most / 2 ^ result }
{
    let place = 32 - (least ^ most).leading_zeros();
    if place < 32 && least >> place == most >> place {
        place
    } else {
        32
    }
}

// The bits of a word from a place on.
fn ones_from(place: u32) -> u32
    requires { place ≤ 32 }
    ensures { result ≡ 2 ^ 32 - 2 ^ place }
{
    ((1u64 << 32) - (1u64 << place)) as u32
}

/// The range of the numbers of a width that have these bits and lie from least to most. The bits
/// that all of these numbers share are known then, and the ends are no wider than the bits.
pub fn settled(width: u32, bits: Bits, least: u32, most: u32) -> Range
    requires width { IsWidth width }
    requires zeros { bits.zeros < 2 ^ width }
    ensures { IsSettled width bits.zeros bits.ones least most result }
{
    let mask = greatest(width);
    let place = first_shared(least, most);
    let high = ones_from(place);
    let zeros = bits.zeros | (!least & high & mask);
    let ones = bits.ones | (least & high);
    Range {
        zeros,
        ones,
        least: least.max(ones),
        most: most.min(mask - zeros),
    }
}

/// The range of a single number.
pub fn constant_range(width: u32, value: u32) -> Range
    requires width { IsWidth width }
    requires fits { value < 2 ^ width }
    ensures { IsSettled width (2 ^ width - 1 - value) value value value result }
{
    let bits = Bits {
        zeros: greatest(width) - value,
        ones: value,
    };
    settled(width, bits, value, value)
}
