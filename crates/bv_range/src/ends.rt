//! Ends of intervals.

ghost use Rattle.std.specs.Prelude.{ℕ, ◌%◌, ◌^◌, ◌≤◌};

/// The number of words.
pub const WORDS: u64 = 1 << 32;

/// The least and the most of some words.
#[derive(Clone, Copy)]
pub struct Ends {
    pub least: u32,
    pub most: u32,
}

/// The ends of the numbers from least to most, modulo 2^32: all words where they pass a multiple
/// of 2^32.
pub fn wrapped(least: u64, most: u64) -> Ends
    ensures { (n : ℕ) → least ≤ n → n ≤ most → (result.least ≤ n % 2 ^ 32) × (n % 2 ^ 32 ≤ result.most) }
{
    if least / WORDS == most / WORDS {
        Ends {
            least: (least % WORDS) as u32,
            most: (most % WORDS) as u32,
        }
    } else {
        Ends {
            least: 0,
            most: u32::MAX,
        }
    }
}
