//! Whole numbers of a policy.
ghost use Rattle.std.specs.Prelude.{◌≡◌};
ghost use Rattle.ct_policy.specs.Numbers as numbers;

/// Whether a whole number is in a range.
pub(crate) fn is_within(number: i64, low: u32, high: u32) -> bool
    ensures { result ≡ numbers.is_within low high number }
{
    match u32::try_from(number) {
        Ok(word) => low <= word && word <= high,
        Err(_) => false,
    }
}

/// A whole number of 32 bits, and 0 for any other.
pub(crate) fn word_of(number: i64) -> u32
    ensures { result ≡ numbers.word_of number }
{
    match u32::try_from(number) {
        Ok(word) => word,
        Err(_) => 0,
    }
}
