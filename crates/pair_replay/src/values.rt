//! Values of a line that is read.
ghost use Rattle.std.specs.Prelude.{◌≡◌, ◌+◌, ◌*◌, ◌^◌, ◌<◌, ◌++◌, ℕ, List, length, IfOk, IfSome, IfNone, IsSomeAnd};
ghost use Rattle.hex.specs.Hex.{encode_lower};
ghost use Rattle.pair_replay.specs.PairText.{AreValues, Values, BeginsWith, values_line};

use crate::writing::push_values_line;
use std::alloc::{AllocError, Global};

/// The values of so many pairs of digits, from a place on; none where there are other digits.
fn values_at(
    alloc: Global,
    bytes: &[u8],
    start: usize,
    count: usize,
) -> Result<Option<Vec<u8>>, AllocError>
    requires { start + 2 * count < 2 ^ 32 }
    ensures values { IfOk result (λ found. IfSome found (λ values. AreValues count values.items)) }
    ensures only { IfOk result (λ found. (front values rest : List ℕ) → length front ≡ start → AreValues count values
        → bytes.now ≡ front ++ encode_lower values ++ rest → IsSomeAnd found (λ v. v.items ≡ values)) }
{
    let end = start + 2 * count;
    if bytes.len() < end {
        return Ok(None);
    }
    let mut values = vec![in alloc; 0u8; count]?;
    match hex::decode_to_slice(&bytes[start..end], values.as_mut_slice()) {
        Ok(()) => Ok(Some(values)),
        Err(_) => Ok(None),
    }
}

/// The values of the line with which bytes begin, and what follows it; none where they begin otherwise.
pub(crate) fn read_values<'a>(
    alloc: Global,
    bytes: &'a [u8],
    name: &str,
    count: usize,
) -> Result<Option<(Vec<u8>, &'a [u8])>, AllocError>
    requires { length name.now + 1 + 2 * count < 2 ^ 32 }
    ensures values { IfOk result (λ read. IfSome read (λ p. AreValues count p.0.items)) }
    ensures line { IfOk result (λ read. IfSome read (λ p. bytes.now ≡ values_line name.now p.0.items ++ p.1.now)) }
    ensures none { IfOk result (λ read. IfNone read ((rest : List ℕ) → BeginsWith (Values name.now count) bytes.now rest → ⊥)) }
{
    let Some(values) = values_at(alloc, bytes, name.len() + 1, count)? else {
        return Ok(None);
    };
    let mut line = String::new(alloc);
    push_values_line(&mut line, name, values.as_slice())?;
    match bytes.strip_prefix(line.as_bytes()) {
        Some(rest) => Ok(Some((values, rest))),
        None => Ok(None),
    }
}
