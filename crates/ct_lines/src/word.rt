//! One word: a number, an address, a name or an entry.

ghost use Rattle.std.specs.Prelude.{◌≡◌, ◌↔◌, ◌<◌, ◌≤◌, ◌^◌, None, Some, IfSome, IfOk};
ghost use Rattle.std.specs.Char.{is_digit};
ghost use Rattle.std.specs.List.{list_all};
ghost use Rattle.std.specs.Option.{option_copied};
ghost use Rattle.ct_lines.specs.Words.{IsWithin, is_numeral, numeral_of, number_of, hexadecimal_of, address_of, entry_name_of, entry_of, name_of};

use crate::words_refusal::WordsRefusal;
use ct_pairs::Entry;
use ct_rows::Text;
use std::alloc::{AllocError, Global};

/// Whether each byte is a digit of the radix.
fn are_digits(bytes: &[u8], radix: u32) -> bool
    requires lower_radix { 2 ≤ radix }
    requires upper_radix { radix ≤ 16 }
    ensures { result ≡ list_all (λ c. is_digit c radix) bytes.now }
{
    bytes.iter().all(|byte| char::from(*byte).is_digit(radix))
}

/// Whether the word is at least one digit of the radix, at most `most` of them, and nothing else.
fn is_numeral(word: &str, radix: u32, most: usize) -> bool
    requires lower_radix { 2 ≤ radix }
    requires upper_radix { radix ≤ 16 }
    ensures { result ≡ is_numeral radix most word.now }
{
    !word.is_empty() && word.len() <= most && are_digits(word.as_bytes(), radix)
}

/// The number that at most `most` digits of the radix write.
fn read_numeral(word: &str, radix: u32, most: usize) -> Option<u64>
    requires lower_radix { 2 ≤ radix }
    requires upper_radix { radix ≤ 16 }
    requires short { most ≤ 10 }
    ensures value { result ≡ numeral_of radix most word.now }
    ensures below { IfSome result (λ value. value < radix ^ most) }
{
    // The parser takes a leading plus, which is no digit.
    if !is_numeral(word, radix, most) {
        return None;
    }
    u64::from_str_radix(word, radix).ok()
}

/// The number of a number word within a range.
pub fn read_number(word: &str, low: u32, high: u32) -> Option<u32>
    ensures value { result ≡ number_of low high word.now }
    ensures within { IfSome result (IsWithin low high) }
{
    let value = read_numeral(word, 10, 10)?;
    if value < u64::from(low) || u64::from(high) < value {
        return None;
    }
    Some(value as u32)
}

/// The number of a hexadecimal word.
fn read_hexadecimal(word: &str) -> Option<u32>
    ensures { result ≡ hexadecimal_of word.now }
{
    let digits = word.strip_prefix("0x")?;
    let value = read_numeral(digits, 16, 8)?;
    Some(value as u32)
}

/// The address of an address word.
fn read_address(word: &str) -> Option<u32>
    ensures { result ≡ address_of word.now }
{
    match read_number(word, 0, u32::MAX) {
        Some(address) => Some(address),
        None => read_hexadecimal(word),
    }
}

/// The name of a name word.
pub fn read_name(word: &str) -> Option<&str>
    ensures { option_copied result ≡ name_of word.now }
{
    if word.is_empty() || word.as_bytes().starts_with(b"-") {
        None
    } else {
        Some(word)
    }
}

/// The name of an entry that is named.
fn read_entry_name(word: &str) -> Option<&str>
    ensures { option_copied result ≡ entry_name_of word.now }
{
    match word.as_bytes() {
        [first, ..] if char::from(*first).is_digit(10) => None,
        _ => read_name(word),
    }
}

/// Where the routine of an entry word begins.
pub fn read_entry(alloc: Global, word: &str) -> Result<Entry, WordsRefusal>
    ensures accepted { IfOk result (λ entry. entry_of word.now ≡ Some entry) }
    ensures refused { (result ≡ Err WordsRefusal.Refused) ↔ (entry_of word.now ≡ None) }
{
    if let Some(address) = read_address(word) {
        return Ok(Entry::Number(address));
    }
    let name = read_entry_name(word).ok_or(WordsRefusal::Refused)?;
    Ok(Entry::Name(kept(alloc, name)?))
}

/// The name in memory of its own.
pub fn kept(alloc: Global, name: &str) -> Result<Text, AllocError>
    ensures { IfOk result (λ text. text ≡ name.now) }
{
    Ok(Text::from_string(String::from_str(alloc, name)?))
}
