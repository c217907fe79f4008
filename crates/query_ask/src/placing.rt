//! Values from bytes.
ghost use Rattle.std.specs.Prelude.{◌≡◌, ℕ, ◌+◌, ◌*◌, ◌<◌, ◌≤◌, ◌==◌, if◌then◌else◌, slice_index, slice_index_or, length, false, IfOk};
ghost use Rattle.ct_words.specs.Words.{flag};
ghost use Rattle.bit_blast.specs.Spelling.{first_byte};
ghost use Rattle.query_ask.specs.Placing.{placed, byte_of_number};

use bv_expr::Values;
use ct_rows::Row;
use std::alloc::{AllocError, Global};

/// Values for the variables below `count`: a byte for each of `vars`, and 0 for the others.
pub(crate) fn place(
    alloc: Global,
    count: usize,
    vars: &[usize],
    bytes: &[u8],
) -> Result<Values, AllocError>
    requires { length vars.now ≡ length bytes.now }
    ensures count { IfOk result (λ values. length values.0 ≡ count) }
    ensures placed { IfOk result (λ values. (k : ℕ) → k < count → slice_index values.0 k ≡ placed (slice_index bytes.now) vars.now k) }
{
    let mut values = vec![in alloc; 0u8; count]?;
    let mut at = vars.len();
    'back: while at > 0 {
        at -= 1;
        put(&mut values, vars[at], bytes[at]);
    }
    Ok(Values(Row::from_vec(values)))
}

// Sets the byte of a variable, if there is room for one.
fn put(values: &mut Vec<u8>, variable: usize, byte: u8)
    ensures length { length values.new.items ≡ length values.old.items }
    ensures bytes { (k : ℕ) → k < length values.old.items → slice_index values.new.items k ≡ (if k == variable then byte else slice_index values.old.items k) }
{
    if variable < values.len() {
        values[variable] = byte;
    }
}

/// The bytes of bits, the lowest bit first.
pub(crate) fn bytes_of_bits(
    alloc: Global,
    bits: &[bool],
    count: usize,
) -> Result<Vec<u8>, AllocError>
    requires { 8 * count ≤ length bits.now }
    ensures count { IfOk result (λ bytes. length bytes.items ≡ count) }
    ensures bytes { IfOk result (λ bytes. (i : ℕ) → i < count → slice_index bytes.items i ≡ first_byte (λ n. slice_index_or bits.now (8 * i + n) false)) }
{
    let mut bytes = Vec::new(alloc);
    for at in 0..count {
        bytes.push(byte_of_bits(bits, 8 * at))?;
    }
    Ok(bytes)
}

// The byte of eight bits.
fn byte_of_bits(bits: &[bool], at: usize) -> u8
    requires { at + 8 ≤ length bits.now }
    ensures { result ≡ first_byte (λ n. slice_index_or bits.now (at + n) false) }
{
    let low = bit(bits, at) + 2 * bit(bits, at + 1) + 4 * bit(bits, at + 2) + 8 * bit(bits, at + 3);
    let high = bit(bits, at + 4)
        + 2 * bit(bits, at + 5)
        + 4 * bit(bits, at + 6)
        + 8 * bit(bits, at + 7);
    low + 16 * high
}

fn bit(bits: &[bool], at: usize) -> u8
    requires { at < length bits.now }
    ensures value { result ≡ flag (slice_index_or bits.now at false) }
    ensures most { result ≤ 1 }
{
    u8::from(bits[at])
}

/// The bytes of a number, the least one first.
pub(crate) fn bytes_of_number(
    alloc: Global,
    number: u64,
    count: usize,
) -> Result<Vec<u8>, AllocError>
    requires { count ≤ 8 }
    ensures count { IfOk result (λ bytes. length bytes.items ≡ count) }
    ensures bytes { IfOk result (λ bytes. (i : ℕ) → i < count → slice_index bytes.items i ≡ byte_of_number number i) }
{
    let mut bytes = Vec::new(alloc);
    for at in 0..count {
        bytes.push(byte_of_number(number, at as u32))?;
    }
    Ok(bytes)
}

fn byte_of_number(number: u64, at: u32) -> u8
    requires { at < 8 }
    ensures { result ≡ byte_of_number number at }
{
    ((number >> (8 * at)) % 0x100) as u8
}
