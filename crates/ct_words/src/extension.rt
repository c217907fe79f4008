//! Bytes extended to words.
ghost use Rattle.std.specs.Prelude.{◌≡◌, ◌%◌};
ghost use Rattle.ct_words.specs.Words.{extend_value, low_bits, sign_extended, IsAccessSize};

fn sign_extended_byte(value: u32) -> u32
    ensures { result ≡ sign_extended 8 (low_bits 8 value) }
{
    let low = value % 0x100;
    if low < 0x80 { low } else { low + 0xffff_ff00 }
}

fn sign_extended_half(value: u32) -> u32
    ensures { result ≡ sign_extended 16 (low_bits 16 value) }
{
    let low = value % 0x1_0000;
    if low < 0x8000 { low } else { low + 0xffff_0000 }
}

/// The low `bytes` bytes of a word as a load extends them: with the sign where `signed` is true,
/// and else with zeros (RISC-V unprivileged manual, section 2.6).
#[tactic(auto, unfolding(crate::specs::Words::extend_value))]
pub fn extend(value: u32, bytes: u32, signed: bool) -> u32
    requires { IsAccessSize bytes }
    ensures { result ≡ extend_value value bytes signed }
{
    match (bytes, signed) {
        (1, true) => sign_extended_byte(value),
        (1, false) => value % 0x100,
        (2, true) => sign_extended_half(value),
        (2, false) => value % 0x1_0000,
        _ => value,
    }
}
