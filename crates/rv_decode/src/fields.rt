//! The fields and immediates of a word, by bit ranges.
ghost use Rattle.std.specs.Prelude.{◌≡◌, ◌<◌, ◌≤◌, ◌*◌, ◌+◌, ◌-◌, ◌^◌, nat_lt, if◌then◌else◌};
ghost use Rattle.rv_decode.specs.Fields as fields;

pub fn bits(word: u32, high: u32, low: u32) -> u32
    requires order { low ≤ high }
    requires within { high < 32 }
    requires short { high < low + 31 }
    ensures { result ≡ fields.bits word high low }
{
    (word >> low) % (1 << (high + 1 - low))
}

fn with_sign(value: u32, sign: u32) -> u32
    requires range { value < 2 * sign }
    requires word { 2 * sign < 2 ^ 32 }
    ensures { result ≡ (if nat_lt value sign then value else value + (2 ^ 32 - 2 * sign)) }
{
    if value < sign {
        value
    } else {
        value + (u32::MAX - 2 * sign + 1)
    }
}

pub fn opcode(word: u32) -> u32
    ensures { result ≡ fields.opcode word }
{
    bits(word, 6, 0)
}

pub fn rd(word: u32) -> u32
    ensures { result ≡ fields.rd word }
{
    bits(word, 11, 7)
}

pub fn funct3(word: u32) -> u32
    ensures { result ≡ fields.funct3 word }
{
    bits(word, 14, 12)
}

pub fn rs1(word: u32) -> u32
    ensures { result ≡ fields.rs1 word }
{
    bits(word, 19, 15)
}

pub fn rs2(word: u32) -> u32
    ensures { result ≡ fields.rs2 word }
{
    bits(word, 24, 20)
}

pub fn funct7(word: u32) -> u32
    ensures { result ≡ fields.funct7 word }
{
    bits(word, 31, 25)
}

pub fn i_immediate(word: u32) -> u32
    ensures { result ≡ fields.i_immediate word }
{
    with_sign(bits(word, 31, 20), 1 << 11)
}

pub fn s_immediate(word: u32) -> u32
    ensures { result ≡ fields.s_immediate word }
{
    with_sign(bits(word, 31, 25) * 0x20 + bits(word, 11, 7), 1 << 11)
}

pub fn b_immediate(word: u32) -> u32
    ensures { result ≡ fields.b_immediate word }
{
    let high = bits(word, 31, 31) * 0x1000 + bits(word, 7, 7) * 0x800;
    let low = bits(word, 30, 25) * 0x20 + bits(word, 11, 8) * 2;
    with_sign(high + low, 1 << 12)
}

pub fn u_immediate(word: u32) -> u32
    ensures { result ≡ fields.u_immediate word }
{
    bits(word, 31, 12) * 0x1000
}

pub fn j_immediate(word: u32) -> u32
    ensures { result ≡ fields.j_immediate word }
{
    let high = bits(word, 31, 31) * 0x10_0000 + bits(word, 19, 12) * 0x1000;
    let low = bits(word, 20, 20) * 0x800 + bits(word, 30, 21) * 2;
    with_sign(high + low, 1 << 20)
}
