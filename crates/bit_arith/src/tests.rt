//! Operations and conditions on worked pairs of words.

ghost use Rattle.std.specs.Prelude.{◌≡◌, ◌≤◌, length, IfOk, OnOk};
ghost use Rattle.gate_form.specs.Net.{AreIn};

use super::*;
use ct_words::{AluOp, Cond};
use gate_form::{Gates, Wire};
use std::alloc::{AllocError, Global};

// Two operands.
const PAIRS: [(u32, u32); 12] = [
    (0, 0),
    (5, 32),
    (0xffff_ffff, 1),
    (1, 0xffff_ffff),
    (0x8000_0000, 0xffff_ffff),
    (0x8000_0000, 0x8000_0000),
    (0x7fff_ffff, 0x8000_0000),
    (0x8000_0001, 31),
    (0x8765_4321, 33),
    (7, 0),
    (0xffff_fff9, 2),
    (0xffff_ffff, 0xffff_ffff),
];

// An operation, and what it gives for each of the pairs.
const RESULTS: [(AluOp, [u32; 12]); 18] = [
    (
        AluOp::Add,
        [
            0,
            0x0000_0025,
            0,
            0,
            0x7fff_ffff,
            0,
            0xffff_ffff,
            0x8000_0020,
            0x8765_4342,
            7,
            0xffff_fffb,
            0xffff_fffe,
        ],
    ),
    (
        AluOp::Sub,
        [
            0,
            0xffff_ffe5,
            0xffff_fffe,
            2,
            0x8000_0001,
            0,
            0xffff_ffff,
            0x7fff_ffe2,
            0x8765_4300,
            7,
            0xffff_fff7,
            0,
        ],
    ),
    (
        AluOp::Sll,
        [
            0,
            5,
            0xffff_fffe,
            0x8000_0000,
            0,
            0x8000_0000,
            0x7fff_ffff,
            0x8000_0000,
            0x0eca_8642,
            7,
            0xffff_ffe4,
            0x8000_0000,
        ],
    ),
    (AluOp::Slt, [0, 1, 1, 0, 1, 0, 0, 1, 1, 0, 1, 0]),
    (AluOp::Sltu, [0, 1, 0, 1, 1, 0, 1, 0, 0, 0, 0, 0]),
    (
        AluOp::Xor,
        [
            0,
            0x0000_0025,
            0xffff_fffe,
            0xffff_fffe,
            0x7fff_ffff,
            0,
            0xffff_ffff,
            0x8000_001e,
            0x8765_4300,
            7,
            0xffff_fffb,
            0,
        ],
    ),
    (
        AluOp::Srl,
        [
            0,
            5,
            0x7fff_ffff,
            0,
            1,
            0x8000_0000,
            0x7fff_ffff,
            1,
            0x43b2_a190,
            7,
            0x3fff_fffe,
            1,
        ],
    ),
    (
        AluOp::Sra,
        [
            0,
            5,
            0xffff_ffff,
            0,
            0xffff_ffff,
            0x8000_0000,
            0x7fff_ffff,
            0xffff_ffff,
            0xc3b2_a190,
            7,
            0xffff_fffe,
            0xffff_ffff,
        ],
    ),
    (
        AluOp::Or,
        [
            0,
            0x0000_0025,
            0xffff_ffff,
            0xffff_ffff,
            0xffff_ffff,
            0x8000_0000,
            0xffff_ffff,
            0x8000_001f,
            0x8765_4321,
            7,
            0xffff_fffb,
            0xffff_ffff,
        ],
    ),
    (
        AluOp::And,
        [
            0,
            0,
            1,
            1,
            0x8000_0000,
            0x8000_0000,
            0,
            1,
            0x0000_0021,
            0,
            0,
            0xffff_ffff,
        ],
    ),
    (
        AluOp::Mul,
        [
            0,
            0x0000_00a0,
            0xffff_ffff,
            0xffff_ffff,
            0x8000_0000,
            0,
            0x8000_0000,
            0x8000_001f,
            0x740d_a741,
            0,
            0xffff_fff2,
            1,
        ],
    ),
    (
        AluOp::Mulh,
        [
            0,
            0,
            0xffff_ffff,
            0xffff_ffff,
            0,
            0x4000_0000,
            0xc000_0000,
            0xffff_fff0,
            0xffff_fff0,
            0,
            0xffff_ffff,
            0,
        ],
    ),
    (
        AluOp::Mulhsu,
        [
            0,
            0,
            0xffff_ffff,
            0,
            0x8000_0000,
            0xc000_0000,
            0x3fff_ffff,
            0xffff_fff0,
            0xffff_fff0,
            0,
            0xffff_ffff,
            0xffff_ffff,
        ],
    ),
    (
        AluOp::Mulhu,
        [
            0,
            0,
            0,
            0,
            0x7fff_ffff,
            0x4000_0000,
            0x3fff_ffff,
            0x0000_000f,
            0x0000_0011,
            0,
            1,
            0xffff_fffe,
        ],
    ),
    (
        AluOp::Div,
        [
            0xffff_ffff,
            0,
            0xffff_ffff,
            0xffff_ffff,
            0x8000_0000,
            1,
            0,
            0xfbde_f7be,
            0xfc58_66e2,
            0xffff_ffff,
            0xffff_fffd,
            1,
        ],
    ),
    (
        AluOp::Divu,
        [
            0xffff_ffff,
            0,
            0xffff_ffff,
            0,
            0,
            1,
            0,
            0x0421_0842,
            0x041a_575e,
            0xffff_ffff,
            0x7fff_fffc,
            1,
        ],
    ),
    (
        AluOp::Rem,
        [
            0,
            5,
            0,
            0,
            0,
            0,
            0x7fff_ffff,
            0xffff_ffff,
            0xffff_ffff,
            7,
            0xffff_ffff,
            0,
        ],
    ),
    (
        AluOp::Remu,
        [0, 5, 0, 1, 0x8000_0000, 0, 0x7fff_ffff, 3, 3, 7, 1, 0],
    ),
];

// A condition, and whether it holds for each of the pairs.
const OUTCOMES: [(Cond, [bool; 12]); 6] = [
    (
        Cond::Eq,
        [
            true, false, false, false, false, true, false, false, false, false, false, true,
        ],
    ),
    (
        Cond::Ne,
        [
            false, true, true, true, true, false, true, true, true, true, true, false,
        ],
    ),
    (
        Cond::Lt,
        [
            false, true, true, false, true, false, false, true, true, false, true, false,
        ],
    ),
    (
        Cond::Ge,
        [
            true, false, false, true, false, true, true, false, false, true, false, true,
        ],
    ),
    (
        Cond::Ltu,
        [
            false, true, false, true, true, false, true, false, false, false, false, false,
        ],
    ),
    (
        Cond::Geu,
        [
            true, false, true, false, false, true, false, true, true, true, true, true,
        ],
    ),
];

// A word of new inputs.
fn inputs(alloc: Global, gates: &mut Gates) -> Result<Word, AllocError>
    ensures width { IfOk result (λ r. length r.items ≡ 32) }
    ensures inside { IfOk result (λ r. AreIn gates.new r.items) }
    ensures grows { OnOk result (length gates.old ≤ length gates.new) }
{
    let mut out = Vec::new(alloc);
    for _i in 0..WORD_BITS {
        out.push(gates.input()?)?;
    }
    Ok(out)
}

// The values of all gates where the first 64 inputs have the bits of two words.
fn values(alloc: Global, gates: &Gates, a: u32, b: u32) -> Result<Vec<bool>, AllocError> {
    let mut out = Vec::new(alloc);
    let mut bits = u64::from(a) + (u64::from(b) << 32);
    for gate in 0..gates.size() {
        let value = match gates.operands(gate) {
            Some((x, y)) => value_of(&out, x) && value_of(&out, y),
            None => {
                let bit = gate == 0 || bits % 2 == 1;
                if gate > 0 {
                    bits /= 2;
                }
                bit
            }
        };
        out.push(value)?;
    }
    Ok(out)
}

fn value_of(values: &[bool], w: Wire) -> bool {
    values.get(w.gate).copied().unwrap_or(false) != w.negated
}

fn number_of(values: &[bool], word: &[Wire]) -> u32 {
    let mut number = 0u32;
    for w in word.iter().rev() {
        number = number.wrapping_mul(2) | u32::from(value_of(values, *w));
    }
    number
}

#[test]
fn operations(rt: HostRuntime) -> Result<(), AllocError> {
    let alloc = rt.alloc();
    for (op, expected) in RESULTS.iter() {
        let mut gates = Gates::new(alloc)?;
        let a = inputs(alloc, &mut gates)?;
        let b = inputs(alloc, &mut gates)?;
        let word = arith(alloc, &mut gates, *op, &a, &b)?;
        for ((x, y), z) in PAIRS.iter().zip(expected.iter()) {
            let all = values(alloc, &gates, *x, *y)?;
            assert_eq!(rt; number_of(&all, &word), *z, "{op:?} of {x:#x} and {y:#x}");
        }
    }
    Ok(())
}

#[test]
fn conditions(rt: HostRuntime) -> Result<(), AllocError> {
    let alloc = rt.alloc();
    for (cond, expected) in OUTCOMES.iter() {
        let mut gates = Gates::new(alloc)?;
        let a = inputs(alloc, &mut gates)?;
        let b = inputs(alloc, &mut gates)?;
        let wire = compare(alloc, &mut gates, *cond, &a, &b)?;
        for ((x, y), holds) in PAIRS.iter().zip(expected.iter()) {
            let all = values(alloc, &gates, *x, *y)?;
            assert_eq!(rt;
                value_of(&all, wire),
                *holds,
                "{cond:?} of {x:#x} and {y:#x}"
            );
        }
    }
    Ok(())
}
