//! Ranges at their edges, of a masked word and of a long chain.

ghost use Rattle.std.specs.Prelude.{◌<◌, length, IfOk};

use super::*;
use crate::words::range_of_alu;
use bv_expr::{Arena, ExprId, WORD};
use ct_words::AluOp;
use std::alloc::AllocError;
use std::test::Fail;

// What is known of a number: zeros, ones, least and most.
const BYTE: [u32; 4] = [0xffff_ff00, 0, 0, 0xff];

const POSITIVE_BYTE: [u32; 4] = [0xffff_ff00, 0, 1, 0xff];

const ANY: [u32; 4] = [0, 0, 0, 0xffff_ffff];

const NONE: [u32; 4] = [0xffff_ffff, 0, 0, 0];

const ONE: [u32; 4] = [0xffff_fffe, 1, 1, 1];

const FOUR: [u32; 4] = [0xffff_fffb, 4, 4, 4];

const SEVEN: [u32; 4] = [0xffff_fff8, 7, 7, 7];

const THIRTY_ONE: [u32; 4] = [0xffff_ffe0, 31, 31, 31];

const BASE: [u32; 4] = [0xfffe_ffff, 0x1_0000, 0x1_0000, 0x1_0000];

const HIGHEST: [u32; 4] = [0, 0xffff_fff0, 0xffff_fff0, 0xffff_ffff];

const TEENS: [u32; 4] = [0xffff_ffe0, 0x10, 0x10, 0x1f];

const ENTRY: [u32; 4] = [0xffff_fc03, 0, 0, 0x3fc];

// An operation, the ranges of two words, and the narrowest range of its results: found by going over
// all words in the two, and by hand where one is any word.
const RULES: [(AluOp, [u32; 4], [u32; 4], [u32; 4]); 15] = [
    (AluOp::Mul, BYTE, FOUR, ENTRY),
    (
        AluOp::Add,
        BASE,
        ENTRY,
        [0xfffe_fc03, 0x1_0000, 0x1_0000, 0x1_03fc],
    ),
    // All of these sums pass 2^32.
    (AluOp::Add, HIGHEST, TEENS, [0xffff_ffe0, 0, 0, 0x1e]),
    // Some of these do.
    (AluOp::Add, HIGHEST, BYTE, ANY),
    (AluOp::Sub, POSITIVE_BYTE, ONE, [0xffff_ff00, 0, 0, 0xfe]),
    (AluOp::Sub, BYTE, ONE, ANY),
    (AluOp::And, ANY, NONE, NONE),
    (
        AluOp::Or,
        BYTE,
        BASE,
        [0xfffe_ff00, 0x1_0000, 0x1_0000, 0x1_00ff],
    ),
    (AluOp::Xor, SEVEN, FOUR, [0xffff_fffc, 3, 3, 3]),
    (
        AluOp::Sll,
        BYTE,
        THIRTY_ONE,
        [0x7fff_ffff, 0, 0, 0x8000_0000],
    ),
    (AluOp::Srl, ANY, THIRTY_ONE, [0xffff_fffe, 0, 0, 1]),
    (AluOp::Divu, BYTE, SEVEN, [0xffff_ffc0, 0, 0, 36]),
    (AluOp::Divu, BYTE, BYTE, ANY),
    (AluOp::Remu, ANY, SEVEN, [0xffff_fff8, 0, 0, 6]),
    (AluOp::Sltu, BYTE, BASE, ONE),
];

fn range([zeros, ones, least, most]: [u32; 4]) -> Range {
    Range {
        zeros,
        ones,
        least,
        most,
    }
}

#[test]
fn rules_at_their_edges(rt: HostRuntime) {
    for (op, a, b, expected) in RULES.iter() {
        let found = range_of_alu(*op, range(*a), range(*b));
        assert_eq!(rt; found, range(*expected), "{op:?} of {a:?} and {b:?}");
    }
}

// The low two bits of a word.
fn masked(arena: &mut Arena) -> Result<ExprId, AllocError>
    ensures { IfOk result (λ id. id.0 < length arena.new) }
{
    let byte = arena.input(0)?;
    let word = arena.join(byte, byte, byte, byte)?;
    let three = arena.constant(WORD, 3)?;
    let low = arena.alu(AluOp::And, word, three)?;
    Ok(low)
}

#[test]
fn a_mask(rt: HostRuntime) -> Result<(), Fail> {
    let alloc = rt.alloc();
    let mut arena = Arena::new(alloc)?;
    let low = masked(&mut arena)?;
    let mut ranges = Ranges::new(alloc)?;
    let range = ranges.of(&arena, low)?;
    assert_eq!(rt; range.zeros, 0xffff_fffc);
    assert_eq!(rt; range.least, 0);
    assert_eq!(rt; range.most, 3);
    Ok(())
}

const ADDITIONS: u32 = 100_000;

// A chain of additions over one input byte.
fn chain(arena: &mut Arena) -> Result<ExprId, AllocError>
    ensures { IfOk result (λ id. id.0 < length arena.new) }
{
    let byte = arena.input(0)?;
    let word = arena.join(byte, byte, byte, byte)?;
    let mut sum = word;
    for _turn in 0..ADDITIONS {
        sum = arena.alu(AluOp::Add, sum, word)?;
    }
    Ok(sum)
}

#[test]
fn a_long_chain(rt: HostRuntime) -> Result<(), Fail> {
    let alloc = rt.alloc();
    let mut arena = Arena::new(alloc)?;
    let sum = chain(&mut arena)?;
    let mut ranges = Ranges::new(alloc)?;
    let range = ranges.of(&arena, sum)?;
    assert_eq!(rt; range.most, 0xffff_ffff);
    Ok(())
}
