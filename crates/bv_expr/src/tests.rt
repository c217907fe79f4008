//! Expressions on worked values.

use super::*;
use ct_rows::Row;
use ct_words::{AluOp, Cond};
use std::test::Fail;

// An operation, two words, and the word that it gives.
const WORDS: [(AluOp, u32, u32, u32); 9] = [
    (AluOp::Div, 0x8000_0000, 0xffff_ffff, 0x8000_0000),
    (AluOp::Rem, 0x8000_0000, 0xffff_ffff, 0),
    (AluOp::Remu, 7, 0, 7),
    (AluOp::Divu, 7, 0, 0xffff_ffff),
    (AluOp::Mulhsu, 0xffff_ffff, 0xffff_ffff, 0xffff_ffff),
    (AluOp::Mulh, 0x8000_0000, 0x8000_0000, 0x4000_0000),
    (AluOp::Sll, 5, 32, 5),
    (AluOp::Sub, 3, 5, 0xffff_fffe),
    (AluOp::Sra, 0x8000_0000, 31, 0xffff_ffff),
];

#[test]
fn constants_fold(rt: HostRuntime) -> Result<(), Fail> {
    let mut arena = Arena::new(rt.alloc())?;
    for (op, a, b, expected) in WORDS.iter() {
        let left = arena.constant(WORD, *a)?;
        let right = arena.constant(WORD, *b)?;
        let id = arena.alu(*op, left, right)?;
        assert_eq!(rt;
            arena.node(id),
            QNode::Constant {
                width: 32,
                value: *expected
            },
            "{op:?}"
        );
    }
    Ok(())
}

#[test]
fn each_constructor(rt: HostRuntime) -> Result<(), Fail> {
    let alloc = rt.alloc();
    let mut arena = Arena::new(alloc)?;
    let x = arena.input(0)?;
    let word = arena.join(x, x, x, x)?;
    let below = arena.test(Cond::Lt, word, word)?;
    let not_below = arena.not(below)?;
    let neither = arena.both(below, not_below)?;
    let choice = arena.pick(neither, below, not_below)?;
    assert_eq!(rt; arena.width(choice), 1);
    let values = Values(Row::from_vec(vec![in alloc; 0x85]?));
    assert_eq!(rt; arena.value(alloc, choice, &values)?, 1);
    Ok(())
}

const ADDITIONS: u32 = 1_000_000;

#[test]
fn a_long_chain(rt: HostRuntime) -> Result<(), Fail> {
    let alloc = rt.alloc();
    let mut arena = Arena::new(alloc)?;
    let byte = arena.input(0)?;
    let word = arena.join(byte, byte, byte, byte)?;
    let mut sum = word;
    for _turn in 0..ADDITIONS {
        sum = arena.alu(AluOp::Add, sum, word)?;
    }
    let top = arena.byte(sum, 3)?;
    assert_eq!(rt; arena.nodes().len(), 1_000_003);
    let values = Values(Row::from_vec(vec![in alloc; 1]?));
    // 1,000,001 times 0x01010101 is 0x92928341, modulo 2^32.
    assert_eq!(rt; arena.value(alloc, top, &values)?, 0x92);
    Ok(())
}
