//! Equalities of sums, of bits, of input bytes and of long chains.

ghost use Rattle.std.specs.Prelude.{◌<◌, length, IfOk};
ghost use Rattle.bv_expr.specs.Nodes.{HasWidth};
ghost use Rattle.bv_expr.specs.Growth.{Extends};

use super::*;
use bv_expr::{Arena, BYTE, ExprId, WORD};
use ct_words::{AluOp, Cond};
use std::alloc::{AllocError, Global};
use std::test::Fail;

// An input byte as a word.
fn input_word(arena: &mut Arena, variable: usize) -> Result<ExprId, AllocError>
    ensures word { IfOk result (λ id. HasWidth arena.new id.0 32) }
    ensures extends { Extends arena.old arena.new 3 }
{
    let byte = arena.input(variable)?;
    let zero = arena.constant(BYTE, 0)?;
    let word = arena.join(byte, zero, zero, zero)?;
    Ok(word)
}

// An operation on a word and a number, which stands first or last.
fn with_number(
    arena: &mut Arena,
    op: AluOp,
    first: bool,
    word: ExprId,
    number: u32,
) -> Result<ExprId, AllocError>
    requires { HasWidth arena.old word.0 32 }
    ensures word { IfOk result (λ id. HasWidth arena.new id.0 32) }
    ensures extends { Extends arena.old arena.new 2 }
{
    let number = arena.constant(WORD, number)?;
    let id = if first {
        arena.alu(op, number, word)?
    } else {
        arena.alu(op, word, number)?
    };
    Ok(id)
}

// Takes two operations for equal, each on a word of its own and a number. Then: whether these are known to be equal,
// whether the words are, and how many equalities are kept.
fn taken_off(
    alloc: Global,
    first: bool,
    [(left_op, x), (right_op, y)]: [(AluOp, u32); 2],
) -> Result<(bool, bool, usize), AllocError> {
    let mut arena = Arena::new(alloc)?;
    let l = input_word(&mut arena, 0)?;
    let r = input_word(&mut arena, 1)?;
    let left = with_number(&mut arena, left_op, first, l, x)?;
    let right = with_number(&mut arena, right_op, first, r, y)?;
    let mut equalities = Equalities::new(alloc);
    equalities.prove(&arena, left, right)?;
    Ok((
        equalities.known(left, right) && equalities.known(right, left),
        equalities.known(l, r) && equalities.known(r, l),
        equalities.as_slice().len(),
    ))
}

// Whether the numbers stand first, the operations on both sides, and whether these are taken off.
const CASES: [(bool, [(AluOp, u32); 2], bool); 14] = [
    (false, [(AluOp::Add, 7), (AluOp::Add, 7)], true),
    (true, [(AluOp::Add, 7), (AluOp::Add, 7)], true),
    (false, [(AluOp::Add, 7), (AluOp::Add, 8)], false),
    (
        false,
        [(AluOp::Xor, 0xffff_ffff), (AluOp::Xor, 0xffff_ffff)],
        true,
    ),
    (true, [(AluOp::Xor, 5), (AluOp::Xor, 5)], true),
    (false, [(AluOp::Xor, 5), (AluOp::Xor, 6)], false),
    (false, [(AluOp::Sub, 3), (AluOp::Sub, 3)], true),
    // Two words that are taken from 0, which are negations, and from different numbers.
    (true, [(AluOp::Sub, 0), (AluOp::Sub, 0)], true),
    (true, [(AluOp::Sub, 0), (AluOp::Sub, 1)], false),
    // 8 is taken away by adding 2^32 - 8.
    (false, [(AluOp::Add, 0xffff_fff8), (AluOp::Sub, 8)], true),
    (false, [(AluOp::Add, 7), (AluOp::Xor, 7)], false),
    (true, [(AluOp::Add, 7), (AluOp::Sub, 7)], false),
    (false, [(AluOp::Or, 7), (AluOp::Or, 7)], false),
    (false, [(AluOp::Mul, 2), (AluOp::Mul, 2)], false),
];

#[test]
fn equal_operations(rt: HostRuntime) -> Result<(), Fail> {
    for (first, both, expected) in CASES.iter() {
        let (sides, words, count) = taken_off(rt.alloc(), *first, *both)?;
        assert!(rt; sides, "{both:?}");
        assert_eq!(rt; words, *expected, "{both:?}");
        assert_eq!(rt; count, 1 + usize::from(*expected), "{both:?}");
    }
    Ok(())
}

#[test]
fn other_bits(rt: HostRuntime) -> Result<(), Fail> {
    let alloc = rt.alloc();
    let mut arena = Arena::new(alloc)?;
    let l = input_word(&mut arena, 0)?;
    let r = input_word(&mut arena, 1)?;
    let zero = arena.constant(WORD, 0)?;
    let a = arena.test(Cond::Eq, l, zero)?;
    let b = arena.test(Cond::Eq, r, zero)?;
    let left = arena.not(a)?;
    let right = arena.not(b)?;
    let mut equalities = Equalities::new(alloc);
    equalities.prove(&arena, left, right)?;
    assert!(rt; equalities.known(a, b));
    assert!(rt; !equalities.known(l, r));
    Ok(())
}

#[test]
fn input_bytes(rt: HostRuntime) -> Result<(), Fail> {
    let alloc = rt.alloc();
    let mut arena = Arena::new(alloc)?;
    let p = arena.input(0)?;
    let q = arena.input(1)?;
    let other = arena.input(2)?;
    let mut equalities = Equalities::new(alloc);
    assert!(rt; !equalities.known(p, q));
    equalities.prove(&arena, q, p)?;
    equalities.prove(&arena, p, q)?;
    assert!(rt; equalities.known(p, q));
    assert!(rt; equalities.known(q, p));
    assert!(rt; equalities.known(other, other));
    assert!(rt; !equalities.known(p, other));
    assert_eq!(rt; equalities.as_slice().len(), 1);
    Ok(())
}

const TURNS: u32 = 20_000;

// Over each of two words, a number is added and one xored, over and over.
fn chains(arena: &mut Arena, l: ExprId, r: ExprId) -> Result<(ExprId, ExprId), AllocError>
    requires left { HasWidth arena.old l.0 32 }
    requires right { HasWidth arena.old r.0 32 }
    ensures left { IfOk result (λ two. two.0.0 < length arena.new) }
    ensures right { IfOk result (λ two. two.1.0 < length arena.new) }
{
    let mut left = l;
    let mut right = r;
    for _turn in 0..TURNS {
        left = with_number(arena, AluOp::Add, false, left, 9)?;
        right = with_number(arena, AluOp::Add, false, right, 9)?;
        left = with_number(arena, AluOp::Xor, true, left, 6)?;
        right = with_number(arena, AluOp::Xor, true, right, 6)?;
    }
    Ok((left, right))
}

#[test]
fn long_chains(rt: HostRuntime) -> Result<(), Fail> {
    let alloc = rt.alloc();
    let mut arena = Arena::new(alloc)?;
    let l = input_word(&mut arena, 0)?;
    let r = input_word(&mut arena, 1)?;
    let (left, right) = chains(&mut arena, l, r)?;
    let mut equalities = Equalities::new(alloc);
    equalities.prove(&arena, left, right)?;
    assert!(rt; equalities.known(l, r));
    assert_eq!(rt; equalities.as_slice().len(), 40_001);
    Ok(())
}
