//! Passes on worked expressions.

ghost use Rattle.std.specs.Prelude.{◌<◌, length, IfOk};
ghost use Rattle.bv_expr.specs.Nodes.{HasWidth};

use super::trial::{Idle, RefuseAt};
use super::*;
use bv_expr::{Arena, BIT, BYTE, ExprId, QNode, WORD};
use ct_words::{AluOp, Cond};
use std::alloc::{AllocError, Global};
use std::test::Fail;

// Four inputs as a word.
fn joined_inputs(arena: &mut Arena) -> Result<ExprId, AllocError>
    ensures { IfOk result (λ id. HasWidth arena.new id.0 32) }
{
    let b0 = arena.input(0)?;
    let b1 = arena.input(1)?;
    let b2 = arena.input(2)?;
    let b3 = arena.input(3)?;
    arena.join(b0, b1, b2, b3)
}

// What a pass answers for an expression, as a node. A constant is left as it is.
fn answer<P: Pass>(pass: &mut P, arena: &mut Arena, id: ExprId) -> Result<QNode, AllocError>
    requires { id.0 < length arena.old }
{
    match arena.node(id) {
        QNode::Constant { width, value } => Ok(QNode::Constant { width, value }),
        _ => {
            let other = pass.apply(arena, id)?;
            Ok(arena.node(other))
        }
    }
}

#[test]
fn a_word_without_itself(rt: HostRuntime) -> Result<(), Fail> {
    let alloc = rt.alloc();
    let mut arena = Arena::new(alloc)?;
    let x = joined_inputs(&mut arena)?;
    let nothing = arena.alu(AluOp::Xor, x, x)?;
    let mut algebra = Algebra::new(alloc)?;
    let found = answer(&mut algebra, &mut arena, nothing)?;
    assert_eq!(rt;
        found,
        QNode::Constant {
            width: WORD,
            value: 0
        }
    );
    assert_eq!(rt; algebra.changed(), 1);
    Ok(())
}

#[test]
fn a_byte_of_joined_bytes(rt: HostRuntime) -> Result<(), Fail> {
    let alloc = rt.alloc();
    let mut arena = Arena::new(alloc)?;
    let x = joined_inputs(&mut arena)?;
    let byte = arena.byte(x, 2)?;
    let mut bytes = MergeBytes::new(alloc)?;
    let found = answer(&mut bytes, &mut arena, byte)?;
    assert_eq!(rt; found, QNode::Input { variable: 2 });
    assert_eq!(rt; bytes.changed(), 1);
    Ok(())
}

#[test]
fn a_shift_of_a_shift(rt: HostRuntime) -> Result<(), Fail> {
    let alloc = rt.alloc();
    let mut arena = Arena::new(alloc)?;
    let x = joined_inputs(&mut arena)?;
    let twenty = arena.constant(WORD, 20)?;
    let twelve = arena.constant(WORD, 12)?;
    let once = arena.alu(AluOp::Sll, x, twenty)?;
    let twice = arena.alu(AluOp::Sll, once, twelve)?;
    let mut shifts = Shifts::new(alloc)?;
    let found = answer(&mut shifts, &mut arena, twice)?;
    assert_eq!(rt;
        found,
        QNode::Constant {
            width: WORD,
            value: 0
        }
    );
    Ok(())
}

#[test]
fn what_is_taken_and_added(rt: HostRuntime) -> Result<(), Fail> {
    let alloc = rt.alloc();
    let mut arena = Arena::new(alloc)?;
    let x = joined_inputs(&mut arena)?;
    let y = arena.alu(AluOp::Mul, x, x)?;
    let four = arena.constant(WORD, 4)?;
    let less = arena.alu(AluOp::Sub, x, y)?;
    let more = arena.alu(AluOp::Add, y, four)?;
    let sum = arena.alu(AluOp::Add, less, more)?;
    let mut sums = Sums::new(alloc)?;
    let found = answer(&mut sums, &mut arena, sum)?;
    assert_eq!(rt;
        found,
        QNode::Alu {
            op: AluOp::Add,
            a: x.0,
            b: four.0
        }
    );
    Ok(())
}

#[test]
fn a_word_masked_by_nothing(rt: HostRuntime) -> Result<(), Fail> {
    let alloc = rt.alloc();
    let mut arena = Arena::new(alloc)?;
    let nothing = masked(&mut arena, 0)?;
    let mut known = KnownBits::new(alloc)?;
    let found = answer(&mut known, &mut arena, nothing)?;
    assert_eq!(rt;
        found,
        QNode::Constant {
            width: WORD,
            value: 0
        }
    );
    assert_eq!(rt; known.changed(), 1);
    Ok(())
}

#[test]
fn a_word_of_which_nothing_is_known(rt: HostRuntime) -> Result<(), Fail> {
    let alloc = rt.alloc();
    let mut arena = Arena::new(alloc)?;
    let x = joined_inputs(&mut arena)?;
    let word = arena.node(x);
    let mut known = KnownBits::new(alloc)?;
    let same = answer(&mut known, &mut arena, x)?;
    assert_eq!(rt; same, word);
    assert_eq!(rt; known.changed(), 0);
    Ok(())
}

#[test]
fn a_byte_that_was_shifted_out(rt: HostRuntime) -> Result<(), Fail> {
    let alloc = rt.alloc();
    let mut arena = Arena::new(alloc)?;
    let x = joined_inputs(&mut arena)?;
    let eight = arena.constant(WORD, 8)?;
    let down = arena.alu(AluOp::Srl, x, eight)?;
    let byte = arena.byte(down, 3)?;
    let mut known = KnownBits::new(alloc)?;
    let found = answer(&mut known, &mut arena, byte)?;
    assert_eq!(rt;
        found,
        QNode::Constant {
            width: BYTE,
            value: 0
        }
    );
    Ok(())
}

#[test]
fn a_byte_below_a_limit(rt: HostRuntime) -> Result<(), Fail> {
    let alloc = rt.alloc();
    let mut arena = Arena::new(alloc)?;
    let byte = arena.input(0)?;
    let zero = arena.constant(BYTE, 0)?;
    let word = arena.join(byte, zero, zero, zero)?;
    let limit = arena.constant(WORD, 0x100)?;
    let below = arena.test(Cond::Ltu, word, limit)?;
    let mut known = KnownBits::new(alloc)?;
    let found = answer(&mut known, &mut arena, below)?;
    assert_eq!(rt;
        found,
        QNode::Constant {
            width: BIT,
            value: 1
        }
    );
    Ok(())
}

// 0, as a word masked by 0 and then by itself so many times.
fn masked(arena: &mut Arena, times: usize) -> Result<ExprId, AllocError>
    ensures { IfOk result (λ id. HasWidth arena.new id.0 32) }
{
    let x = joined_inputs(arena)?;
    let zero = arena.constant(WORD, 0)?;
    let mut word = arena.alu(AluOp::And, x, zero)?;
    for _turn in 0..times {
        word = arena.alu(AluOp::And, word, x)?;
    }
    Ok(word)
}

// The word, its four bytes and 0, and the first mask.
const MASKED: usize = 7;

// What `KnownBits` answers for a word that is masked so often.
fn known_of_masked(alloc: Global, times: usize) -> Result<QNode, AllocError> {
    let mut arena = Arena::new(alloc)?;
    let word = masked(&mut arena, times)?;
    let mut known = KnownBits::new(alloc)?;
    answer(&mut known, &mut arena, word)
}

#[test]
fn as_many_nodes_as_are_looked_at(rt: HostRuntime) -> Result<(), Fail> {
    let alloc = rt.alloc();
    let found = known_of_masked(alloc, MOST_LOOKED - MASKED)?;
    assert_eq!(rt;
        found,
        QNode::Constant {
            width: WORD,
            value: 0
        }
    );
    Ok(())
}

#[test]
fn one_node_more_than_are_looked_at(rt: HostRuntime) -> Result<(), Fail> {
    let alloc = rt.alloc();
    let same = known_of_masked(alloc, MOST_LOOKED - MASKED + 1)?;
    assert_eq!(rt;
        same,
        QNode::Alu {
            op: AluOp::And,
            a: 31,
            b: 4
        }
    );
    Ok(())
}

#[test]
fn passes_in_a_kit(rt: HostRuntime) -> Result<(), Fail> {
    let alloc = rt.alloc();
    let mut kit: Kit = Vec::new(alloc);
    kit.push(Box::new(alloc, Idle::new(alloc)?)?)?;
    kit.push(Box::new(alloc, RefuseAt::new(alloc, 0)?)?)?;
    let mut answered = 0u32;
    for pass in kit.iter_mut() {
        let mut arena = Arena::new(alloc)?;
        let x = arena.input(0)?;
        match arena.node(x) {
            QNode::Constant { .. } => {}
            _ => {
                if pass.apply(&mut arena, x).is_ok() {
                    answered = answered.saturating_add(1);
                }
            }
        }
    }
    // `Idle` answers, and `RefuseAt` refuses its first call.
    assert_eq!(rt; answered, 1);
    Ok(())
}
