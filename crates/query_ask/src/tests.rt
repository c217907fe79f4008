//! Questions made of expressions, and their answers.
ghost use Rattle.std.specs.Prelude.{◌≡◌, true, All, IfOk};
ghost use Rattle.bv_expr.specs.Nodes.{HasWidth};

use super::*;
use bv_expr::{Arena, ExprId, QNode};
use ct_words::{AluOp, Cond};
use std::alloc::{AllocError, Global};
use std::test::Fail;

// Whether input bytes 1 and 0 are equal as words. Their sum is there too.
fn are_equal(arena: &mut Arena) -> Result<ExprId, AllocError>
    ensures { IfOk result (λ id. HasWidth arena.new id.0 1) }
{
    let first = arena.input(0)?;
    let second = arena.input(1)?;
    let zero = arena.constant(8, 0)?;
    let left = arena.join(second, zero, zero, zero)?;
    let right = arena.join(first, zero, zero, zero)?;
    arena.alu(AluOp::Add, left, right)?;
    arena.test(Cond::Eq, left, right)
}

// Whether they are, and are not, and are, and are not.
fn contradiction(alloc: Global, arena: &mut Arena) -> Result<Question, Fail> {
    let equal = are_equal(arena)?;
    let different = arena.not(equal)?;
    if !are_variables_below(arena.nodes(), 2) {
        return Err(Fail::from("another variable"));
    }
    let question = question_of(alloc, arena, 2, &[equal, different, equal], different)?;
    Ok(question)
}

#[test]
fn nodes_are_numbered_by_first_visit(rt: HostRuntime) -> Result<(), Fail> {
    let alloc = rt.alloc();
    let mut arena = Arena::new(alloc)?;
    let question = contradiction(alloc, &mut arena)?;
    let nodes = [
        QNode::Input { variable: 1 },
        QNode::Constant { width: 8, value: 0 },
        QNode::Join {
            b0: 0,
            b1: 1,
            b2: 1,
            b3: 1,
        },
        QNode::Input { variable: 0 },
        QNode::Join {
            b0: 3,
            b1: 1,
            b2: 1,
            b3: 1,
        },
        QNode::Test {
            cond: Cond::Eq,
            a: 2,
            b: 4,
        },
        QNode::Not { a: 5 },
    ];
    assert_eq!(rt; question.vars(), 2);
    assert_eq!(rt; question.nodes(), nodes.as_slice());
    assert_eq!(rt; question.conjuncts(), [5, 6].as_slice());
    assert_eq!(rt; question.asked(), 6);
    Ok(())
}

// Whether the square of input byte 0, as a word, is a number.
fn is_square(arena: &mut Arena, number: u32) -> Result<ExprId, AllocError>
    ensures { IfOk result (λ id. HasWidth arena.new id.0 1) }
{
    let byte = arena.input(0)?;
    let zero = arena.constant(8, 0)?;
    let word = arena.join(byte, zero, zero, zero)?;
    let square = arena.alu(AluOp::Mul, word, word)?;
    let other = arena.constant(32, number)?;
    arena.test(Cond::Eq, square, other)
}

fn square_question(alloc: Global, number: u32) -> Result<Question, Fail> {
    let mut arena = Arena::new(alloc)?;
    let equal = is_square(&mut arena, number)?;
    if !are_variables_below(arena.nodes(), 1) {
        return Err(Fail::from("another variable"));
    }
    let question = question_of(alloc, &arena, 1, &[equal], equal)?;
    Ok(question)
}

fn name(answer: &Answer) -> &'static str {
    match answer {
        Answer::Yes(_) => "yes",
        Answer::No(_) => "no",
        Answer::Tried(_, _) => "tried",
        Answer::Spent(_, _) => "spent",
    }
}

// Whether the question's verdict is kept beside it.
fn is_kept(alloc: Global, question: Question, budget: u64) -> Result<bool, AllocError> {
    let answer = ask(alloc, &question, budget)?;
    answer.law(&question, budget);
    let checked = answer.checked(alloc, question)?;
    Ok(checked.is_some())
}

#[test]
fn a_square_has_its_root(rt: HostRuntime) -> Result<(), Fail> {
    let question = square_question(rt.alloc(), 49)?;
    match ask(rt.alloc(), &question, 1_000_000)? {
        Answer::Yes(values) => assert_eq!(rt; values.byte(0), 7),
        _ => return Err(Fail::from("no root of 49")),
    }
    assert!(rt; is_kept(rt.alloc(), question, 1_000_000)?);
    Ok(())
}

// No byte has the square 50, by the search or by trying all of them.
#[test]
fn no_byte_has_another_square(rt: HostRuntime) -> Result<(), Fail> {
    let question = square_question(rt.alloc(), 50)?;
    assert_eq!(rt; name(&ask(rt.alloc(), &question, 1_000_000)?), "no");
    let few = name(&ask(rt.alloc(), &question, 256)?);
    assert!(rt; few == "no" || few == "tried");
    assert!(rt; is_kept(rt.alloc(), question, 256)?);
    Ok(())
}

// Whether an input byte is above a number.
fn is_above(arena: &mut Arena, input: usize, number: u32) -> Result<ExprId, AllocError> {
    let byte = arena.input(input)?;
    let zero = arena.constant(8, 0)?;
    let word = arena.join(byte, zero, zero, zero)?;
    let bound = arena.constant(32, number)?;
    arena.test(Cond::Ltu, bound, word)
}

fn is_bit(arena: &Arena, id: ExprId) -> bool
    ensures { result ≡ true → HasWidth arena.now id.0 1 }
{
    if id.0 < arena.nodes().len() {
        arena.width(id) == 1
    } else {
        false
    }
}

fn are_bits(arena: &Arena, ids: &[ExprId]) -> bool
    ensures { result ≡ true → All (λ id. HasWidth arena.now id.0 1) ids.now }
{
    for id in ids {
        if !is_bit(arena, *id) {
            return false;
        }
    }
    true
}

// A question about three variables.
fn question(
    alloc: Global,
    arena: &Arena,
    conjuncts: &[ExprId],
    asked: ExprId,
) -> Result<Question, Fail> {
    if !are_variables_below(arena.nodes(), 3) {
        return Err(Fail::from("another variable"));
    }
    if !is_bit(arena, asked) {
        return Err(Fail::from("no bit"));
    }
    if !are_bits(arena, conjuncts) {
        return Err(Fail::from("no bit"));
    }
    let question = question_of(alloc, arena, 3, conjuncts, asked)?;
    Ok(question)
}

// Whether bytes 0 to 2 are above 100, 5 and 7, and byte 0 isn't above another number.
fn between(alloc: Global, most: u32) -> Result<Question, Fail> {
    let mut arena = Arena::new(alloc)?;
    let first = is_above(&mut arena, 0, 100)?;
    let second = is_above(&mut arena, 1, 5)?;
    let third = is_above(&mut arena, 2, 7)?;
    let above = is_above(&mut arena, 0, most)?;
    if !is_bit(&arena, above) {
        return Err(Fail::from("no bit"));
    }
    let asked = arena.not(above)?;
    let question = question(alloc, &arena, &[first, second, third], asked)?;
    Ok(question)
}

// The last conjunct alone leaves both questions open, and so do the fixed valuations.
#[test]
fn conjuncts_are_added(rt: HostRuntime) -> Result<(), Fail> {
    let never = between(rt.alloc(), 50)?;
    assert_eq!(rt; name(&ask(rt.alloc(), &never, 1_000_000)?), "no");
    let question = between(rt.alloc(), 110)?;
    match ask(rt.alloc(), &question, 1_000_000)? {
        Answer::Yes(values) => {
            let first = values.byte(0);
            assert!(rt; first > 100 && first <= 110);
            assert!(rt; values.byte(1) > 5 && values.byte(2) > 7);
        }
        _ => return Err(Fail::from("no bytes")),
    }
    Ok(())
}
