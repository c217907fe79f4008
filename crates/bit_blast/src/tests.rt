//! Gates of worked expressions.
ghost use Rattle.std.specs.Prelude.{◌≡◌, IfOk, All};
ghost use Rattle.bv_expr.specs.Nodes.{HasWidth};

use super::*;
use bv_expr::{Arena, ExprId, WORD};
use ct_words::{AluOp, Cond};
use gate_form::{Gates, Wire};
use std::alloc::{AllocError, Global};

// Whether the first root is true, where `bytes` has the variables' values.
fn outcome(alloc: Global, blasted: &Blasted, bytes: &[u8]) -> Result<bool, AllocError> {
    let values = gate_values(alloc, &blasted.gates, &blasted.vars, bytes)?;
    Ok(match blasted.roots.first() {
        Some(root) => value_of(&values, *root),
        None => false,
    })
}

fn gate_values(
    alloc: Global,
    gates: &Gates,
    vars: &[usize],
    bytes: &[u8],
) -> Result<Vec<bool>, AllocError> {
    let mut out = Vec::new(alloc);
    let mut input = 0;
    for gate in 0..gates.size() {
        let value = match gates.operands(gate) {
            Some((a, b)) => value_of(&out, a) && value_of(&out, b),
            None if gate == 0 => true,
            None => {
                let value = bit_of(vars, bytes, input);
                input += 1;
                value
            }
        };
        out.push(value)?;
    }
    Ok(out)
}

fn value_of(values: &[bool], w: Wire) -> bool {
    values.get(w.gate).copied().unwrap_or(false) != w.negated
}

// The bit of an input of the gates, by its number.
fn bit_of(vars: &[usize], bytes: &[u8], input: usize) -> bool {
    let variable = vars.get(input / 8).copied().unwrap_or(0);
    let byte = bytes.get(variable).copied().unwrap_or(0);
    byte >> (input % 8) as u32 & 1 == 1
}

// The gates of one root.
fn blasted(alloc: Global, arena: &Arena, root: ExprId) -> Result<Blasted, AllocError>
    requires { HasWidth arena.now root.0 1 }
{
    blast(alloc, arena, &[root])
}

// Whether a word is a number.
fn is_number(arena: &mut Arena, word: ExprId, number: u32) -> Result<ExprId, AllocError>
    requires { HasWidth arena.old word.0 32 }
    ensures { IfOk result (λ id. HasWidth arena.new id.0 1) }
{
    let other = arena.constant(WORD, number)?;
    arena.test(Cond::Eq, word, other)
}

// An input byte as a word.
fn word_of_byte(arena: &mut Arena, variable: usize) -> Result<ExprId, AllocError>
    ensures { IfOk result (λ id. HasWidth arena.new id.0 32) }
{
    let byte = arena.input(variable)?;
    let zero = arena.constant(8, 0)?;
    arena.join(byte, zero, zero, zero)
}

// Five, shifted up by input byte 0.
fn shifted(arena: &mut Arena) -> Result<ExprId, AllocError>
    ensures { IfOk result (λ id. HasWidth arena.new id.0 32) }
{
    let amount = word_of_byte(arena, 0)?;
    let five = arena.constant(WORD, 5)?;
    arena.alu(AluOp::Sll, five, amount)
}

// Whether a word is input bytes 1 and 2, the one lowest and the other highest.
fn is_bytes(arena: &mut Arena, word: ExprId) -> Result<ExprId, AllocError>
    requires { HasWidth arena.old word.0 32 }
    ensures { IfOk result (λ id. HasWidth arena.new id.0 1) }
{
    let low = arena.input(1)?;
    let high = arena.input(2)?;
    let zero = arena.constant(8, 0)?;
    let other = arena.join(low, zero, zero, high)?;
    arena.test(Cond::Eq, word, other)
}

// An input byte as a word, added to itself again and again.
fn multiple(arena: &mut Arena, variable: usize, additions: u32) -> Result<ExprId, AllocError>
    ensures { IfOk result (λ id. HasWidth arena.new id.0 32) }
{
    let word = word_of_byte(arena, variable)?;
    let mut sum = word;
    for _turn in 0..additions {
        sum = arena.alu(AluOp::Add, sum, word)?;
    }
    Ok(sum)
}

// Input bytes 4, 1, 1 and 1 as a word.
fn word_of_bytes(arena: &mut Arena) -> Result<ExprId, AllocError>
    ensures { IfOk result (λ id. HasWidth arena.new id.0 32) }
{
    let one = arena.input(1)?;
    let four = arena.input(4)?;
    arena.join(four, one, one, one)
}

// An amount, the lowest and the highest byte of a word, and whether 5 shifted up by the amount is the word.
const SHIFTED: [([u8; 3], bool); 6] = [
    ([0, 5, 0], true),
    ([31, 0, 0x80], true),
    ([32, 5, 0], true),
    ([33, 10, 0], true),
    ([33, 5, 0], false),
    ([2, 10, 0], false),
];

#[test]
fn a_shift_by_a_variable_amount(rt: HostRuntime) -> Result<(), AllocError> {
    let alloc = rt.alloc();
    let mut arena = Arena::new(alloc)?;
    let word = shifted(&mut arena)?;
    let same = is_bytes(&mut arena, word)?;
    let gates = blasted(alloc, &arena, same)?;
    for (bytes, expected) in SHIFTED.iter() {
        assert_eq!(rt; outcome(alloc, &gates, bytes)?, *expected, "{bytes:?}");
    }
    Ok(())
}

// Whether these two and no others are the variables.
fn are_two(vars: &[usize], first: usize, second: usize) -> bool {
    vars.len() == 2 && vars[0] == first && vars[1] == second
}

#[test]
fn inputs_in_order(rt: HostRuntime) -> Result<(), AllocError> {
    let alloc = rt.alloc();
    let mut arena = Arena::new(alloc)?;
    let word = word_of_bytes(&mut arena)?;
    let same = is_number(&mut arena, word, 0x1212_1234)?;
    let gates = blasted(alloc, &arena, same)?;
    assert!(rt; are_two(&gates.vars, 4, 1));
    assert!(rt; outcome(alloc, &gates, &[0, 0x12, 0, 0, 0x34])?);
    assert!(rt; !outcome(alloc, &gates, &[0, 0x34, 0, 0, 0x12])?);
    Ok(())
}

// How many gates the roots have.
fn gate_count(alloc: Global, arena: &Arena, roots: &[ExprId]) -> Result<usize, AllocError>
    requires { All (λ r. HasWidth arena.now r.0 1) roots.now }
{
    let gates = blast(alloc, arena, roots)?;
    Ok(gates.gates.size())
}

// How many gates a root has alone, and how many it has twice beside a product that no root needs.
fn counts(
    alloc: Global,
    arena: &mut Arena,
    word: ExprId,
    root: ExprId,
) -> Result<(usize, usize), AllocError>
    requires word { HasWidth arena.old word.0 32 }
    requires root { HasWidth arena.old root.0 1 }
{
    let alone = gate_count(alloc, arena, &[root])?;
    let _product = arena.alu(AluOp::Mul, word, word)?;
    let twice = gate_count(alloc, arena, &[root, root])?;
    Ok((alone, twice))
}

#[test]
fn shared_and_unused_nodes(rt: HostRuntime) -> Result<(), AllocError> {
    let alloc = rt.alloc();
    let mut arena = Arena::new(alloc)?;
    let word = shifted(&mut arena)?;
    let root = arena.test(Cond::Ltu, word, word)?;
    let (alone, twice) = counts(alloc, &mut arena, word, root)?;
    assert_eq!(rt; twice, alone);
    Ok(())
}

const ADDITIONS: u32 = 1_000;

#[test]
fn a_long_chain(rt: HostRuntime) -> Result<(), AllocError> {
    let alloc = rt.alloc();
    let mut arena = Arena::new(alloc)?;
    let sum = multiple(&mut arena, 0, ADDITIONS)?;
    // 1,001 times 200 is 200,200.
    let same = is_number(&mut arena, sum, 200_200)?;
    let gates = blasted(alloc, &arena, same)?;
    assert!(rt; outcome(alloc, &gates, &[200])?);
    assert!(rt; !outcome(alloc, &gates, &[199])?);
    Ok(())
}
