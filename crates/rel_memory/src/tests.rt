//! Writes and reads at numbers and at addresses that depend on an input.

ghost use Rattle.std.specs.Prelude.{IfOk};
ghost use Rattle.bv_expr.specs.Nodes.{HasWidth};

use super::*;
use bv_expr::{Arena, BYTE, ExprId, Values, WORD};
use bv_range::Ranges;
use ct_rows::Row;
use ct_words::AluOp;
use elf_load::{Elf, Segment};
use rel_store::RelValue;
use rv_image::{Image, Right};
use std::alloc::{AllocError, Global};
use std::test::Fail;

const BASE: u32 = 0x2_0000;

// Four bytes at 0x20000 that may be read and written.
const LOADED: [u8; 4] = [10, 11, 12, 13];

fn four_bytes(alloc: Global) -> Result<Image, AllocError> {
    let mut segments = Vec::new(alloc);
    segments.push(Segment {
        address: BASE,
        bytes: Row::from_vec(Vec::from_slice(alloc, &LOADED)?),
        read: true,
        write: true,
        exec: false,
    })?;
    let elf = Elf {
        segments: Row::from_vec(segments),
        entry: BASE,
        symbols: Row::from_vec(Vec::new(alloc)),
    };
    Image::build(alloc, &elf, &[])
}

// 0x20000 and the two lowest bits of the input.
fn at_input(arena: &mut Arena) -> Result<ExprId, AllocError>
    ensures { IfOk result (λ id. HasWidth arena.new id.0 32) }
{
    let input = arena.input(0)?;
    let zero = arena.constant(BYTE, 0)?;
    let word = arena.join(input, zero, zero, zero)?;
    let three = arena.constant(WORD, 3)?;
    let low = arena.alu(AluOp::And, word, three)?;
    let base = arena.constant(WORD, BASE)?;
    let address = arena.alu(AluOp::Add, low, base)?;
    Ok(address)
}

fn input_is(alloc: Global, byte: u8) -> Result<Values, AllocError> {
    Ok(Values(Row::from_vec(vec![in alloc; byte]?)))
}

#[test]
fn a_write_at_the_input(rt: HostRuntime) -> Result<(), Fail> {
    let alloc = rt.alloc();
    let mut arena = Arena::new(alloc)?;
    let mut ranges = Ranges::new(alloc)?;
    let mut memory = RelMemory::new(alloc, &four_bytes(alloc)?)?;
    let address = at_input(&mut arena)?;
    let nine = arena.constant(BYTE, 9)?;
    let third = arena.constant(WORD, BASE + 2)?;
    memory.write_byte(&arena, address, RelValue::Same(nine))?;
    let byte = memory.read_byte(&mut arena, &mut ranges, third)?.left();
    for (input, expected) in [(2, 9), (1, 12), (6, 9)] {
        let values = input_is(alloc, input)?;
        assert_eq!(rt; arena.value(alloc, byte, &values)?, expected, "at {input}");
    }
    Ok(())
}

#[test]
fn a_selection(rt: HostRuntime) -> Result<(), Fail> {
    let alloc = rt.alloc();
    let mut arena = Arena::new(alloc)?;
    let mut ranges = Ranges::new(alloc)?;
    let memory = RelMemory::new(alloc, &four_bytes(alloc)?)?;
    let address = at_input(&mut arena)?;
    let byte = memory.read_byte(&mut arena, &mut ranges, address)?.right();
    for (input, expected) in [(0, 10), (1, 11), (2, 12), (3, 13), (7, 13)] {
        let values = input_is(alloc, input)?;
        assert_eq!(rt; arena.value(alloc, byte, &values)?, expected, "at {input}");
    }
    Ok(())
}

#[test]
fn four_bytes_pass_the_end(rt: HostRuntime) -> Result<(), Fail> {
    let alloc = rt.alloc();
    let mut arena = Arena::new(alloc)?;
    let mut ranges = Ranges::new(alloc)?;
    let memory = RelMemory::new(alloc, &four_bytes(alloc)?)?;
    let address = at_input(&mut arena)?;
    let four = memory.allowed(&mut arena, &mut ranges, address, 4, Right::Read)?;
    for (input, expected) in [(0, 1), (1, 0), (3, 0)] {
        let values = input_is(alloc, input)?;
        assert_eq!(rt; arena.value(alloc, four, &values)?, expected, "at {input}");
    }
    Ok(())
}
