//! Registers and operations of two runs, where memory is ample.

use super::*;
use bv_expr::{Arena, ExprId, Values};
use ct_rows::Row;
use ct_words::{AluOp, Cond};
use std::alloc::{AllocError, Global};
use std::test::Fail;

#[test]
fn registers_keep_what_is_set_but_for_x0(rt: HostRuntime) -> Result<(), Fail> {
    let first = RelValue::Same(ExprId(0));
    let split = RelValue::Both(ExprId(1), ExprId(2));
    let mut registers = RelRegisters::new(rt.alloc(), ExprId(0))?;
    registers.set(0, split);
    registers.set(31, split);
    assert_eq!(rt; registers.get(0), first);
    assert_eq!(rt; registers.get(1), first);
    assert_eq!(rt; registers.get(31), split);
    Ok(())
}

// The value of an expression of an arena without inputs.
fn value(alloc: Global, arena: &Arena, id: ExprId) -> Result<Option<u32>, AllocError> {
    if id.0 < arena.nodes().len() {
        let value = arena.value(alloc, id, &Values(Row::from_vec(Vec::new(alloc))))?;
        Ok(Some(value))
    } else {
        Ok(None)
    }
}

// 7 - 3, whether 7 is below 3, and then 9 or 8, in both runs.
#[test]
fn one_expression_serves_both_runs(rt: HostRuntime) -> Result<(), Fail> {
    let mut arena = Arena::new(rt.alloc())?;
    let seven = RelValue::Same(arena.constant(32, 7)?);
    let three = RelValue::Same(arena.constant(32, 3)?);
    let difference = operate(&mut arena, AluOp::Sub, seven, three)?;
    let below = compare(&mut arena, Cond::Ltu, seven, three)?;
    let nine = RelValue::Same(arena.constant(8, 9)?);
    let eight = RelValue::Same(arena.constant(8, 8)?);
    let choice = choose(&mut arena, below.left(), nine, eight)?;
    for (answer, expected) in [(difference, 4), (below, 0), (choice, 8)] {
        assert_eq!(rt; answer.left(), answer.right());
        assert_eq!(rt; value(rt.alloc(), &arena, answer.left())?, Some(expected));
    }
    Ok(())
}
