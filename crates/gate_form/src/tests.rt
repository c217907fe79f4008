//! The rules of conjunctions, and that equal gates are shared.

use super::*;
use std::alloc::AllocError;

// Two operands and the answer that a rule gives, by their places among TRUE, FALSE, a, not a, b, not b.
const RULES: [(usize, usize, usize); 10] = [
    (2, 2, 2),
    (3, 3, 3),
    (2, 3, 1),
    (5, 4, 1),
    (0, 4, 4),
    (3, 0, 3),
    (1, 4, 1),
    (5, 1, 1),
    (0, 0, 0),
    (0, 1, 1),
];

#[test]
fn rules(rt: HostRuntime) -> Result<(), AllocError> {
    let mut gates = Gates::new(rt.alloc())?;
    let a = gates.input()?;
    let b = gates.input()?;
    let wires = [TRUE, FALSE, a, Gates::not(a), b, Gates::not(b)];
    for (left, right, expected) in RULES.iter() {
        let (x, y) = (wires.get(*left).copied(), wires.get(*right).copied());
        match (x, y) {
            (Some(x), Some(y)) if x.gate < gates.size() && y.gate < gates.size() => {
                let answer = gates.and(x, y)?;
                assert_eq!(rt; Some(answer), wires.get(*expected).copied());
            }
            _ => assert!(rt; false, "a row names no wire"),
        }
    }
    assert_eq!(rt; gates.size(), 3);
    Ok(())
}

#[test]
fn sharing(rt: HostRuntime) -> Result<(), AllocError> {
    let mut gates = Gates::new(rt.alloc())?;
    let a = gates.input()?;
    let b = gates.input()?;
    let both = gates.and(a, Gates::not(b))?;
    let again = gates.and(a, Gates::not(b))?;
    assert_eq!(rt; again, both);
    assert_eq!(rt; gates.size(), 4);
    assert_eq!(rt; gates.operands(3), Some((a, Gates::not(b))));
    assert_eq!(rt; gates.operands(2), None);
    Ok(())
}
