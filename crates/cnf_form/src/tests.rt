//! Solutions of encoded gates.

ghost use Rattle.gate_form.specs.Net.{AreIn};

use super::*;
use ct_rows::Row;
use gate_form::{Gates, Wire};
use std::alloc::{AllocError, Global};

// The values of the inputs in each solution of the roots' formula over four gates.
fn solutions(alloc: Global, gates: &Gates, roots: &[Wire]) -> Result<Vec<Vec<bool>>, AllocError>
    requires { AreIn gates.now roots.now }
{
    let cnf = encode(alloc, gates, roots)?;
    let mut all = Vec::new(alloc);
    for number in 0..16u32 {
        let bits = [
            number % 2 == 1,
            number / 2 % 2 == 1,
            number / 4 % 2 == 1,
            number / 8 == 1,
        ];
        let found = Assignment {
            values: Row::from_vec(Vec::from_slice(alloc, &bits)?),
        };
        if cnf.vars <= 4 && gates.size() <= 4 && meets(&cnf, &found) {
            all.push(read_inputs(alloc, gates, &found)?)?;
        }
    }
    Ok(all)
}

#[test]
fn solutions_of_a_conjunction(rt: HostRuntime) -> Result<(), AllocError> {
    let alloc = rt.alloc();
    let mut gates = Gates::new(alloc)?;
    let a = gates.input()?;
    let b = gates.input()?;
    let w = gates.and(a, b)?;
    let found = solutions(alloc, &gates, &[w])?;
    assert_eq!(rt; found.len(), 1);
    assert!(rt;
        found
            .iter()
            .all(|inputs| inputs.as_slice() == [true, true].as_slice())
    );
    let none = solutions(alloc, &gates, &[w, Gates::not(w)])?;
    assert_eq!(rt; none.len(), 0);
    let free = solutions(alloc, &gates, &[Gates::not(a)])?;
    assert_eq!(rt; free.len(), 4);
    Ok(())
}
