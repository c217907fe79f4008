//! The inputs of a solution.
ghost use Rattle.std.specs.Prelude.{◌≡◌, ◌≤◌, length, IfOk};
ghost use Rattle.cnf_form.specs.Encoding.{AreInputs};

use crate::assignment::Assignment;
use gate_form::Gates;
use std::alloc::{AllocError, Global};

/// The values of the inputs, by their numbers. Takes time in the number of the gates.
pub fn read_inputs(
    alloc: Global,
    gates: &Gates,
    found: &Assignment,
) -> Result<Vec<bool>, AllocError>
    requires { length gates.now ≤ length found.now.values }
    ensures { IfOk result (λ inputs. AreInputs gates.now found.now.values inputs.items) }
{
    gates.net_law();
    let values = found.values.as_slice();
    let mut inputs = Vec::new(alloc);
    for gate in 1..gates.size() {
        if gates.operands(gate).is_some() {
            continue;
        }
        inputs.push(values[gate])?;
    }
    Ok(inputs)
}
