//! The formula of a list of gates.
ghost use Rattle.std.specs.Prelude.{ℕ, ◌≡◌, ◌<◌, ◌^◌, ◌++◌, ◌&&◌, List, Bool, Some, [], length, slice_get, IfOk, OnOk, All};
ghost use Rattle.gate_form.specs.declared.wire.Gate.{Gate};
ghost use Rattle.gate_form.specs.Net.{bit, AreIn, AreOperands};
ghost use Rattle.cnf_form.specs.Encoding.{gate_value, IsEncoding};
ghost use Rattle.cnf_form.specs.Literals.{same_sign};
ghost use Rattle.cnf_form.specs.Solutions.{are_met};
ghost use Rattle.cnf_form.specs.Writing.{IsBegun, IsWritten, lit_of, operand_gates};

use crate::cnf::Cnf;
use crate::lit::Lit;
use gate_form::{Gates, TRUE, Wire};
use std::alloc::{AllocError, Global};

/// A formula with a variable for each gate, of the number of the gate. Its solutions, read at the
/// inputs by `read_inputs`, are exactly the inputs that make all roots true.
///
/// It has three clauses for each conjunction on which the roots depend, one for each root and one more,
/// and none for the other gates. Gates beyond 2^32 are answered as want of memory.
pub fn encode(alloc: Global, gates: &Gates, roots: &[Wire]) -> Result<Cnf, AllocError>
    requires { AreIn gates.now roots.now }
    ensures vars { IfOk result (λ cnf. cnf.vars ≡ length gates.now) }
    ensures solutions { IfOk result (λ cnf. IsEncoding gates.now roots.now cnf.clauses) }
{
    gates.net_law();
    if gates.size() > u32::MAX as usize {
        return Err(AllocError);
    }
    let mut cnf = Cnf::new(alloc, gates.size() as u64);
    let mut below = Vec::new(alloc);
    push_roots(&mut cnf, roots, &mut below)?;
    let mut seen = vec![in alloc; false; gates.size()]?;
    while let Some(gate) = below.pop() {
        if seen[gate] {
            continue;
        }
        seen[gate] = true;
        push_gate(&mut cnf, gates, gate, &mut below)?;
    }
    Ok(cnf)
}

// A clause for gate 0 and for each root, and the gates of the roots.
fn push_roots(cnf: &mut Cnf, roots: &[Wire], below: &mut Vec<usize>) -> Result<(), AllocError>
    requires few { cnf.old.vars < 2 ^ 32 }
    requires some { 0 < cnf.old.vars }
    requires roots { All (λ w. w.gate < cnf.old.vars) roots.now }
    requires clauses { cnf.old.clauses ≡ [] }
    requires below { below.old.items ≡ [] }
    ensures vars { cnf.new.vars ≡ cnf.old.vars }
    ensures begun { OnOk result (IsBegun cnf.old.vars roots.now cnf.new.clauses below.new.items) }
{
    cnf.push(&[lit(TRUE)])?;
    for root in roots {
        cnf.push(&[lit(*root)])?;
        below.push(root.gate)?;
    }
    Ok(())
}

// The clauses of a gate, and the gates of its operands.
fn push_gate(
    cnf: &mut Cnf,
    gates: &Gates,
    gate: usize,
    below: &mut Vec<usize>,
) -> Result<(), AllocError>
    requires few { length gates.now < 2 ^ 32 }
    requires vars { cnf.old.vars ≡ length gates.now }
    requires gate { gate < length gates.now }
    ensures vars { cnf.new.vars ≡ cnf.old.vars }
    ensures written { OnOk result (IsWritten gates.now gate cnf.old.clauses cnf.new.clauses) }
    ensures below { OnOk result ((g : Gate) → slice_get gates.now gate ≡ Some g → below.new.items ≡ below.old.items ++ operand_gates g) }
{
    gates.net_law();
    if let Some((a, b)) = gates.operands(gate) {
        push_conjunction(cnf, gate, a, b)?;
        below.push(a.gate)?;
        below.push(b.gate)?;
    }
    Ok(())
}

// The three clauses of a conjunction.
fn push_conjunction(cnf: &mut Cnf, gate: usize, a: Wire, b: Wire) -> Result<(), AllocError>
    requires few { cnf.old.vars < 2 ^ 32 }
    requires gate { gate < cnf.old.vars }
    requires operands { AreOperands a b gate }
    ensures vars { cnf.new.vars ≡ cnf.old.vars }
    ensures value { OnOk result ((values : List Bool) → length values ≡ cnf.old.vars → are_met values cnf.new.clauses ≡ (are_met values cnf.old.clauses && same_sign (gate_value values gate) (bit (gate_value values) a && bit (gate_value values) b))) }
{
    let on = lit(Wire {
        gate,
        negated: false,
    });
    let off = lit(Wire {
        gate,
        negated: true,
    });
    cnf.push(&[lit(a), off])?;
    cnf.push(&[lit(b), off])?;
    let not_a = lit(Gates::not(a));
    let not_b = lit(Gates::not(b));
    if a.gate < b.gate {
        cnf.push(&[not_a, not_b, on])?;
    } else {
        cnf.push(&[not_b, not_a, on])?;
    }
    Ok(())
}

// The literal of a wire.
fn lit(w: Wire) -> Lit
    requires { w.gate < 2 ^ 32 }
    ensures { result ≡ lit_of w }
{
    Lit {
        var: w.gate as u32,
        negated: w.negated,
    }
}
