//! Expressions as gates.
ghost use Rattle.std.specs.Prelude.{ℕ, Bool, ◌≡◌, ◌+◌, ◌*◌, ◌≤◌, length, IfOk, All};
ghost use Rattle.gate_form.specs.Net.{input_count};
ghost use Rattle.gate_form.specs.Run.{HasInputs};
ghost use Rattle.bv_expr.specs.Nodes.{HasWidth, AreBytes};
ghost use Rattle.bv_expr.specs.Typing.{IsTyped};
ghost use Rattle.bit_blast.specs.Roots.{AreRoots, AreApart, numbers};
ghost use Rattle.bit_blast.specs.Bytes.{HasBytes};
ghost use Rattle.bit_blast.specs.Spelling.{spelled};
ghost use Rattle.bit_blast.specs.Cone.{HasCone, chosen_below};

use crate::blaster::Blaster;
use crate::limits::NODE_GATES;
use bv_expr::{Arena, ExprId, QNode};
use gate_form::{Gates, Wire};
use std::alloc::{AllocError, Global};

/// Gates with a wire for each root. Gate input 8 i + b is bit b of the variable `vars[i]`.
#[derive(Drop)]
pub struct Blasted {
    pub gates: Gates,
    pub roots: Vec<Wire>,
    pub vars: Vec<usize>,
}

impl Blasted {
    /// Law: each assignment of the inputs spells a byte for each variable, and has its bits.
    pub fn bytes_law(&self)
        requires inputs { input_count self.now.gates ≡ 8 * length self.now.vars.items }
        requires vars { AreApart self.now.vars.items }
        ensures bytes { (x : ℕ → Bool) → AreBytes (spelled x self.now.vars.items) }
        ensures spelled { (x v : ℕ → Bool) → HasInputs x v self.now.gates → HasBytes (spelled x self.now.vars.items) v self.now.gates self.now.vars.items }
    {
        self.gates.net_law();
    }
}

/// The gates of a list of nodes, each of which comes after its operands, for roots of one bit.
///
/// Only the nodes on which the roots depend take time, memory and gates.
pub fn blast_nodes(alloc: Global, nodes: &[QNode], roots: &[usize]) -> Result<Blasted, AllocError>
    requires typed { IsTyped nodes.now }
    requires roots { All (λ r. HasWidth nodes.now r 1) roots.now }
    ensures roots { IfOk result (λ b. AreRoots nodes.now roots.now b.gates b.vars.items b.roots.items) }
    ensures inputs { IfOk result (λ b. input_count b.gates ≡ 8 * length b.vars.items) }
    ensures vars { IfOk result (λ b. AreApart b.vars.items) }
    ensures few { IfOk result (λ b. (chosen : ℕ → Bool) → HasCone nodes.now roots.now chosen → length b.gates ≤ 1 + NODE_GATES * chosen_below chosen (length nodes.now)) }
{
    let mut blaster = Blaster::new(alloc, nodes)?;
    blaster.visit_all(alloc, nodes, roots)?;
    let wires = blaster.wires(alloc, nodes, roots)?;
    let Blaster { gates, vars, .. } = blaster;
    Ok(Blasted {
        gates,
        roots: wires,
        vars,
    })
}

/// The gates of expressions of one bit.
///
/// Only the nodes on which the expressions depend take time, memory and gates.
pub fn blast(alloc: Global, arena: &Arena, roots: &[ExprId]) -> Result<Blasted, AllocError>
    requires { All (λ r. HasWidth arena.now r.0 1) roots.now }
    ensures roots { IfOk result (λ b. AreRoots arena.now (numbers roots.now) b.gates b.vars.items b.roots.items) }
    ensures inputs { IfOk result (λ b. input_count b.gates ≡ 8 * length b.vars.items) }
    ensures vars { IfOk result (λ b. AreApart b.vars.items) }
    ensures few { IfOk result (λ b. (chosen : ℕ → Bool) → HasCone arena.now (numbers roots.now) chosen → length b.gates ≤ 1 + NODE_GATES * chosen_below chosen (length arena.now)) }
{
    let numbers = numbers_of(alloc, roots)?;
    let blasted = blast_nodes(alloc, arena.nodes(), numbers.as_slice())?;
    Ok(blasted)
}

fn numbers_of(alloc: Global, roots: &[ExprId]) -> Result<Vec<usize>, AllocError>
    ensures { IfOk result (λ r. r.items ≡ numbers roots.now) }
{
    roots.iter().map(|root| root.0).collect(alloc)
}
