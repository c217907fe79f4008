//! The list of gates.

use crate::rules::rule;
use crate::wire::{Gate, Wire};
use indexmap::IndexSet;
use std::alloc::{AllocError, Global};
use std::marker::Model;

/// A list of gates that only grows. Gate 0 is the constant true.
///
/// A gate takes 40 bytes and its place in a hash table, about 60 in all.
#[derive(Drop)]
pub struct Gates {
    gates: IndexSet<Gate>,
    inputs: usize,
}

impl Model for Gates {
    ghost use Rattle.std.specs.Prelude.{List, ◌≡◌};
    ghost use Rattle.gate_form.specs.declared.wire.Gate.{Gate};
    ghost use Rattle.gate_form.specs.Net.{IsNet, input_count};

    ghost Value = { List Gate };

    ghost view = { λ net. net.gates.keys };

    ghost invariant = { λ net. IsNet net.gates.keys × (net.inputs ≡ input_count net.gates.keys) };
}

impl Gates {
    ghost use Rattle.std.specs.Prelude.{◌≡◌, ℕ, ◌+◌, ◌<◌, Bool, false, not, ◌&&◌, length, IfOk, OnOk, OnErr, slice_get, [], ◌∷◌, ◌++◌};
    ghost use Rattle.std.specs.Option.{option_and_then};
    ghost use Rattle.gate_form.specs.declared.wire.Gate.{Gate};
    ghost use Rattle.gate_form.specs.Net.{bit, negated, operands_of, input_count, AreOperands, IsNet};
    ghost use Rattle.gate_form.specs.Rules.{conjoined, IsConjunction, with_and};
    ghost use Rattle.gate_form.specs.Run.{IsRun, Keeps, Grows};
    ghost use Rattle.gate_form.specs.Values.{RunOf, HasOneRun};

    /// The list of gate 0 alone.
    pub fn new(alloc: Global) -> Result<Gates, AllocError>
        ensures { IfOk result (λ gates. gates ≡ Gate.True ∷ []) }
    {
        let mut gates = IndexSet::new(alloc);
        gates.insert(Gate::True)?;
        Ok(Gates { gates, inputs: 0 })
    }

    /// A new input at the end of the list. Inputs are numbered from 0 in the order in which they come.
    pub fn input(&mut self) -> Result<Wire, AllocError>
        ensures appended { OnOk result (self.new ≡ self.old ++ Gate.Input (input_count self.old) ∷ []) }
        ensures wire { IfOk result (λ w. w ≡ record { gate = length self.old; negated = false }) }
        ensures refused { OnErr result (self.new ≡ self.old) }
        ensures kept { Keeps self.old self.new }
    {
        let gate = self.gates.len();
        self.gates.insert(Gate::Input(self.inputs))?;
        self.inputs += 1;
        Ok(Wire {
            gate,
            negated: false,
        })
    }

    /// The conjunction of two wires: by one of the four local rules where one applies, else an equal
    /// gate where the list has one, and else a new gate at the end.
    pub fn and(&mut self, a: Wire, b: Wire) -> Result<Wire, AllocError>
        requires left { a.gate < length self.old }
        requires right { b.gate < length self.old }
        ensures conjoined { OnOk result (self.new ≡ conjoined self.old a b) }
        ensures wire { IfOk result (λ w. IsConjunction self.new a b w) }
        ensures value { IfOk result (λ w. (v : ℕ → Bool) → IsRun v self.new → bit v w ≡ (bit v a && bit v b)) }
        ensures inside { IfOk result (λ w. w.gate < length self.new) }
        ensures refused { OnErr result (self.new ≡ self.old) }
        ensures grows { Grows self.old self.new 1 }
    {
        match rule(a, b) {
            Some(wire) => Ok(wire),
            None => {
                let gate = self.add(a, b)?;
                Ok(Wire {
                    gate,
                    negated: false,
                })
            }
        }
    }

    /// The negation of a wire. It takes no gate.
    pub fn not(w: Wire) -> Wire
        ensures wire { result ≡ negated w }
        ensures gate { result.gate ≡ w.gate }
        ensures value { (v : ℕ → Bool) → bit v result ≡ not (bit v w) }
    {
        Wire {
            gate: w.gate,
            negated: !w.negated,
        }
    }

    /// How many gates there are, gate 0 and the inputs among them.
    pub fn size(&self) -> usize
        ensures { result ≡ length self.now }
    {
        self.gates.len()
    }

    /// The two wires of a conjunction; `None` for gate 0 and for inputs.
    pub fn operands(&self, gate: usize) -> Option<(Wire, Wire)>
        requires { gate < length self.now }
        ensures { result ≡ option_and_then operands_of (slice_get self.now gate) }
    {
        match self.gates.get_index(gate) {
            Some(Gate::And(a, b)) => Some((*a, *b)),
            _ => None,
        }
    }

    /// Law: every list of gates is well formed, and so has gate 0.
    pub fn net_law(&self)
        ensures net { IsNet self.now }
        ensures some { 0 < length self.now }
    {
        let _size = self.gates.len();
    }

    /// Law: under each assignment of the inputs the gates have values, and these alone.
    #[tactic(auto, using(crate::specs::Values::run_of))]
    pub fn run_law(&self)
        ensures exists { (x : ℕ → Bool) → RunOf x self.now }
        ensures unique { (x : ℕ → Bool) → HasOneRun x self.now }
    {
        let _size = self.gates.len();
    }

    // The index of a conjunction, which is added where there is none yet.
    fn add(&mut self, a: Wire, b: Wire) -> Result<usize, AllocError>
        requires { AreOperands a b (length self.old) }
        ensures stored { IfOk result (λ i. slice_get self.new i ≡ Some (Gate.And a b)) }
        ensures kept { OnOk result (self.new ≡ with_and self.old a b) }
        ensures refused { OnErr result (self.new ≡ self.old) }
        ensures grows { Grows self.old self.new 1 }
    {
        let (index, _) = self.gates.insert_full(Gate::And(a, b))?;
        Ok(index)
    }
}
