//! Passes over expressions.

ghost use Rattle.std.specs.Prelude.{◌≡◌, ℕ, ◌<◌, length, None, IfOk, OnErr};
ghost use Rattle.bv_expr.specs.Folding.{constant_in};
ghost use Rattle.bv_expr.specs.Growth.{Extends, AddsNoInput};
ghost use Rattle.bv_passes.specs.Answering.{IsAnswer};
ghost use Rattle.bv_passes.specs.Counting.{counted};

use bv_expr::{Arena, ExprId};
use std::alloc::AllocError;

/// How many nodes one call of a pass adds at most.
pub const MOST_NEW: usize = 4;

/// What replaces expressions by simpler ones of the same value.
pub trait Pass: Drop {
    /// How many calls of `apply` gave another expression than they were given.
    ghost count: { Self → ℕ };

    /// An expression of the same width and the same value, whatever bytes the inputs are, for one
    /// that is no constant. What the arena has stays, also where memory is short.
    fn apply(&mut self, arena: &mut Arena, id: ExprId) -> Result<ExprId, AllocError>
        requires inside { id.0 < length arena.old }
        requires varies { constant_in arena.old id.0 ≡ None }
        ensures answer { IfOk result (λ answer. IsAnswer arena.old arena.new id.0 answer.0) }
        ensures extends { Extends arena.old arena.new MOST_NEW }
        ensures no_input { AddsNoInput arena.old arena.new }
        ensures counts { IfOk result (λ answer. count self.new ≡ counted id.0 answer.0 (count self.old)) }
        ensures refused { OnErr result (count self.new ≡ count self.old) };

    /// How many calls of `apply` gave another expression than they were given. The count stands
    /// still at 2^64 - 1.
    fn changed(&self) -> u64
        ensures { result ≡ count self.now };
}

/// The passes that are applied to an expression one after another.
pub type Kit = Vec<Box<dyn Pass + Send>>;
