//! Passes for trials: one that changes nothing, and one that fails at a chosen call.

ghost use Rattle.std.specs.Prelude.{◌≡◌, ◌+◌, ◌-◌, ◌^◌, ◌<◌, length, min, nat_lt, None, IfOk, OnErr, IsErr, IsOk, IsTrue};
ghost use Rattle.bv_expr.specs.Folding.{constant_in};
ghost use Rattle.bv_expr.specs.Growth.{Extends, AddsNoInput};
ghost use Rattle.bv_passes.specs.Answering.{IsAnswer};
ghost use Rattle.bv_passes.specs.Counting.{counted};

use crate::pass::{MOST_NEW, Pass};
use bv_expr::{Arena, ExprId};
use std::alloc::{AllocError, Global};

/// Answers each expression itself.
#[derive(Debug, Drop)]
pub struct Idle;

impl Idle {
    pub fn new(_alloc: Global) -> Result<Idle, AllocError> {
        Ok(Idle)
    }
}

impl Pass for Idle {
    ghost count = { λ pass. 0 };

    fn apply(&mut self, _arena: &mut Arena, id: ExprId) -> Result<ExprId, AllocError>
        requires inside { id.0 < length _arena.old }
        requires varies { constant_in _arena.old id.0 ≡ None }
        ensures same { IfOk result (λ answer. answer.0 ≡ id.0) }
        ensures answer { IfOk result (λ answer. IsAnswer _arena.old _arena.new id.0 answer.0) }
        ensures extends { Extends _arena.old _arena.new MOST_NEW }
        ensures no_input { AddsNoInput _arena.old _arena.new }
        ensures unchanged { _arena.new ≡ _arena.old }
    {
        Ok(id)
    }

    fn changed(&self) -> u64
        ensures { result ≡ 0 }
    {
        0
    }
}

/// Fails at the call of a chosen number, counted from 0, and else answers each expression itself.
#[derive(Debug, Drop)]
pub struct RefuseAt {
    /// How many calls are left before the one that fails.
    left: Option<u64>,
}

impl RefuseAt {
    pub fn new(_alloc: Global, call: u64) -> Result<RefuseAt, AllocError> {
        Ok(RefuseAt { left: Some(call) })
    }
}

impl Pass for RefuseAt {
    ghost count = { λ pass. 0 };

    fn apply(&mut self, _arena: &mut Arena, id: ExprId) -> Result<ExprId, AllocError>
        requires inside { id.0 < length _arena.old }
        requires varies { constant_in _arena.old id.0 ≡ None }
        ensures same { IfOk result (λ answer. answer.0 ≡ id.0) }
        ensures answer { IfOk result (λ answer. IsAnswer _arena.old _arena.new id.0 answer.0) }
        ensures extends { Extends _arena.old _arena.new MOST_NEW }
        ensures no_input { AddsNoInput _arena.old _arena.new }
        ensures unchanged { _arena.new ≡ _arena.old }
    {
        match self.left {
            Some(0) => {
                self.left = None;
                Err(AllocError)
            }
            Some(calls) => {
                self.left = Some(calls - 1);
                Ok(id)
            }
            None => Ok(id),
        }
    }

    fn changed(&self) -> u64
        ensures { result ≡ 0 }
    {
        0
    }
}
