//! Clauses on the way of a derivation.
use cnf_form::{Clause, Line, Lit, resolve};
use ct_rows::Row;
use std::alloc::{AllocError, Global};
use std::mem::swap;

/// What a chain has given so far, and room for what its next number gives.
#[derive(Debug, Drop)]
pub(crate) struct Derived {
    pub so_far: Vec<Lit>,
    pub next: Vec<Lit>,
    pub chain: Vec<u64>,
}

impl Derived {
    ghost use Rattle.std.specs.Prelude.{◌≡◌, ◌++◌, ◌∷◌, [], true, Some, IsSome, IfOk, OnOk};
    ghost use Rattle.cnf_form.specs.Clauses.{is_ascending};
    ghost use Rattle.cnf_form.specs.Resolvent.{resolvent};

    /// The copy of a clause.
    pub(crate) fn new(alloc: Global, lits: &[Lit], number: usize) -> Result<Derived, AllocError>
        ensures clause { IfOk result (λ derived. derived.so_far.items ≡ lits.now) }
        ensures chain { IfOk result (λ derived. derived.chain.items ≡ number ∷ []) }
    {
        let mut chain = Vec::new(alloc);
        chain.push(number as u64)?;
        Ok(Derived {
            so_far: Vec::from_slice(alloc, lits)?,
            next: Vec::new(alloc),
            chain,
        })
    }

    /// Resolves with a further clause.
    pub(crate) fn resolve_with(&mut self, lits: &[Lit], number: usize) -> Result<(), AllocError>
        requires { IsSome (resolvent self.old.so_far.items lits.now) }
        ensures clause { OnOk result (resolvent self.old.so_far.items lits.now ≡ Some self.new.so_far.items) }
        ensures chain { OnOk result (self.new.chain.items ≡ self.old.chain.items ++ number ∷ []) }
    {
        let _ = resolve(&mut self.next, self.so_far.as_slice(), lits)?;
        swap(&mut self.so_far, &mut self.next);
        self.chain.push(number as u64)?;
        Ok(())
    }

    pub(crate) fn into_line(self) -> Line
        requires { is_ascending self.so_far.items ≡ true }
        ensures clause { result.clause ≡ self.so_far.items }
        ensures chain { result.chain ≡ self.chain.items }
    {
        let Derived {
            so_far,
            next: _,
            chain,
        } = self;
        Line {
            clause: Clause::from_vec(so_far),
            chain: Row::from_vec(chain),
        }
    }
}
