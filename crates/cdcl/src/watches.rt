//! Which clauses watch a literal.
use crate::numbers::Numbers;
use crate::watched::Watched;
use cnf_form::Lit;
use std::alloc::{AllocError, Global};
use std::marker::Model;

/// For each literal the numbers of the clauses that may watch it: by variable, for the variable and for
/// its negation.
#[derive(Debug, Drop)]
pub(crate) struct Watches {
    plain: Vec<Numbers>,
    negated: Vec<Numbers>,
}

impl Model for Watches {
    ghost use Rattle.cdcl.specs.Watch.{Listed};

    ghost Value = { Listed };

    ghost view = { λ watches. record { plain = watches.plain.items; negated = watches.negated.items } };
}

impl Watches {
    ghost use Rattle.std.specs.Prelude.{◌≡◌, ◌<◌, OnOk, IfOk, ℕ, length, slice_index};
    ghost use Rattle.cdcl.specs.Watch.{list_of, HasRoom, AddsTo, OnlyChanges, KeepsWatching, IsBlank};

    /// Empty lists for the literals of so many variables.
    pub(crate) fn new(alloc: Global, vars: usize) -> Result<Watches, AllocError>
        ensures { IfOk result (IsBlank vars) }
    {
        let mut plain = Vec::new(alloc);
        let mut negated = Vec::new(alloc);
        for _ in 0..vars {
            plain.push(Numbers::new(alloc))?;
            negated.push(Numbers::new(alloc))?;
        }
        Ok(Watches { plain, negated })
    }

    /// How many numbers a literal's list has.
    pub(crate) fn len(&self, lit: Lit) -> usize
        requires { HasRoom self.now lit.var }
        ensures { result ≡ length (list_of self.now lit) }
    {
        if lit.negated {
            self.negated[lit.var as usize].len()
        } else {
            self.plain[lit.var as usize].len()
        }
    }

    pub(crate) fn at(&self, lit: Lit, place: usize) -> usize
        requires room { HasRoom self.now lit.var }
        requires within { place < length (list_of self.now lit) }
        ensures { result ≡ slice_index (list_of self.now lit) place }
    {
        if lit.negated {
            self.negated[lit.var as usize].at(place)
        } else {
            self.plain[lit.var as usize].at(place)
        }
    }

    /// One number more in a literal's list.
    pub(crate) fn add(&mut self, lit: Lit, number: usize) -> Result<(), AllocError>
        requires { HasRoom self.old lit.var }
        ensures { OnOk result (AddsTo self.old self.new lit number) }
    {
        if lit.negated {
            self.negated[lit.var as usize].push(number)?;
        } else {
            self.plain[lit.var as usize].push(number)?;
        }
        Ok(())
    }

    /// Drops from a literal's list the numbers of clauses that don't watch it.
    pub(crate) fn keep_watching(&mut self, pairs: &[Watched], lit: Lit)
        requires { HasRoom self.old lit.var }
        ensures others { OnlyChanges self.old self.new lit }
        ensures kept { KeepsWatching pairs.now lit (list_of self.old lit) (list_of self.new lit) }
    {
        if lit.negated {
            self.negated[lit.var as usize].keep_watching(pairs, lit);
        } else {
            self.plain[lit.var as usize].keep_watching(pairs, lit);
        }
    }
}
