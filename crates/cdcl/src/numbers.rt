//! Lists of clause numbers.
ghost use Rattle.std.specs.Prelude.{◌≡◌, false};
ghost use Rattle.cdcl.specs.Watch.{KeepsWatching, NotWatching};

use crate::watched::Watched;
use cnf_form::Lit;
use std::alloc::{AllocError, Global};
use std::marker::Model;

/// Numbers of clauses. Contracts see the list of them.
#[derive(Debug, Drop)]
pub(crate) struct Numbers {
    items: Vec<usize>,
}

impl Model for Numbers {
    ghost use Rattle.std.specs.Prelude.{ℕ, List};

    ghost Value = { List ℕ };

    ghost view = { λ numbers. numbers.items.items };
}

impl Numbers {
    ghost use Rattle.std.specs.Prelude.{◌≡◌, ◌<◌, ◌++◌, ◌∷◌, [], OnOk, length, slice_index};
    ghost use Rattle.cdcl.specs.Watch.{KeepsWatching};

    pub(crate) fn new(alloc: Global) -> Numbers
        ensures { result ≡ [] }
    {
        Numbers {
            items: Vec::new(alloc),
        }
    }

    pub(crate) fn len(&self) -> usize
        ensures { result ≡ length self.now }
    {
        self.items.len()
    }

    pub(crate) fn at(&self, place: usize) -> usize
        requires { place < length self.now }
        ensures { result ≡ slice_index self.now place }
    {
        self.items[place]
    }

    pub(crate) fn push(&mut self, number: usize) -> Result<(), AllocError>
        ensures { OnOk result (self.new ≡ self.old ++ number ∷ []) }
    {
        self.items.push(number)?;
        Ok(())
    }

    /// Drops the numbers of clauses that don't watch a literal.
    pub(crate) fn keep_watching(&mut self, pairs: &[Watched], lit: Lit)
        ensures { KeepsWatching pairs.now lit self.old self.new }
    {
        keep_watching(&mut self.items, pairs, lit);
    }
}

/// Drops the numbers of pairs that don't have a literal.
fn keep_watching(items: &mut Vec<usize>, pairs: &[Watched], lit: Lit)
    ensures { KeepsWatching pairs.now lit items.old.items items.new.items }
{
    let mut kept = 0;
    for place in 0..items.len() {
        let number = items[place];
        if is_watching(pairs, number, lit) {
            items[kept] = number;
            kept += 1;
        }
    }
    items.truncate(kept);
}

/// Whether the numbered pair has a literal.
fn is_watching(pairs: &[Watched], number: usize, lit: Lit) -> bool
    ensures { result ≡ false → NotWatching pairs.now lit number }
{
    match pairs.get(number) {
        Some(watched) => watched.other_than(lit).is_some(),
        None => false,
    }
}
