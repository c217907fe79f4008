//! Lists of clauses.
use crate::lists::Lists;
use crate::lit::Lit;
use std::alloc::{AllocError, Global};
use std::marker::Model;

/// Clauses, numbered from 0. Contracts see a list of lists of literals.
///
/// All literals are kept in one vector: a clause costs eight bytes a literal and eight more.
#[derive(Debug, Drop)]
pub struct Clauses {
    lists: Lists<Lit>,
}

impl Model for Clauses {
    ghost use Rattle.std.specs.Prelude.{◌≡◌, true, List};
    ghost use Rattle.cnf_form.specs.declared.lit.Lit.{Lit};
    ghost use Rattle.cnf_form.specs.Clauses.{are_ascending};

    ghost Value = { List (List Lit) };

    ghost view = { λ clauses. clauses.lists };

    ghost invariant = { λ clauses. are_ascending clauses.lists ≡ true };
}

impl Clauses {
    ghost use Rattle.std.specs.Prelude.{◌≡◌, ◌<◌, ◌++◌, ◌∷◌, [], true, Some, length, slice_get, OnOk, OnErr};
    ghost use Rattle.cnf_form.specs.Clauses.{is_ascending, are_ascending};

    pub fn new(alloc: Global) -> Clauses
        ensures { result ≡ [] }
    {
        Clauses {
            lists: Lists::new(alloc),
        }
    }

    pub fn len(&self) -> usize
        ensures length { result ≡ length self.now }
        ensures ascending { are_ascending self.now ≡ true }
    {
        self.lists.len()
    }

    /// One clause more, at the end.
    pub fn push(&mut self, lits: &[Lit]) -> Result<(), AllocError>
        requires { is_ascending lits.now ≡ true }
        ensures pushed { OnOk result (self.new ≡ self.old ++ lits.now ∷ []) }
        ensures kept { OnErr result (self.new ≡ self.old) }
    {
        self.lists.push(lits)?;
        Ok(())
    }

    /// The literals of the clause with a number.
    pub fn get(&self, number: usize) -> &[Lit]
        requires { number < length self.now }
        ensures clause { slice_get self.now number ≡ Some result.now }
        ensures ascending { is_ascending result.now ≡ true }
    {
        self.lists.get(number)
    }
}
