//! Formulas.
ghost use Rattle.std.specs.Prelude.{◌≡◌, true};
ghost use Rattle.cnf_form.specs.Clauses.{are_clauses};

use crate::clauses::Clauses;
use crate::lit::Lit;
use std::alloc::{AllocError, Global};

/// A formula in conjunctive normal form: clauses over the variables below `vars`.
#[derive(Debug, Drop)]
pub struct Cnf {
    pub vars: u64,
    pub clauses: Clauses,
    pub ghost in_range: { are_clauses vars clauses ≡ true },
}

impl Cnf {
    ghost use Rattle.std.specs.Prelude.{◌≡◌, ◌++◌, ◌∷◌, [], true, OnOk, OnErr};
    ghost use Rattle.cnf_form.specs.Clauses.{is_clause};

    /// A formula without clauses.
    pub fn new(alloc: Global, vars: u64) -> Cnf
        ensures vars { result.vars ≡ vars }
        ensures clauses { result.clauses ≡ [] }
    {
        Cnf {
            vars,
            clauses: Clauses::new(alloc),
        }
    }

    /// One clause more, at the end. `is_clause` tests its condition.
    pub fn push(&mut self, lits: &[Lit]) -> Result<(), AllocError>
        requires { is_clause self.old.vars lits.now ≡ true }
        ensures vars { self.new.vars ≡ self.old.vars }
        ensures pushed { OnOk result (self.new.clauses ≡ self.old.clauses ++ lits.now ∷ []) }
        ensures kept { OnErr result (self.new.clauses ≡ self.old.clauses) }
    {
        self.clauses.push(lits)?;
        Ok(())
    }
}
