//! Refutations.
use cnf_form::{Cnf, Log};
use std::marker::Model;

/// A formula with a derivation of the empty clause from it, so that it has no solution.
///
/// `accept` alone makes one.
#[derive(Debug, Drop)]
pub struct Refutation {
    formula: Cnf,
    log: Log,
}

impl Model for Refutation {
    ghost use Rattle.cnf_form.specs.Derivation.{IsRefutation};
    ghost use Rattle.proof_check.specs.Refuted.{Refuted};

    ghost Value = { Refuted };

    ghost view = { λ refutation. record { formula = refutation.formula; log = refutation.log } };

    ghost invariant = { λ refutation. IsRefutation refutation.formula.clauses refutation.log };
}

impl Refutation {
    ghost use Rattle.std.specs.Prelude.{◌≡◌, Bool, true, List};
    ghost use Rattle.cnf_form.specs.Derivation.{IsRefutation};
    ghost use Rattle.cnf_form.specs.Solutions.{are_met};

    pub(crate) fn new(formula: Cnf, log: Log) -> Refutation
        requires { IsRefutation formula.clauses log }
        ensures formula { result.formula ≡ formula }
        ensures log { result.log ≡ log }
        ensures unsolvable { (values : List Bool) → are_met values formula.clauses ≡ true → ⊥ }
    {
        Refutation { formula, log }
    }

    /// The formula, which has no solution.
    pub fn formula(&self) -> &Cnf
        ensures formula { result.now ≡ self.now.formula }
        ensures refuted { IsRefutation self.now.formula.clauses self.now.log }
        ensures unsolvable { (values : List Bool) → are_met values self.now.formula.clauses ≡ true → ⊥ }
    {
        let _ = &self.log;
        &self.formula
    }

    /// The derivation of the empty clause.
    pub fn log(&self) -> &Log
        ensures { result.now ≡ self.now.log }
    {
        &self.log
    }
}
