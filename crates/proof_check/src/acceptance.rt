//! The acceptance of derivations.
ghost use Rattle.std.specs.Prelude.{◌≡◌, Bool, true, List, IfOk, IfErr, MatchOption};
ghost use Rattle.cnf_form.specs.Derivation.{ends_empty, IsDerivation, IsFirstUnderived, IsRefutation};
ghost use Rattle.cnf_form.specs.Solutions.{are_met};
ghost use Rattle.proof_check.specs.Rejection.{IsRejected};

use crate::chain::{Buffers, is_derived};
use crate::refutation::Refutation;
use crate::rejected::Rejected;
use cnf_form::{Clauses, Cnf, Log};
use std::alloc::{AllocError, Global};

/// Takes a derivation of the empty clause from a formula, and nothing else.
///
/// Each step of a chain takes time in the lengths of the two clauses that it resolves.
pub fn accept(alloc: Global, cnf: Cnf, log: Log) -> Result<Refutation, Rejected>
    ensures formula { IfOk result (λ refutation. refutation.formula ≡ cnf) }
    ensures log { IfOk result (λ refutation. refutation.log ≡ log) }
    ensures refuted { IfOk result (λ _. IsRefutation cnf.clauses log) }
    ensures unsolvable { IfOk result (λ _. (values : List Bool) → are_met values cnf.clauses ≡ true → ⊥) }
    ensures rejected { IfErr result (IsRejected cnf.clauses log) }
{
    match first_underived(alloc, &cnf.clauses, &log) {
        Ok(None) => {}
        Ok(Some(at)) => return Err(Rejected::BadLine(at as u64)),
        Err(_) => return Err(Rejected::Memory),
    }
    if !is_ended(&log) {
        return Err(Rejected::NotEmpty);
    }
    Ok(Refutation::new(cnf, log))
}

/// The first line that isn't derived, if there is one.
fn first_underived(alloc: Global, clauses: &Clauses, log: &Log) -> Result<Option<usize>, AllocError>
    ensures { IfOk result (λ found. MatchOption found (IsDerivation clauses.now log.now) (IsFirstUnderived clauses.now log.now)) }
{
    let mut buffers = Buffers::new(alloc);
    for at in 0..log.len() {
        if !is_derived(&mut buffers, clauses, log, at)? {
            return Ok(Some(at));
        }
    }
    Ok(None)
}

/// Whether there is a last line and its clause is empty.
fn is_ended(log: &Log) -> bool
    ensures { result ≡ ends_empty log.now }
{
    let count = log.len();
    count > 0 && log.clause(count - 1).is_empty()
}
