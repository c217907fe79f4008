//! One search for bytes that meet a question.
ghost use Rattle.std.specs.Prelude.{◌≡◌, Bool, true, List, IfOk};
ghost use Rattle.cnf_form.specs.Derivation.{IsRefutation};
ghost use Rattle.cnf_form.specs.Solutions.{are_met};
ghost use Rattle.query_ask.specs.Parts.{IsAttempt};

use crate::formula::{Formula, formula_of};
use crate::question::Question;
use crate::values_of::values_of;
use bv_expr::Values;
use cdcl::{Searched, search};
use cnf_form::{Cnf, Log};
use proof_check::{Refutation, Rejected, accept};
use std::alloc::{AllocError, Global};

/// What one search says of a question.
#[derive(Drop)]
pub(crate) enum Attempt {
    /// These values meet it.
    Met(Values),
    /// No values do.
    Refuted(Refutation),
    /// Nothing. The formula is the question's, and the log is spent for it.
    Spent(Cnf, Log),
}

/// What a search says of a question, which may learn at most `budget` lines.
pub(crate) fn search_for(
    alloc: Global,
    question: &Question,
    budget: u64,
) -> Result<Attempt, AllocError>
    ensures { IfOk result (IsAttempt question.now budget) }
{
    let formula = formula_of(alloc, question)?;
    match search(alloc, &formula.cnf, budget)? {
        Searched::Solved(found) => {
            let values = values_of(alloc, question, &formula, &found)?;
            Ok(Attempt::Met(values))
        }
        Searched::Refuted(log) => {
            let Formula { cnf, .. } = formula;
            let refutation = refuted(alloc, cnf, log)?;
            Ok(Attempt::Refuted(refutation))
        }
        Searched::Spent(log) => {
            let Formula { cnf, .. } = formula;
            Ok(Attempt::Spent(cnf, log))
        }
    }
}

// The refutation that a search found.
fn refuted(alloc: Global, cnf: Cnf, log: Log) -> Result<Refutation, AllocError>
    requires { IsRefutation cnf.clauses log }
    ensures { IfOk result (λ _. (values : List Bool) → are_met values cnf.clauses ≡ true → ⊥) }
{
    match accept(alloc, cnf, log) {
        Ok(refutation) => Ok(refutation),
        Err(Rejected::Memory) => Err(AllocError),
        Err(Rejected::BadLine(_)) => unreachable!(),
        Err(Rejected::NotEmpty) => unreachable!(),
    }
}
