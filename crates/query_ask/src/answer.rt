//! Answers to a question.

use crate::checked::Checked;
use crate::question::Question;
use crate::verdict::Verdict;
use bv_expr::Values;
use cnf_form::{Cnf, Log};
use proof_check::Refutation;
use std::alloc::{AllocError, Global};

/// What is known of a question.
#[derive(Debug, Drop)]
pub enum Answer {
    /// These values, one for each variable, meet the question.
    Yes(Values),
    /// No values do.
    No(Refutation),
    /// No values do: the search was spent, and then all valuations of the question's variables were tried.
    /// The formula has a solution exactly where the question has one, and the log is spent for it.
    Tried(Cnf, Log),
    /// The search was spent, and there are more valuations than the budget. The formula and the log are as
    /// under `Tried`.
    Spent(Cnf, Log),
}

impl Answer {
    ghost use Rattle.std.specs.Prelude.{◌≡◌, IfOk, MatchOption};
    ghost use Rattle.query_ask.specs.Answers.{IsAnswer};
    ghost use Rattle.query_ask.specs.Verdicts.{IsRightAnswer, KeepsVerdict, verdict_of};

    /// The question with its verdict. None where the search was spent and nothing was tried. Copies the
    /// values of a Yes, and nothing else.
    pub fn checked(&self, alloc: Global, question: Question) -> Result<Option<Checked>, AllocError>
        requires { IsRightAnswer question self.now }
        ensures { IfOk result (λ found. MatchOption found (verdict_of self.now ≡ None) (KeepsVerdict self.now question)) }
    {
        match self {
            Answer::Yes(values) => {
                let verdict = Verdict::Yes(Values(values.0.copy(alloc)?));
                Ok(Some(Checked::new(question, verdict)))
            }
            Answer::No(_) => Ok(Some(Checked::new(question, Verdict::No))),
            Answer::Tried(_, _) => Ok(Some(Checked::new(question, Verdict::No))),
            Answer::Spent(_, _) => Ok(None),
        }
    }

    /// Law: an answer that is right under a budget is right whatever the budget was.
    pub fn law(&self, question: &Question, budget: u64)
        requires { IsAnswer question.now budget self.now }
        ensures { IsRightAnswer question.now self.now }
    {
        let _budget = budget;
        question.law();
    }
}
