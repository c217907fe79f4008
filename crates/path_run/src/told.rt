//! What a walk is told of its question.

use bv_expr::Values;
use cnf_form::{Cnf, Log};
use query_ask::{Answer, Verdict};

/// What a walk is told of its question.
#[derive(Debug, Drop)]
pub enum Told {
    /// These values, one for each variable, meet the question.
    Yes(Values),
    /// No values do.
    No,
    /// The search for values ran out of its budget. The formula has a solution exactly where some values meet the
    /// question, and the log is what was learnt.
    Spent(Cnf, Log),
}

impl Told {
    ghost use Rattle.std.specs.Prelude.{◌≡◌};
    ghost use Rattle.path_run.specs.Answering.{told_of, told_of_verdict};

    /// What a walk is told for an answer to its question.
    pub fn from_answer(answer: Answer) -> Told
        ensures { result ≡ told_of answer }
    {
        match answer {
            Answer::Yes(values) => Told::Yes(values),
            Answer::No(_) => Told::No,
            Answer::Tried(_, _) => Told::No,
            Answer::Spent(cnf, log) => Told::Spent(cnf, log),
        }
    }

    /// What a walk is told for a verdict on its question.
    pub fn from_verdict(verdict: Verdict) -> Told
        ensures { result ≡ told_of_verdict verdict }
    {
        match verdict {
            Verdict::Yes(values) => Told::Yes(values),
            Verdict::No => Told::No,
        }
    }
}
