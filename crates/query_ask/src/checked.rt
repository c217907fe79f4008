//! A question with its verdict.

use crate::question::Question;
use crate::verdict::Verdict;
use std::marker::Model;

/// A question with a verdict that is right for it, for those that are to rely on it later.
///
/// `Answer::checked` alone makes one.
#[derive(Debug, Drop)]
pub struct Checked {
    question: Question,
    verdict: Verdict,
}

impl Model for Checked {
    ghost use Rattle.query_ask.specs.Verdicts.{Judged, IsVerdict};

    ghost Value = { Judged };

    ghost view = { λ checked. record { question = checked.question; verdict = checked.verdict } };

    ghost invariant = { λ checked. IsVerdict checked.question checked.verdict };
}

impl Checked {
    ghost use Rattle.std.specs.Prelude.{◌≡◌};
    ghost use Rattle.query_ask.specs.Verdicts.{IsVerdict};

    pub(crate) fn new(question: Question, verdict: Verdict) -> Checked
        requires { IsVerdict question verdict }
        ensures { result ≡ record { question = question; verdict = verdict } }
    {
        Checked { question, verdict }
    }

    pub fn question(&self) -> &Question
        ensures { result.now ≡ self.now.question }
    {
        &self.question
    }

    pub fn verdict(&self) -> &Verdict
        ensures { result.now ≡ self.now.verdict }
    {
        &self.verdict
    }

    /// The question and its verdict.
    pub fn into_parts(self) -> (Question, Verdict)
        ensures question { result.0 ≡ self.question }
        ensures verdict { result.1 ≡ self.verdict }
    {
        let Checked { question, verdict } = self;
        (question, verdict)
    }

    /// Law: the verdict is right for the question.
    pub fn law(&self)
        ensures { IsVerdict self.now.question self.now.verdict }
    {
        let _verdict = &self.verdict;
    }
}
