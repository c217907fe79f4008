//! What a walk is told of its questions.
ghost use Rattle.std.specs.Prelude.{IfOk};
ghost use Rattle.query_ask.specs.Verdicts.{IsRightAnswer};
ghost use Rattle.path_run.specs.Asking.{IsRightTold, IsSpentTold};

use path_run::Told;
use query_ask::{Answer, Question, ask};
use query_cache::SharedCache;
use std::alloc::{AllocError, Global};
use std::sync::Wait;

// Keeps the verdict that an answer gives, if it gives one and there is memory.
fn keep<R: Wait>(rt: &R, alloc: Global, cache: &SharedCache, question: Question, answer: &Answer)
    requires { IsRightAnswer question answer.now }
{
    if let Ok(Some(checked)) = answer.checked(alloc, question) {
        let _kept = cache.keep(rt, checked);
    }
}

/// What a walk is told of its question: the verdict that the cache has, and else the answer, whose verdict is kept.
pub(crate) fn tell<R: Wait>(
    rt: &R,
    alloc: Global,
    cache: &SharedCache,
    question: Question,
    budget: u64,
) -> Result<Told, AllocError>
    ensures right { IfOk result (IsRightTold question) }
    ensures spent { IfOk result (IsSpentTold budget) }
{
    if let Some(verdict) = cache.look(rt, alloc, &question)? {
        return Ok(Told::from_verdict(verdict));
    }
    let answer = ask(alloc, &question, budget)?;
    answer.law(&question, budget);
    keep(rt, alloc, cache, question, &answer);
    Ok(Told::from_answer(answer))
}
