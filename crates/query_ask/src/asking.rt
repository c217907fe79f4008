//! The answer to a question.
ghost use Rattle.std.specs.Prelude.{IfOk};
ghost use Rattle.cnf_form.specs.Spent.{IsSpent};
ghost use Rattle.query_ask.specs.Formulas.{IsFormulaOf};
ghost use Rattle.query_ask.specs.Answers.{IsAnswer};

use crate::answer::Answer;
use crate::attempt::{Attempt, search_for};
use crate::guesses::try_guesses;
use crate::parts::ask_parts;
use crate::question::Question;
use crate::trying::{are_few, try_all, variables_of};
use cnf_form::{Cnf, Log};
use std::alloc::{AllocError, Global};

/// Whether some bytes meet a question, where a search may learn at most `budget` lines.
///
/// Where the search is spent, all valuations of the question's variables are tried if they are no more than
/// the budget. Nothing random enters.
///
/// Cheap answers come first. Eight fixed valuations are tried, each in time in proportion to the nodes. Then
/// the asked node is searched with the last conjunct alone, and with those that the values found break: at most
/// eight searches of at most 300 lines, whose cost grows with the nodes on which these conjuncts depend, and one
/// copy of the nodes. Only then is the whole question searched, whose formula has up to 32,768 variables for
/// each node, most of them for products and divisions. Nothing is kept from one call to the next.
pub fn ask(alloc: Global, question: &Question, budget: u64) -> Result<Answer, AllocError>
    ensures { IfOk result (IsAnswer question.now budget) }
{
    if let Some(values) = try_guesses(alloc, question)? {
        return Ok(Answer::Yes(values));
    }
    if let Some(answer) = ask_parts(alloc, question, budget)? {
        return Ok(answer);
    }
    let answer = ask_whole(alloc, question, budget)?;
    Ok(answer)
}

// The answer by a search for the whole question.
fn ask_whole(alloc: Global, question: &Question, budget: u64) -> Result<Answer, AllocError>
    ensures { IfOk result (IsAnswer question.now budget) }
{
    match search_for(alloc, question, budget)? {
        Attempt::Met(values) => Ok(Answer::Yes(values)),
        Attempt::Refuted(refutation) => Ok(Answer::No(refutation)),
        Attempt::Spent(cnf, log) => {
            let answer = after_spent(alloc, question, cnf, log, budget)?;
            Ok(answer)
        }
    }
}

// The answer after a search that was spent.
fn after_spent(
    alloc: Global,
    question: &Question,
    cnf: Cnf,
    log: Log,
    budget: u64,
) -> Result<Answer, AllocError>
    requires formula { IsFormulaOf question.now cnf }
    requires spent { IsSpent cnf.clauses budget log }
    ensures { IfOk result (IsAnswer question.now budget) }
{
    let variables = variables_of(alloc, question.nodes())?;
    if !are_few(variables.len(), budget) {
        return Ok(Answer::Spent(cnf, log));
    }
    match try_all(alloc, question, variables.as_slice())? {
        Some(values) => Ok(Answer::Yes(values)),
        None => Ok(Answer::Tried(cnf, log)),
    }
}
