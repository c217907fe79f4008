//! Parts of a question: the asked node with some of the conjuncts.
ghost use Rattle.std.specs.Prelude.{All, Contains, IfOk, IfSome};
ghost use Rattle.query_ask.specs.Answers.{IsAnswer};
ghost use Rattle.query_ask.specs.Parts.{IsPart, IsRound};

use crate::answer::Answer;
use crate::attempt::{Attempt, search_for};
use crate::meeting::{is_true, meets};
use crate::question::Question;
use ct_rows::Row;
use std::alloc::{AllocError, Global};

/// How many parts are searched at most.
const ROUNDS: u32 = 8;

/// How many lines the search of a part may learn.
const PART_LINES: u64 = 300;

/// What the search of a part says of the whole question.
#[derive(Drop)]
pub(crate) enum Round {
    /// The answer.
    Answered(Answer),
    /// Nothing: its values break some conjuncts.
    Broken,
    /// Nothing: the search was spent.
    Over,
}

/// The answer to a question that parts of it give, if they give one.
///
/// The first part has the last conjunct alone. Those that its values break are added, and so on. A part with
/// all conjuncts isn't searched here. The nodes are copied once.
pub(crate) fn ask_parts(
    alloc: Global,
    question: &Question,
    budget: u64,
) -> Result<Option<Answer>, AllocError>
    ensures { IfOk result (λ found. IfSome found (IsAnswer question.now budget)) }
{
    if question.conjuncts().len() < 2 {
        return Ok(None);
    }
    let mut part = last_part(alloc, question)?;
    let mut results = Vec::new(alloc);
    'rounds: for _round in 0..ROUNDS {
        if part.conjuncts().len() == question.conjuncts().len() {
            return Ok(None);
        }
        match ask_part(alloc, question, &part, budget, &mut results)? {
            Round::Answered(answer) => return Ok(Some(answer)),
            Round::Broken => part = grown(alloc, question, part, results.as_slice())?,
            Round::Over => return Ok(None),
        }
    }
    Ok(None)
}

// One round. The values of all nodes under the part's values are then in `results`.
fn ask_part(
    alloc: Global,
    question: &Question,
    part: &Question,
    budget: u64,
    results: &mut Vec<u32>,
) -> Result<Round, AllocError>
    requires { IsPart question.now part.now }
    ensures { IfOk result (IsRound question.now budget) }
{
    match search_for(alloc, part, budget.min(PART_LINES))? {
        Attempt::Met(values) => {
            if meets(question, &values, results)? {
                Ok(Round::Answered(Answer::Yes(values)))
            } else {
                Ok(Round::Broken)
            }
        }
        Attempt::Refuted(refutation) => Ok(Round::Answered(Answer::No(refutation))),
        Attempt::Spent(_, _) => Ok(Round::Over),
    }
}

// The part with the last conjunct alone, where there is one.
fn last_part(alloc: Global, question: &Question) -> Result<Question, AllocError>
    ensures { IfOk result (IsPart question.now) }
{
    question.law();
    let nodes = Vec::from_slice(alloc, question.nodes())?;
    let conjuncts = last(alloc, question.conjuncts())?;
    Ok(Question::new(
        question.vars(),
        Row::from_vec(nodes),
        Row::from_vec(conjuncts),
        question.asked(),
    ))
}

// The last number alone.
fn last(alloc: Global, numbers: &[usize]) -> Result<Vec<usize>, AllocError>
    ensures { IfOk result (λ v. All (Contains numbers.now) v.items) }
{
    let mut last = Vec::new(alloc);
    if !numbers.is_empty() {
        last.push(numbers[numbers.len() - 1])?;
    }
    Ok(last)
}

// The part with the conjuncts that the results break.
fn grown(
    alloc: Global,
    question: &Question,
    part: Question,
    results: &[u32],
) -> Result<Question, AllocError>
    requires { IsPart question.now part }
    ensures { IfOk result (IsPart question.now) }
{
    question.law();
    let chosen = Vec::from_slice(alloc, part.conjuncts())?;
    let more = with_broken(question.conjuncts(), chosen, results)?;
    Ok(part.with_conjuncts(Row::from_vec(more)))
}

// The chosen numbers, and those of all whose results aren't 1. Where the results of the chosen ones are 1, none
// comes twice.
fn with_broken(
    numbers: &[usize],
    mut chosen: Vec<usize>,
    results: &[u32],
) -> Result<Vec<usize>, AllocError>
    requires { All (Contains numbers.now) chosen.items }
    ensures { IfOk result (λ v. All (Contains numbers.now) v.items) }
{
    for number in numbers {
        if !is_true(results, *number) {
            chosen.push(*number)?;
        }
    }
    Ok(chosen)
}
